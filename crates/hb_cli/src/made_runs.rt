//! What does the run of a made script come to?

ghost use Rattle.std.specs.Prelude.{◌≡◌, ◌≤◌, All, None, IfOk, OnOk};
ghost use Rattle.hb_house.specs.ClerkRounds.{AtEach};
ghost use Rattle.hb_house.specs.KeeperSteps.{Tells};
ghost use Rattle.hb_run.specs.HeldRuns.{FromEach, IsAt};
ghost use Rattle.hb_run.specs.RunLines.{first_state};
ghost use Rattle.hb_run.specs.ScriptRuns.{RunsAll};
ghost use Rattle.hb_talk.specs.Scripts.{HasConnection};
ghost use Rattle.hb_words.specs.declared.commands.TheConstants.{MOST_TABLES};
ghost use Rattle.hb_cli.specs.MadeRuns.{RunsMade};

use hb_house::Hall;
use hb_io::StdSink;
use hb_keeper::Keeper;
use hb_run::ScriptRun;
use hb_script::{hello_lines, made_table};
use hb_talk::ScriptLine;
use std::alloc::{AllocError, Global};
use std::io::sink;

/// The sums of the run of a made script.
#[derive(Clone, Copy, Debug, PartialEq, Eq)]
pub struct Sums {
    /// How many acts all games had.
    pub acts: u64,
    /// The sum of the scores.
    pub score: u64,
    /// How many bytes the texts have that the sessions sent; the greatest number if it is as many
    /// or more.
    pub bytes: u64,
}

/// Runs lines behind those that were run before, and keeps none of their texts.
///
/// The error says that the run did not come to its end.
fn run_on<H: Hall, K: Keeper>(
    alloc: Global,
    run: &mut ScriptRun,
    hall: &mut H,
    keeper: &mut K,
    lines: &[ScriptLine],
) -> Result<(), AllocError>
    requires { All HasConnection lines.now }
    ensures ok { OnOk result (FromEach (IsAt (H.stands hall.old)
        (Tells (K.tells keeper.old) (K.plan keeper.old)) (H.house hall.old) run.old)
        (K.is_sure keeper.new) (λ s. RunsAll (IsAt (H.stands hall.new)
        (Tells (K.tells keeper.new) (K.plan keeper.new)) (H.house hall.old) run.new)
        (H.house hall.old) (H.count hall.old) (H.alone hall.old) lines.now s None None)) }
    ensures sure { K.is_sure keeper.new → K.is_sure keeper.old }
    ensures house { H.house hall.new ≡ H.house hall.old }
    ensures alone { H.alone hall.new ≡ H.alone hall.old }
    ensures count { H.count hall.new ≡ H.count hall.old }
{
    match run.run(alloc, hall, keeper, lines, &mut StdSink::new(sink())) {
        Ok(()) => Ok(()),
        Err(_) => Err(AllocError),
    }
}

/// Runs the script that is made of a number of tables and a seed, a table at a time, so that
/// neither its lines nor its texts are kept.
///
/// The error says that the run did not come to its end: memory ran out, or the hall or the keeper
/// stopped it.
pub fn run_made<H: Hall, K: Keeper>(
    alloc: Global,
    hall: &mut H,
    keeper: &mut K,
    tables: u8,
    seed: u64,
) -> Result<Sums, AllocError>
    requires { tables ≤ MOST_TABLES }
    ensures { IfOk result (λ sums. AtEach (H.stands hall.old)
        (Tells (K.tells keeper.old) (K.plan keeper.old)) (K.is_sure keeper.new)
        (λ f c. RunsMade (H.house hall.old) (H.count hall.old) (H.alone hall.old)
        tables seed (first_state f c) sums)) }
{
    let mut run = ScriptRun::new(alloc)?;
    let mut acts = 0;
    let mut score = 0;
    let hellos = hello_lines(alloc)?;
    run_on(alloc, &mut run, hall, keeper, hellos.as_slice())?;
    for done in 0..tables {
        let table = made_table(alloc, seed, u32::from(done) + 1)?;
        run_on(alloc, &mut run, hall, keeper, table.lines.as_slice())?;
        acts += table.acts as u64;
        score += u64::from(table.score);
    }
    let bytes = run.bytes();
    Ok(Sums { acts, score, bytes })
}
