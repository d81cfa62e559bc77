//! Does a run write what its words ask for, and what does it leave if a stream fails?

use hb_cli::{Status, run};
use hb_io::{SinkMemory, SourceMemory};
use hb_keeper::{Fails, KeeperMemory};
use std::alloc::{AllocError, Global};
use std::test::Fail;

/// Seat 0 plays a card, and seat 1 clues it red.
const TWO_ACTS: &str = "{\"target\":0,\"type\":0},{\"target\":0,\"type\":2,\"value\":0}";

/// A replay of Ann and Bob on the cards of three suits, each in order of ranks.
fn replay_text(alloc: Global) -> Result<String, AllocError> {
    let mut deck = String::new(alloc);
    for suit in 0..3 {
        for rank in [1u8, 1, 1, 2, 2, 3, 3, 4, 4, 5] {
            let comma = if deck.is_empty() { "" } else { "," };
            write!(deck, "{comma}{{\"rank\":{rank},\"suitIndex\":{suit}}}")?;
        }
    }
    format!(in alloc;
        "{{\"actions\":[{TWO_ACTS}],\"deck\":[{deck}],\
         \"options\":{{\"variant\":\"3 Suits\"}},\"players\":[\"Ann\",\"Bob\"]}}"
    )
}

/// What seat 0 is shown of these acts behind the deal.
const ACTS_FOR_ANN: &str = "play {\"card\":\"a1\",\"fits\":true,\"order\":0,\"seat\":0}
draw {\"card\":null,\"order\":10,\"seat\":0}
clue {\"color\":0,\"from\":1,\"to\":0,\"touched\":[1,2,3,4]}
";

/// How the game stands after the play, and what Ann can tell of her hand.
const STATE_FOR_ANN: &str = "state {\"current\":1,\"deck\":19,\"score\":1,\"stacks\":[1,0,0],\
     \"strikes\":0,\"tokens\":8,\"turn\":1}
hand {\"seat\":0,\"sets\":[[1,";

#[test]
fn each_command_writes_its_text(rt: HostRuntime) -> Result<(), Fail> {
    let alloc = rt.alloc();
    let input = replay_text(alloc)?;
    let words: [&[&str]; 4] = [&["watch", "0"], &["look", "0", "1"], &["check"], &["copy"]];
    for (words, start, end) in [
        (
            words[0],
            "game {\"options\":{\"variant\":\"3 Suits\"}",
            ACTS_FOR_ANN,
        ),
        (words[1], STATE_FOR_ANN, "]}\n"),
        (words[2], "ok 2 2 1 0\n", ""),
        (words[3], input.as_str(), "\n"),
    ] {
        let mut source = SourceMemory::new(input.as_bytes().to_vec(alloc)?, 7, Vec::new(alloc));
        let mut out = SinkMemory::new(alloc, 5, Vec::new(alloc));
        let mut err = SinkMemory::new(alloc, 5, Vec::new(alloc));
        let mut keeper = KeeperMemory::new(alloc, 0, Fails::new(alloc))?;
        assert_eq!(rt;
            run(alloc, words, &mut source, &mut out, &mut err, &mut keeper),
            Status::Ok
        );
        let text = String::from_utf8(out.into_vec())?;
        assert!(rt; text.starts_with(start) && text.ends_with(end), "{text}");
        assert!(rt; err.into_vec().is_empty());
    }
    Ok(())
}

#[test]
fn a_fault_leaves_a_front_and_has_its_line(rt: HostRuntime) -> Result<(), Fail> {
    let alloc = rt.alloc();
    let input = replay_text(alloc)?;
    let none = Vec::new(alloc);
    for (read_fails, write_fails, status, front, line) in [
        (3, 0, Status::ReadFault, "", "read fault\n"),
        (0, 3, Status::WriteFault, "game {\"opt", "write fault\n"),
    ] {
        let bytes = input.as_bytes().to_vec(alloc)?;
        let mut source = SourceMemory::new(bytes, 64, vec![in alloc; read_fails]?);
        let mut out = SinkMemory::new(alloc, 5, vec![in alloc; write_fails]?);
        let mut err = SinkMemory::new(alloc, 64, none.clone()?);
        let mut keeper = KeeperMemory::new(alloc, 0, Fails::new(alloc))?;
        assert_eq!(rt;
            run(
                alloc,
                &["watch", "0"],
                &mut source,
                &mut out,
                &mut err,
                &mut keeper
            ),
            status
        );
        assert_eq!(rt; out.into_vec().as_slice(), front.as_bytes());
        assert_eq!(rt; err.into_vec().as_slice(), line.as_bytes());
    }
    Ok(())
}
