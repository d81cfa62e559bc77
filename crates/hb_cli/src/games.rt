//! What does `games` do?

ghost use Rattle.std.specs.Prelude.{◌≡◌, ℕ, IfErr, IsErrOf, List, OnOk, Option};
ghost use Rattle.hb_io.specs.Causes.{Rose};
ghost use Rattle.hb_house.specs.KeeperSteps.{Tells};
ghost use Rattle.hb_words.specs.declared.commands.Command.TheVariants.{Games as asks_games};
ghost use Rattle.hb_cli.specs.Asked.{WithWords};
ghost use Rattle.hb_cli.specs.Statuses.{IsRefused, IsSilent, status_of};
ghost use Rattle.hb_cli.specs.Works.{ListedGames, OfGames, Stops};
ghost use Rattle.hb_cli.specs.Written.{Writes, sent};

use crate::status::Stop;
use crate::writes::write;
use hb_io::{Name, Sink};
use hb_keeper::Keeper;
use hb_script::games_text;
use std::alloc::Global;

/// Writes the kept games of a member, a line for each.
pub fn games<O: Sink, K: Keeper>(
    alloc: Global,
    name: &Name,
    out: &mut O,
    keeper: &mut K,
) -> Result<(), Stop>
    ensures ok { (store : List ℕ) (told : Option (List ℕ))
        → WithWords (asks_games store name.now) told (λ a.
        OnOk result (OfGames a (Tells (K.tells keeper.old) (K.plan keeper.old))
        (K.is_sure keeper.new) (ListedGames (Tells (K.tells keeper.new) (K.plan keeper.new))
        (Writes (sent O.held O.faults out.old out.new))))) }
    ensures stop { (store : List ℕ) (told : Option (List ℕ))
        → WithWords (asks_games store name.now) told (λ a.
        IfErr result (Stops a (Tells (K.tells keeper.old) (K.plan keeper.old))
        (Tells (K.tells keeper.new) (K.plan keeper.new)) (K.is_sure keeper.new)
        (sent O.held O.faults out.old out.new))) }
    ensures kept { IfErr result (λ why. IsRefused (status_of why) → out.new ≡ out.old) }
    ensures silent { IfErr result (λ why. IsSilent (status_of why) → ⊥) }
    ensures sure { K.is_sure keeper.new → K.is_sure keeper.old }
    ensures read_fault { IsErrOf result Stop.ReadFault → ⊥ }
    ensures keeper_fault { IsErrOf result Stop.KeeperFault
        → Rose (K.faults keeper.old) (K.faults keeper.new) }
    ensures cause { IsErrOf result Stop.WriteFault → Rose (O.faults out.old) (O.faults out.new) }
{
    let lines = match keeper.of_member(name) {
        Ok(lines) => lines,
        Err(error) => return Err(Stop::from(error)),
    };
    let Ok(text) = games_text(alloc, lines.as_slice()) else {
        return Err(Stop::NoMemory);
    };
    write(out, text.as_str().as_bytes())
}
