//! What does the clerk do at one room?

ghost use Rattle.std.specs.Prelude.{◌≡◌, ◌-◌, ◌^◌, ◌<◌, IfErr, IsErrOf, IsTrue, OnOk, OnErr};
ghost use Rattle.hb_club.specs.Fronts.{Fronts, site_of};
ghost use Rattle.hb_club.specs.HallAnswers.{HasRun, NothingOwn};
ghost use Rattle.hb_house.specs.ClerkReports.{FaultCause, IsByHall};
ghost use Rattle.hb_house.specs.ClerkRounds.{AtEach, Loads, NotesLoaded, NotesSaved, Round, Saves, Settles, text_in};
ghost use Rattle.hb_house.specs.ClerkStops.{LoadStops, RoundStops, SaveStops, SettleStops};
ghost use Rattle.hb_house.specs.KeeperSteps.{Tells};
ghost use Rattle.hb_house.specs.RoundSteps.{CountsLoaded, CountsOnce, CountsSaved, HasSpace, NoteStep, RoomStep};

use crate::reports::{count_loaded, count_saved, refused_by_hall, refused_by_keeper};
use crate::{ClerkError, Hall, Report};
use hb_club::{ClerkNote, Todo};
use hb_io::Text;
use hb_keeper::{GameRow, Keeper, Key};
use std::alloc::Global;

/// Notes at a room under which id the game of a table is kept.
fn note_saved<H: Hall>(
    alloc: Global,
    hall: &mut H,
    room: u32,
    moment: u64,
    table: u32,
    id: u64,
    report: &mut Report,
) -> Result<(), ClerkError>
    requires { report.old.saved < 2 ^ 32 - 1 }
    ensures ok { OnOk result ((f : Fronts) → H.stands hall.old f
        → NoteStep (H.stands hall.new) room f (λ old new. NotesSaved (H.alone hall.old)
        (site_of (H.house hall.old) room) moment table id old new report.old report.new)) }
    ensures err { OnErr result ((f : Fronts) → H.stands hall.old f
        → NothingOwn H.stands (H.alone hall.old) hall.new room f) }
    ensures hall { IfErr result IsByHall }
    ensures worn { IsErrOf result ClerkError.Worn → IsTrue (H.mark hall.new room) }
    ensures counts { CountsSaved report.old report.new }
    ensures report { OnErr result (report.new ≡ report.old) }
    ensures house { H.house hall.new ≡ H.house hall.old }
    ensures alone { H.alone hall.new ≡ H.alone hall.old }
    ensures count { H.count hall.new ≡ H.count hall.old }
{
    let note = ClerkNote::Saved { table, id };
    match hall.note(alloc, room, moment, &note) {
        Err(e) => Err(refused_by_hall(e)),
        Ok(noted) => {
            count_saved(report, noted);
            Ok(())
        }
    }
}

/// Brings a table the game that it asked for, or notes that there is none.
fn note_loaded<H: Hall>(
    alloc: Global,
    hall: &mut H,
    room: u32,
    moment: u64,
    load: (u32, u64),
    row: Option<GameRow>,
    report: &mut Report,
) -> Result<(), ClerkError>
    requires loaded { report.old.loaded < 2 ^ 32 - 1 }
    requires missing { report.old.missing < 2 ^ 32 - 1 }
    ensures ok { OnOk result ((f : Fronts) → H.stands hall.old f
        → NoteStep (H.stands hall.new) room f (λ old new. NotesLoaded (H.alone hall.old)
        (site_of (H.house hall.old) room) moment load row old new report.old report.new)) }
    ensures err { OnErr result ((f : Fronts) → H.stands hall.old f
        → NothingOwn H.stands (H.alone hall.old) hall.new room f) }
    ensures hall { IfErr result IsByHall }
    ensures worn { IsErrOf result ClerkError.Worn → IsTrue (H.mark hall.new room) }
    ensures counts { CountsLoaded report.old report.new }
    ensures report { OnErr result (report.new ≡ report.old) }
    ensures house { H.house hall.new ≡ H.house hall.old }
    ensures alone { H.alone hall.new ≡ H.alone hall.old }
    ensures count { H.count hall.new ≡ H.count hall.old }
{
    let note = ClerkNote::Loaded {
        table: load.0,
        id: load.1,
        text: text_of(row),
    };
    match hall.note(alloc, room, moment, &note) {
        Err(e) => Err(refused_by_hall(e)),
        Ok(noted) => {
            count_loaded(report, noted);
            Ok(())
        }
    }
}

/// The text of a kept game, if there is one.
fn text_of(row: Option<GameRow>) -> Option<Text>
    ensures { result ≡ text_in row }
{
    match row {
        None => None,
        Some(row) => Some(row.text),
    }
}

/// Keeps a game that is due, and notes its id.
fn put_due<H: Hall, K: Keeper>(
    alloc: Global,
    hall: &mut H,
    keeper: &mut K,
    room: u32,
    moment: u64,
    save: &Option<(Key, GameRow)>,
    report: &mut Report,
) -> Result<(), ClerkError>
    requires run { HasRun save.now }
    requires space { report.old.saved < 2 ^ 32 - 1 }
    ensures ok { OnOk result (AtEach (H.stands hall.old)
        (Tells (K.tells keeper.old) (K.plan keeper.old)) (K.is_sure keeper.new)
        (λ f c. RoomStep (H.stands hall.new) (Tells (K.tells keeper.new) (K.plan keeper.new))
        room f (λ new d. Saves (H.alone hall.old) (site_of (H.house hall.old) room) moment
        save.now (f.rooms room) new c d report.old report.new))) }
    ensures err { IfErr result (λ why. AtEach (H.stands hall.old)
        (Tells (K.tells keeper.old) (K.plan keeper.old)) (K.is_sure keeper.new)
        (λ f c. RoomStep (H.stands hall.new) (Tells (K.tells keeper.new) (K.plan keeper.new))
        room f (λ new d. SaveStops (H.alone hall.old) save.now why
        (f.rooms room) new c d report.old report.new))) }
    ensures sure { K.is_sure keeper.new → K.is_sure keeper.old }
    ensures cause { FaultCause (K.faults keeper.old) (K.faults keeper.new) result }
    ensures worn { IsErrOf result ClerkError.Worn → IsTrue (H.mark hall.new room) }
    ensures counts { CountsSaved report.old report.new }
    ensures house { H.house hall.new ≡ H.house hall.old }
    ensures alone { H.alone hall.new ≡ H.alone hall.old }
    ensures count { H.count hall.new ≡ H.count hall.old }
{
    match save {
        None => Ok(()),
        Some((key, row)) => match keeper.put_once(key, row) {
            Err(e) => Err(refused_by_keeper(e)),
            Ok(id) => note_saved(alloc, hall, room, moment, key.serial, id, report),
        },
    }
}

/// Gets a game that a table asks for, and brings it.
fn fetch_pending<H: Hall, K: Keeper>(
    alloc: Global,
    hall: &mut H,
    keeper: &mut K,
    room: u32,
    moment: u64,
    load: Option<(u32, u64)>,
    report: &mut Report,
) -> Result<(), ClerkError>
    requires loaded { report.old.loaded < 2 ^ 32 - 1 }
    requires missing { report.old.missing < 2 ^ 32 - 1 }
    ensures ok { OnOk result (AtEach (H.stands hall.old)
        (Tells (K.tells keeper.old) (K.plan keeper.old)) (K.is_sure keeper.new)
        (λ f c. RoomStep (H.stands hall.new) (Tells (K.tells keeper.new) (K.plan keeper.new))
        room f (λ new d. Loads (H.alone hall.old) (site_of (H.house hall.old) room) moment
        load (f.rooms room) new c d report.old report.new))) }
    ensures err { IfErr result (λ why. AtEach (H.stands hall.old)
        (Tells (K.tells keeper.old) (K.plan keeper.old)) (K.is_sure keeper.new)
        (λ f c. RoomStep (H.stands hall.new) (Tells (K.tells keeper.new) (K.plan keeper.new))
        room f (λ new d. LoadStops (H.alone hall.old) load why
        (f.rooms room) new c d report.old report.new))) }
    ensures sure { K.is_sure keeper.new → K.is_sure keeper.old }
    ensures cause { FaultCause (K.faults keeper.old) (K.faults keeper.new) result }
    ensures worn { IsErrOf result ClerkError.Worn → IsTrue (H.mark hall.new room) }
    ensures counts { CountsLoaded report.old report.new }
    ensures house { H.house hall.new ≡ H.house hall.old }
    ensures alone { H.alone hall.new ≡ H.alone hall.old }
    ensures count { H.count hall.new ≡ H.count hall.old }
{
    match load {
        None => Ok(()),
        Some(load) => match keeper.get(load.1) {
            Err(e) => Err(refused_by_keeper(e)),
            Ok(row) => note_loaded(alloc, hall, room, moment, load, row, report),
        },
    }
}

/// Does all that there is to do at a room.
fn settle<H: Hall, K: Keeper>(
    alloc: Global,
    hall: &mut H,
    keeper: &mut K,
    room: u32,
    moment: u64,
    todo: &Todo,
    report: &mut Report,
) -> Result<(), ClerkError>
    requires run { HasRun todo.now.save }
    requires space { HasSpace report.old }
    ensures ok { OnOk result (AtEach (H.stands hall.old)
        (Tells (K.tells keeper.old) (K.plan keeper.old)) (K.is_sure keeper.new)
        (λ f c. RoomStep (H.stands hall.new) (Tells (K.tells keeper.new) (K.plan keeper.new))
        room f (λ new d. Settles (H.alone hall.old) (site_of (H.house hall.old) room) moment
        todo.now (f.rooms room) new c d report.old report.new))) }
    ensures err { IfErr result (λ why. AtEach (H.stands hall.old)
        (Tells (K.tells keeper.old) (K.plan keeper.old)) (K.is_sure keeper.new)
        (λ f c. RoomStep (H.stands hall.new) (Tells (K.tells keeper.new) (K.plan keeper.new))
        room f (λ new d. SettleStops (H.alone hall.old) (site_of (H.house hall.old) room)
        moment todo.now why (f.rooms room) new c d report.old report.new))) }
    ensures sure { K.is_sure keeper.new → K.is_sure keeper.old }
    ensures cause { FaultCause (K.faults keeper.old) (K.faults keeper.new) result }
    ensures worn { IsErrOf result ClerkError.Worn → IsTrue (H.mark hall.new room) }
    ensures counts { CountsOnce report.old report.new }
    ensures house { H.house hall.new ≡ H.house hall.old }
    ensures alone { H.alone hall.new ≡ H.alone hall.old }
    ensures count { H.count hall.new ≡ H.count hall.old }
{
    match put_due(alloc, hall, keeper, room, moment, &todo.save, report) {
        Err(e) => Err(e),
        Ok(()) => fetch_pending(alloc, hall, keeper, room, moment, todo.load, report),
    }
}

/// The round of a room: asks it what there is to do, and does that.
pub(crate) fn visit<H: Hall, K: Keeper>(
    alloc: Global,
    hall: &mut H,
    keeper: &mut K,
    room: u32,
    moment: u64,
    report: &mut Report,
) -> Result<(), ClerkError>
    requires space { HasSpace report.old }
    ensures ok { OnOk result (AtEach (H.stands hall.old)
        (Tells (K.tells keeper.old) (K.plan keeper.old)) (K.is_sure keeper.new)
        (λ f c. RoomStep (H.stands hall.new) (Tells (K.tells keeper.new) (K.plan keeper.new))
        room f (λ new d. Round (H.alone hall.old) (site_of (H.house hall.old) room) moment
        (f.rooms room) new c d report.old report.new))) }
    ensures err { IfErr result (λ why. AtEach (H.stands hall.old)
        (Tells (K.tells keeper.old) (K.plan keeper.old)) (K.is_sure keeper.new)
        (λ f c. RoomStep (H.stands hall.new) (Tells (K.tells keeper.new) (K.plan keeper.new))
        room f (λ new d. RoundStops (H.alone hall.old) (site_of (H.house hall.old) room)
        moment why (f.rooms room) new c d report.old report.new))) }
    ensures sure { K.is_sure keeper.new → K.is_sure keeper.old }
    ensures cause { FaultCause (K.faults keeper.old) (K.faults keeper.new) result }
    ensures worn { IsErrOf result ClerkError.Worn → IsTrue (H.mark hall.new room) }
    ensures counts { CountsOnce report.old report.new }
    ensures house { H.house hall.new ≡ H.house hall.old }
    ensures alone { H.alone hall.new ≡ H.alone hall.old }
    ensures count { H.count hall.new ≡ H.count hall.old }
{
    match hall.todo(alloc, room, moment) {
        Err(e) => Err(refused_by_hall(e)),
        Ok(todo) => settle(alloc, hall, keeper, room, moment, &todo, report),
    }
}
