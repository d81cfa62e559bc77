//! What does a room reply to a member?

ghost use Rattle.std.specs.Prelude.{◌≡◌};
ghost use Rattle.hb_club.specs.RefusalNumbers.{refusal_number};

use hb_review::ReviewError;
use hb_rules::Rule;

/// Why a command is refused, in the order in which the causes are tried. Nothing but time changes
/// at a refusal.
#[derive(Clone, Copy, PartialEq, Eq, Debug)]
pub enum Refusal {
    /// 1: the table is below the latest, which is named.
    OldTable(u32),
    /// 2: the number is kept with another command.
    NumberReused,
    /// 3: the member has too many kept numbers at the latest table: 512, or for a start, an act, a
    /// resume, a termination or a closing 640.
    RequestLimit,
    /// 4: the table is closed; or it is above the latest, and the command does not open the next.
    NoTable,
    /// 5: an opening of the next table or of the latest, which is open.
    TableOpen,
    /// 6, for a start, a load, a closing and the steps of a review: the member is not the host.
    NotHost,
    /// 7, for a sit, a rise, a start and a load: a game was started or loaded.
    Started,
    /// 8, for an act, a note, a pause, a resume, a termination, and a watch with a shadow: no game
    /// was started.
    NotStarted,
    /// 9, for a sit: six are seated.
    Full,
    /// 10, for a sit: the member is seated.
    AlreadySeated,
    /// 11, for a rise, an act, a note, a pause, a resume and a termination: the member is not
    /// seated.
    NotSeated,
    /// 12, for a watch: the member is seated.
    SeatedHere,
    /// 13, for a sit: the member watches.
    WatchingHere,
    /// 14, for a leave: the member does not watch.
    NotWatching,
    /// 15, for a watch of one who does not watch yet: there are 32 watchers.
    Crowded,
    /// 16, for a start: fewer than two are seated.
    TooFew,
    /// 17, for a step of a review: no game has ended or is loaded; for a closing: a game runs.
    NotFinished,
    /// 18, for a closing: the game that ended is not kept yet.
    Unsaved,
    /// 19, for a start and a load: a load is pending.
    Loading,
    /// 20, for a note: its text has more than 512 bytes.
    NoteTooLong,
    /// 21, for a note: the deck has no card with this order.
    NoSuchCard,
    /// 22, for an act: the clock is paused; for a pause: the game is untimed, paused or over; for a
    /// resume: the clock is not paused.
    TimerState,
    /// 23, for an act and a termination: it breaks a rule of the game, the first of which is named;
    /// for a note: the game is over; for a watch: the shadow is no seat.
    Rule(Rule),
    /// 24, for a step of a review: the review refuses it for this cause.
    Review(ReviewError),
}

impl Refusal {
    /// The number of the refusal, 1 to 24.
    pub fn number(self) -> u8
        ensures { result ≡ refusal_number self }
    {
        match self {
            Refusal::OldTable(_) => 1,
            Refusal::NumberReused => 2,
            Refusal::RequestLimit => 3,
            Refusal::NoTable => 4,
            Refusal::TableOpen => 5,
            Refusal::NotHost => 6,
            Refusal::Started => 7,
            Refusal::NotStarted => 8,
            Refusal::Full => 9,
            Refusal::AlreadySeated => 10,
            Refusal::NotSeated => 11,
            Refusal::SeatedHere => 12,
            Refusal::WatchingHere => 13,
            Refusal::NotWatching => 14,
            Refusal::Crowded => 15,
            Refusal::TooFew => 16,
            Refusal::NotFinished => 17,
            Refusal::Unsaved => 18,
            Refusal::Loading => 19,
            Refusal::NoteTooLong => 20,
            Refusal::NoSuchCard => 21,
            Refusal::TimerState => 22,
            Refusal::Rule(_) => 23,
            Refusal::Review(_) => 24,
        }
    }
}

/// What a room replies to a member.
#[derive(Clone, Copy, PartialEq, Eq, Debug)]
pub enum Reply {
    /// It is done.
    Done,
    /// It is refused.
    Refused(Refusal),
}
