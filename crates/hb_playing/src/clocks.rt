//! What does a room read of the clock of its table, and how does an item move the game and its
//! clock?

ghost use Rattle.std.specs.Prelude.{◌≡◌, ◌≤◌};
ghost use Rattle.hb_rules.specs.Setup.{by};
ghost use Rattle.hb_timer.specs.Banks.{is_running};
ghost use Rattle.hb_timer.specs.declared.timing.TheConstants.{MOMENT_LIMIT};
ghost use Rattle.hb_club.specs.TableClock.{is_halted};
ghost use Rattle.hb_playing.specs.RoomClocks.{due_by, halted_by, is_timely, lapse_items, late_by, paused_by, resumed_by, timer_after, timer_of, turned_by};
ghost use Rattle.hb_playing.specs.Games.{game_after};

use crate::games::{is_ended, take};
use hb_club::{Item, What};
use hb_rules::{Act, Action, EndHow};
use hb_timer::{MOMENT_LIMIT, Timer, TimerState};
use hb_turns::Game;

/// The time of a seat is used up since a moment.
#[derive(Clone, Copy, PartialEq, Eq, Debug)]
pub struct Lapse {
    pub seat: u8,
    pub moment: u64,
}

impl Lapse {
    /// The act by which the seat then ends the game.
    pub fn act(self) -> Act
        ensures { result ≡ by self.seat (Action.End EndHow.Timeout) }
    {
        Act {
            who: self.seat,
            action: Action::End {
                how: EndHow::Timeout,
            },
        }
    }
}

fn runs(timer: &Timer) -> bool
    ensures { result ≡ is_running timer.now.calls }
{
    matches!(timer.state(), TimerState::Runs(_))
}

fn halts(timer: &Timer) -> bool
    ensures { result ≡ is_halted timer.now.calls }
{
    matches!(timer.state(), TimerState::Paused(_))
}

/// Whether there is a timer, and it stands still and can run again.
pub fn is_paused(timer: &Option<Timer>) -> bool
    ensures { result ≡ paused_by timer.now }
{
    match timer {
        Some(timer) => halts(timer),
        None => false,
    }
}

/// Whether a moment is in range, and not past the deadline.
fn is_in_time(timer: &Timer, moment: u64) -> bool
    ensures { result ≡ is_timely moment timer.now }
{
    let is_by = match timer.deadline() {
        Some(end) => moment <= end,
        None => true,
    };
    is_by && moment <= MOMENT_LIMIT
}

/// The seat whose time is used up at a moment, and since when: time adds its end of the game to the
/// table.
pub fn due(timer: &Option<Timer>, moment: u64) -> Option<Lapse>
    ensures lapse { result ≡ due_by timer.now moment }
    ensures items { lapse_items result ≡ late_by timer.now moment }
{
    match timer {
        Some(timer) => match (timer.state(), timer.deadline()) {
            (TimerState::Runs(seat), Some(end)) => {
                if end <= moment {
                    Some(Lapse { seat, moment: end })
                } else {
                    None
                }
            }
            _ => None,
        },
        None => None,
    }
}

/// Ends a turn, or stops the timer if the game is over.
pub fn turn(timer: &mut Option<Timer>, is_over: bool, moment: u64)
    ensures { timer.new ≡ turned_by is_over moment timer.old }
{
    if let Some(timer) = timer {
        let is_timely = is_in_time(timer, moment);
        let is_running = runs(timer);
        let is_paused = halts(timer);
        if is_over {
            if is_timely & (is_running | is_paused) {
                timer.stop(moment);
            }
        } else if is_timely & is_running {
            timer.turn_ends(moment);
        }
    }
}

/// Stops the clock until it is resumed, if it runs.
pub fn pause(timer: &mut Option<Timer>, moment: u64)
    ensures { timer.new ≡ halted_by moment timer.old }
{
    if let Some(timer) = timer {
        if is_in_time(timer, moment) & runs(timer) {
            timer.pause(moment);
        }
    }
}

/// Lets the clock run again, if it is paused.
pub fn resume(timer: &mut Option<Timer>, moment: u64)
    ensures { timer.new ≡ resumed_by moment timer.old }
{
    if let Some(timer) = timer {
        if (moment <= MOMENT_LIMIT) & halts(timer) {
            timer.resume(moment);
        }
    }
}

/// What an item does to the game and its clock: an act is taken and ends a turn, or the game; a
/// pause and its end move the clock alone. No other item does anything.
pub fn apply(game: &mut Option<Game>, timer: &mut Option<Timer>, item: &Item)
    ensures game { game.new ≡ game_after item.now.what game.old }
    ensures timer { timer.new ≡ timer_after item.now.what item.now.moment game.new timer.old }
{
    match item.what {
        What::Acted { act } => {
            take(game, act);
            turn(timer, is_ended(game), item.moment);
        }
        What::Paused { .. } => pause(timer, item.moment),
        What::Resumed { .. } => resume(timer, item.moment),
        _ => {}
    }
}

/// The timer of a game that starts; none if the game is untimed.
pub fn timer_for(game: &Game, moment: u64) -> Option<Timer>
    requires { moment ≤ MOMENT_LIMIT }
    ensures { result ≡ timer_of game.now.setup.options.timed moment game.now }
{
    let options = game.options();
    let seats = game.players();
    if options.timed {
        let base_ms = u64::from(options.base_s) * 1000;
        let per_turn_ms = u64::from(options.per_turn_s) * 1000;
        Some(Timer::new(base_ms, per_turn_ms, seats, options.starting, moment))
    } else {
        None
    }
}
