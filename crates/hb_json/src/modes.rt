//! What does an object of options say, and is it in range?

ghost use Rattle.std.specs.Prelude.{◌≡◌, IfOk, MatchResult, Ok, Err};
ghost use Rattle.serde_json.specs.View.{view};
ghost use Rattle.hb_json.specs.JsonReading.{whole_of};
ghost use Rattle.hb_json.specs.WrittenModes.{AreModes, fault_key, flag_in, modes_fault, modes_in, option_in, options_with, starting_in, unless_fault, variant_in};

use crate::option_keys::OptionKey;
use crate::reading::present;
use hb_rules::{DEFAULT_BASE_SECONDS, DEFAULT_TURN_SECONDS, MOST_SECONDS, Options};
use serde_json::Value;

/// The variant of a game that names none (after Hanabi Live).
const DEFAULT_VARIANT: &str = "No Variant";

/// The options of a game, except the variant and the starting player, as an object says them: each
/// has its type, and its default if it is absent, and the ranges are not checked yet.
#[derive(Clone, Copy, Debug, PartialEq, Eq)]
pub struct WrittenModes {
    /// `emptyClues`.
    pub empty_clues: bool,
    /// `oneExtraCard`.
    pub extra_card: bool,
    /// `oneLessCard`.
    pub less_card: bool,
    /// `timed`.
    pub timed: bool,
    /// `timeBase`, in seconds.
    pub base_s: u64,
    /// `timePerTurn`, in seconds.
    pub per_turn_s: u64,
}

/// Why modes are refused. The faults are tried in the order in which they stand here.
#[derive(Clone, Copy, Debug, PartialEq, Eq)]
pub enum OptionFault {
    /// `oneLessCard` is true beside `oneExtraCard`.
    OneLessCard,
    /// `timed` is true, and `timeBase` is above 1,000,000 seconds.
    TimeBase,
    /// `timed` is true, and `timePerTurn` is above 1,000,000 seconds.
    TimePerTurn,
}

impl OptionFault {
    /// The option that is refused.
    pub fn key(self) -> OptionKey
        ensures { result ≡ fault_key self }
    {
        match self {
            OptionFault::OneLessCard => OptionKey::OneLessCard,
            OptionFault::TimeBase => OptionKey::TimeBase,
            OptionFault::TimePerTurn => OptionKey::TimePerTurn,
        }
    }
}

/// The variant's name that the object says. The error is `variant` if it is no text.
pub fn variant_option(value: &Value) -> Result<&str, OptionKey>
    ensures { MatchResult result
        (λ name. variant_in (view value.now) ≡ Ok name.now)
        (λ key. variant_in (view value.now) ≡ Err key) }
{
    match present(value.get(OptionKey::Variant.name())) {
        None => Ok(DEFAULT_VARIANT),
        Some(found) => found.as_str().ok_or(OptionKey::Variant),
    }
}

/// The starting player that the object says. The error is `startingPlayer` if it is no whole
/// number.
pub fn starting_option(value: &Value) -> Result<u64, OptionKey>
    ensures { result ≡ starting_in (view value.now) }
{
    whole_option(value, OptionKey::StartingPlayer, 0)
}

/// An option that is a whole number.
fn whole_option(value: &Value, key: OptionKey, default: u64) -> Result<u64, OptionKey>
    ensures { result ≡ option_in whole_of key default (view value.now) }
{
    match present(value.get(key.name())) {
        None => Ok(default),
        Some(found) => found.as_u64().ok_or(key),
    }
}

/// An option that is true or false, and false by default.
fn flag_option(value: &Value, key: OptionKey) -> Result<bool, OptionKey>
    ensures { result ≡ flag_in key (view value.now) }
{
    match present(value.get(key.name())) {
        None => Ok(false),
        Some(found) => found.as_bool().ok_or(key),
    }
}

impl WrittenModes {
    /// The modes that the object says, or the first option that has not its type.
    pub fn read(value: &Value) -> Result<Self, OptionKey>
        ensures { result ≡ modes_in (view value.now) }
    {
        let empty_clues = flag_option(value, OptionKey::EmptyClues)?;
        let extra_card = flag_option(value, OptionKey::OneExtraCard)?;
        let less_card = flag_option(value, OptionKey::OneLessCard)?;
        let timed = flag_option(value, OptionKey::Timed)?;
        let base_s = whole_option(value, OptionKey::TimeBase, u64::from(DEFAULT_BASE_SECONDS))?;
        let per_turn_s = whole_option(
            value,
            OptionKey::TimePerTurn,
            u64::from(DEFAULT_TURN_SECONDS),
        )?;
        Ok(WrittenModes {
            empty_clues,
            extra_card,
            less_card,
            timed,
            base_s,
            per_turn_s,
        })
    }

    /// The options of a game with these modes in which a seat has the first turn, or the first mode
    /// that is out of its range. The times of a game that is not timed are ignored, and its options
    /// hold the default ones.
    pub fn options(self, starting: u8) -> Result<Options, OptionFault>
        ensures found { result ≡ unless_fault (modes_fault self) (options_with starting self) }
        ensures in_range { IfOk result AreModes }
    {
        if self.extra_card && self.less_card {
            return Err(OptionFault::OneLessCard);
        }
        if self.timed && self.base_s > u64::from(MOST_SECONDS) {
            return Err(OptionFault::TimeBase);
        }
        if self.timed && self.per_turn_s > u64::from(MOST_SECONDS) {
            return Err(OptionFault::TimePerTurn);
        }
        Ok(Options {
            starting,
            empty_clues: self.empty_clues,
            extra_card: self.extra_card,
            less_card: self.less_card,
            timed: self.timed,
            base_s: if self.timed {
                self.base_s as u32
            } else {
                DEFAULT_BASE_SECONDS
            },
            per_turn_s: if self.timed {
                self.per_turn_s as u32
            } else {
                DEFAULT_TURN_SECONDS
            },
        })
    }
}
