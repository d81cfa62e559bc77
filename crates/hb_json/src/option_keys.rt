//! Which options of a game are understood, and how is each of them named?

ghost use Rattle.std.specs.Prelude.{◌≡◌, option_map, true};
ghost use Rattle.serde_json.specs.Find.{as_bool};
ghost use Rattle.serde_json.specs.View.{view, members_view};
ghost use Rattle.hb_json.specs.OptionKey.{first_other as first_other_of, is_true as is_true_of, is_understood as is_understood_name, option_name};

use serde_json::{Map, Value};

/// An option of a game that this server understands (after Hanabi Live). An option that is absent
/// or null has its default.
#[derive(Clone, Copy, Debug, PartialEq, Eq)]
pub enum OptionKey {
    /// `variant`: a text, the name of the variant; `No Variant` by default.
    Variant,
    /// `startingPlayer`: a whole number, the seat that has the first turn; 0 by default.
    StartingPlayer,
    /// `emptyClues`: true or false, a clue may touch no card; false by default.
    EmptyClues,
    /// `oneExtraCard`: true or false, each hand has one card more; false by default.
    OneExtraCard,
    /// `oneLessCard`: true or false, each hand has one card less; false by default. Not both card
    /// options are true.
    OneLessCard,
    /// `timed`: true or false, the game is timed; false by default.
    Timed,
    /// `timeBase`: a whole number, the seconds that each seat has at the start; 120 by default, and
    /// at most 1,000,000 if the game is timed. It is ignored if the game is not timed.
    TimeBase,
    /// `timePerTurn`: a whole number, the seconds that a seat gains by each turn that it ends; 20
    /// by default, else as `timeBase`.
    TimePerTurn,
}

impl OptionKey {
    /// All of them, in the order in which their types are checked.
    pub const ALL: [OptionKey; 8] = [
        OptionKey::Variant,
        OptionKey::StartingPlayer,
        OptionKey::EmptyClues,
        OptionKey::OneExtraCard,
        OptionKey::OneLessCard,
        OptionKey::Timed,
        OptionKey::TimeBase,
        OptionKey::TimePerTurn,
    ];

    /// The option's name in a JSON object. Each option is found by its name.
    pub fn name(self) -> &'static str
        ensures name { result.now ≡ option_name self }
        ensures understood { is_understood_name result.now ≡ true }
    {
        match self {
            OptionKey::Variant => "variant",
            OptionKey::StartingPlayer => "startingPlayer",
            OptionKey::EmptyClues => "emptyClues",
            OptionKey::OneExtraCard => "oneExtraCard",
            OptionKey::OneLessCard => "oneLessCard",
            OptionKey::Timed => "timed",
            OptionKey::TimeBase => "timeBase",
            OptionKey::TimePerTurn => "timePerTurn",
        }
    }
}

/// Whether some option has this name.
fn is_understood(name: &str) -> bool
    ensures { result ≡ is_understood_name name.now }
{
    OptionKey::ALL.iter().copied().any(|key| key.name() == name)
}

/// Whether a value is true.
fn is_true(value: &Value) -> bool
    ensures { result ≡ is_true_of (as_bool (view value.now)) }
{
    value.as_bool().unwrap_or(false)
}

/// The name of the first member, in byte order, that is true and is no option that is understood.
/// An unknown option with any other value changes nothing, and one that is true asks for a game
/// that this server does not have.
pub fn first_other(members: &Map<String, Value>) -> Option<&str>
    ensures { option_map (λ name. name.now) result
        ≡ first_other_of (members_view members.now.entries) }
{
    for (name, value) in members.iter() {
        if !is_understood(name.as_str()) && is_true(value) {
            return Some(name.as_str());
        }
    }
    None
}
