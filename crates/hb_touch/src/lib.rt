//! Clues: which of them a variant offers, and which cards a clue touches.
//!
//! Each contract gives the exact answer of the definitions in `hb_rules`, where the touch table
//! stands row by row: `offers` says whether a variant has a clue, `touches` whether the clue
//! touches a card of an identity, and `mask` which of the variant's identities it touches, or which
//! it does not, as one set. The table is this project's own. No call takes memory.
#![tactic(auto)]

ghost use Rattle.std.specs.Prelude.{◌≡◌, ℕ, ◌≤◌, ◌==◌, ◌&&◌, IsTrue};
ghost use Rattle.hb_rules.specs.Cards.{suit_at, identity, has_number};
ghost use Rattle.hb_rules.specs.Marks.{same};
ghost use Rattle.hb_rules.specs.Touch.{colors, offers, touches, suit_kind, hides_rank, hides_special, color_touches, rank_touches, row_of};
ghost use Rattle.hb_sets.specs.Sets.{bit};

pub use hb_rules::Clue;
use hb_rules::{HIGHEST_RANK, IDENTITIES};
use hb_sets::with;
use hb_suits::{
    Identity, Kind, Special, Variant, color_suits, colors, copies, identity, kind_of, suit_at,
};

/// Whether a special rank of this kind is not clued.
fn hides_rank(kind: Kind) -> bool
    ensures { result ≡ hides_rank kind }
{
    matches!(kind, Kind::Pink | Kind::Brown | Kind::Omni | Kind::Null)
}

/// Whether no clue names the rank, since it is special and its kind does not go by rank.
fn hides_special(special: Option<Special>, rank: u8) -> bool
    ensures { result ≡ hides_special special rank }
{
    special.is_some_and(|special| special.rank == rank && hides_rank(special.kind))
}

/// Whether the variant has the clue: a colour clue names one of its clue colours by index, and a
/// rank clue a rank of 1 to 5, but not the special rank if its kind is Pink, Brown, Omni or Null
/// (this project's own).
pub fn offers(variant: &Variant, clue: Clue) -> bool
    ensures { result ≡ offers variant.now clue }
{
    match clue {
        Clue::Color(color) => color < colors(variant),
        Clue::Rank(rank) => (1..=HIGHEST_RANK).contains(&rank)
            && !hides_special(variant.special, rank),
    }
}

/// The kind of the suit at an index; if there is no suit, nothing touches.
fn kind_at(variant: &Variant, index: u8) -> Kind
    ensures { result ≡ suit_kind (suit_at variant.now index) }
{
    match suit_at(variant, index) {
        Some(suit) => kind_of(suit),
        None => Kind::Null,
    }
}

/// The row of the touch table for a card: that of the special kind if the rank is special, else
/// that of its suit's.
fn row_of(special: Option<Special>, own: Kind, rank: u8) -> Kind
    ensures { result ≡ row_of special own rank }
{
    match special {
        Some(special) if special.rank == rank => special.kind,
        _ => own,
    }
}

/// Whether a colour clue touches a card with this row of the table. `own` says that it is the
/// colour of the card's suit, and `turn` that its index is the card's rank minus one, modulo the
/// number of clue colours.
fn color_touches(row: Kind, own: bool, turn: bool) -> bool
    ensures { result ≡ color_touches row own turn }
{
    match row {
        Kind::Plain | Kind::Black | Kind::Pink | Kind::Brown => own,
        Kind::Rainbow | Kind::Omni | Kind::MuddyRainbow => true,
        Kind::White | Kind::Null | Kind::LightPink => false,
        Kind::Prism => turn,
    }
}

/// Whether an offered rank clue touches a card with this row of the table. `own` says that the rank
/// is the card's.
fn rank_touches(row: Kind, own: bool) -> bool
    ensures { result ≡ rank_touches row own }
{
    match row {
        Kind::Plain | Kind::Black | Kind::Rainbow | Kind::White | Kind::Prism => own,
        Kind::Pink | Kind::Omni | Kind::LightPink => true,
        Kind::Brown | Kind::Null | Kind::MuddyRainbow => false,
    }
}

/// `touches`, for a caller that has the variant's list of clue colours already.
fn touches_by(variant: &Variant, clue_colors: &[u8], clue: Clue, id: Identity) -> bool
    requires colors { clue_colors.now ≡ colors variant.now }
    requires offered { IsTrue (offers variant.now clue) }
    requires ranked { 1 ≤ id.rank }
    ensures { result ≡ touches variant.now clue id }
{
    let row = row_of(variant.special, kind_at(variant, id.suit), id.rank);
    match clue {
        Clue::Color(color) => {
            let index = usize::from(color);
            let turn = usize::from(id.rank - 1) % clue_colors.len();
            color_touches(row, clue_colors[index] == id.suit, index == turn)
        }
        Clue::Rank(rank) => rank_touches(row, rank == id.rank),
    }
}

/// Whether the clue touches a card of the identity, by the touch table (this project's own). The
/// variant offers the clue, and the rank is not 0.
pub fn touches(variant: &Variant, clue: Clue, id: Identity) -> bool
    requires offered { IsTrue (offers variant.now clue) }
    requires ranked { 1 ≤ id.rank }
    ensures { result ≡ touches variant.now clue id }
{
    touches_by(variant, &color_suits(variant), clue, id)
}

/// Whether the identity with a number is in the variant, and is touched or not as `touched` says.
#[tactic(auto, using(hb_rules::proofs::NumbersLemmas::has_number_low))]
fn is_in_mask(variant: &Variant, clue_colors: &[u8], clue: Clue, touched: bool, number: u8) -> bool
    requires colors { clue_colors.now ≡ colors variant.now }
    requires offered { IsTrue (offers variant.now clue) }
    ensures { result ≡ (has_number variant.now number
        && same touched (touches variant.now clue (identity number))) }
{
    let Some(id) = identity(number) else {
        return false;
    };
    copies(variant, id) > 0 && touches_by(variant, clue_colors, clue, id) == touched
}

/// The set of the variant's identities that the clue touches, or with `touched` false of those that
/// it does not touch: bit `n` stands for the identity with number `n`. The variant offers the clue.
#[tactic(auto, using(hb_rules::proofs::NumbersLemmas::has_number_low))]
pub fn mask(variant: &Variant, clue: Clue, touched: bool) -> u64
    requires { IsTrue (offers variant.now clue) }
    ensures { (n : ℕ) → (bit result n == 1)
        ≡ (has_number variant.now n && same touched (touches variant.now clue (identity n))) }
{
    let clue_colors = color_suits(variant);
    let mut set = 0;
    for number in 0..IDENTITIES as u8 {
        if is_in_mask(variant, &clue_colors, clue, touched, number) {
            set = with(set, number);
        }
    }
    set
}
