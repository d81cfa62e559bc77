//! Which suits, clues and decks do worked names and lists stand for?

use hb_deck::{Deck, all_cards, is_deck, shuffled};
use hb_suits::{
    Identity, Kind, Suit, VariantError, color_suits, colors, copies, deck_size, identities,
    identity, in_range, kind_of, number, suit_at, suit_count, variant,
};
use hb_touch::{Clue, mask, offers, touches};
use std::test::Fail;

#[test]
fn names_stand_for_their_suits(rt: HostRuntime) -> Result<(), Fail> {
    for (name, count, last) in [
        ("3 Suits", 3, Suit::Green),
        ("4 Suits", 4, Suit::Blue),
        ("Muddy Rainbow (5 Suits)", 5, Suit::MuddyRainbow),
        ("Light Pink (6 Suits)", 6, Suit::LightPink),
        ("=Red+Green+Rainbow+Pink", 4, Suit::Pink),
        ("=Light Pink+Muddy Rainbow+Teal", 3, Suit::Teal),
    ] {
        let found = variant(name)?;
        let suits = suit_count(&found);
        assert!(rt;
            suits == count && suit_at(&found, suits - 1) == Some(last),
            "{name}"
        );
    }
    Ok(())
}

#[test]
fn names_are_refused_with_their_cause(rt: HostRuntime) {
    for (name, error) in [
        ("=Red+Red+Green", VariantError::BadSpelling),
        ("=Red+Green", VariantError::BadSpelling),
        ("=White+Null+Omni", VariantError::BadSpelling),
        (
            "=Red+Green+Blue+Yellow+Purple+Teal+Pink",
            VariantError::BadSpelling,
        ),
        ("=Red+Green+blue", VariantError::BadSpelling),
        ("no variant", VariantError::Unknown),
        ("Red (5 Suits)", VariantError::Unknown),
        (" =Red+Green+Blue", VariantError::Unknown),
    ] {
        assert!(rt; variant(name) == Err(error), "{name}");
    }
}

#[test]
fn suits_have_colors(rt: HostRuntime) -> Result<(), Fail> {
    let spelled = variant("=Red+Green+Rainbow+Pink")?;
    assert!(rt; colors(&spelled) == 3 && kind_of(Suit::Teal) == Kind::Plain);
    assert!(rt; color_suits(&spelled).as_slice() == [0, 1, 3].as_slice());
    Ok(())
}

#[test]
fn numbers_name_identities(rt: HostRuntime) {
    let id = Identity { suit: 2, rank: 5 };
    assert!(rt; in_range(id) && number(id) == 14);
    assert!(rt; identity(14) == Some(id) && identity(30).is_none());
}

#[test]
fn a_black_suit_has_one_copy_of_each_rank(rt: HostRuntime) -> Result<(), Fail> {
    let black = variant("=Red+Green+Black")?;
    assert!(rt; deck_size(&black) == 25 && identities(&black) == (1 << 15) - 1);
    let [one, five] = [1, 5].map(|rank| Identity { suit: 2, rank });
    assert!(rt; copies(&black, one) == 1 && copies(&black, five) == 1);
    Ok(())
}

/// The set is written by suits from the last one down, and in a suit from rank 5 down.
#[test]
fn a_special_rank_is_not_clued(rt: HostRuntime) -> Result<(), Fail> {
    let pink = variant("Pink-Ones (5 Suits)")?;
    let two = Clue::Rank(2);
    assert!(rt; !offers(&pink, Clue::Rank(1)) && offers(&pink, two));
    assert!(rt; touches(&pink, two, Identity { suit: 0, rank: 1 }));
    assert!(rt; mask(&pink, two, false) == 0b11100_11100_11100_11100_11100);
    Ok(())
}

#[test]
fn all_cards_are_a_deck_of_their_variant(rt: HostRuntime) -> Result<(), Fail> {
    let plain = variant("No Variant")?;
    let cards = all_cards(rt.alloc(), &plain)?;
    assert!(rt; is_deck(&plain, &cards) && !is_deck(&variant("6 Suits")?, &cards));
    Ok(())
}

#[test]
fn a_shuffle_goes_by_its_stream(rt: HostRuntime) -> Result<(), Fail> {
    let six = variant("Black (6 Suits)")?;
    let first = shuffled(rt.alloc(), &six, &[7; 32], 3)?;
    let other = Deck::from(shuffled(rt.alloc(), &six, &[7; 32], 4)?.into_vec());
    assert!(rt; is_deck(&six, first.as_slice()) && first.as_slice() != other.as_slice());
    Ok(())
}
