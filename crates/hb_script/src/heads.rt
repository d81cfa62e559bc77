//! Which seed and which deck are the first lines?

ghost use Rattle.std.specs.Prelude.{◌≡◌, IfOk, Some, option_copied};
ghost use Rattle.hb_script.specs.ScriptGrammar.{behind as behind_of, deck_in, deck_of, hex_byte as hex_byte_of, hex_digit as hex_digit_of, identity_of, seed_in, seed_of};

use hb_deck::Deck;
use hb_rules::{FEWEST_CARDS, HIGHEST_RANK, Identity, MOST_CARDS, MOST_SUITS};
use std::alloc::{AllocError, Global};

/// How many bytes a seed has.
const SEED: usize = 32;

/// What stands behind a word with which a text begins; none if it does not begin so.
fn behind<'a>(text: &'a [u8], word: &[u8]) -> Option<&'a [u8]>
    ensures { option_copied result ≡ behind_of word.now text.now }
{
    if text.len() >= word.len() && &text[..word.len()] == word {
        Some(&text[word.len()..])
    } else {
        None
    }
}

/// The value of a hexadecimal digit in lower case.
fn hex_digit(b: u8) -> Option<u8>
    ensures { result ≡ hex_digit_of b }
{
    match b {
        b'0'..=b'9' => Some(b - b'0'),
        b'a'..=b'f' => Some(b - 87),
        _ => None,
    }
}

/// The byte that two digits write, the higher one first.
fn hex_byte(a: u8, b: u8) -> Option<u8>
    ensures { result ≡ hex_byte_of a b }
{
    match (hex_digit(a), hex_digit(b)) {
        (Some(high), Some(low)) => Some(16 * high + low),
        _ => None,
    }
}

/// The seed that digits write; none if they do not write 32 bytes.
fn seed_by(digits: &[u8]) -> Option<[u8; SEED]>
    ensures { result ≡ seed_in (Some digits.now) }
{
    if digits.len() != 2 * SEED {
        return None;
    }
    let mut bytes = [0; SEED];
    for place in 0..SEED {
        match hex_byte(digits[2 * place], digits[2 * place + 1]) {
            Some(byte) => bytes[place] = byte,
            None => return None,
        }
    }
    Some(bytes)
}

/// The seed of a line; none if it is not the line of a seed.
pub fn seed(text: &[u8]) -> Option<[u8; SEED]>
    ensures { result ≡ seed_of text.now }
{
    match behind(text, b"seed ".as_slice()) {
        Some(digits) => seed_by(digits),
        None => None,
    }
}

/// The identity of a letter and a digit.
fn identity(letter: u8, digit: u8) -> Option<Identity>
    ensures { result ≡ identity_of letter digit }
{
    let is_suit = letter >= b'a' && letter <= 96 + MOST_SUITS as u8;
    if is_suit && digit >= b'1' && digit <= b'0' + HIGHEST_RANK {
        Some(Identity {
            suit: letter - b'a',
            rank: digit - b'0',
        })
    } else {
        None
    }
}

/// The deck that letters and digits write; none if they do not write 25 to 60 cards.
fn deck_by(alloc: Global, letters: &[u8]) -> Result<Option<Deck>, AllocError>
    ensures { IfOk result (λ deck. deck ≡ deck_in (Some letters.now)) }
{
    let count = letters.len() / 2;
    if letters.len() % 2 != 0 || count < FEWEST_CARDS || count > MOST_CARDS {
        return Ok(None);
    }
    let mut cards = Vec::new(alloc);
    for place in 0..count {
        match identity(letters[2 * place], letters[2 * place + 1]) {
            Some(id) => cards.push(id)?,
            None => return Ok(None),
        }
    }
    Ok(Some(Deck::from(cards)))
}

/// The deck of a line; none if it is not the line of a deck. The error comes only if memory is
/// refused.
pub fn deck(alloc: Global, text: &[u8]) -> Result<Option<Deck>, AllocError>
    ensures { IfOk result (λ deck. deck ≡ deck_of text.now) }
{
    match behind(text, b"deck ".as_slice()) {
        Some(letters) => deck_by(alloc, letters),
        None => Ok(None),
    }
}
