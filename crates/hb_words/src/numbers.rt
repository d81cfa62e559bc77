//! Which number does a word write?

ghost use Rattle.std.specs.Prelude.{◌≡◌, ◌<◌, ◌≤◌, ◌↔◌, ◌^◌, ℕ, IfNone, IfSome, IsTrue, decimal};
ghost use Rattle.hb_words.specs.Unpadded.{IsUnpadded};

/// The bytes have neither a plus nor a zero before other digits, which `parse` both takes.
fn is_unpadded(bytes: &[u8]) -> bool
    ensures { IsTrue result ↔ IsUnpadded bytes.now }
{
    match bytes {
        [b'+', ..] | [b'0', _, ..] => false,
        _ => true,
    }
}

/// The number below 2^64 that a word writes in decimal.
pub(crate) fn number(word: &str) -> Option<u64>
    ensures found { IfSome result (λ n. (word.now ≡ decimal n) × (n < 2 ^ 64)) }
    ensures none { IfNone result ((n : ℕ) → n < 2 ^ 64 → word.now ≡ decimal n → ⊥) }
{
    match word.parse() {
        Ok(number) if is_unpadded(word.as_bytes()) => Some(number),
        _ => None,
    }
}

/// The number that a word writes in decimal, if it is at most `most`.
pub(crate) fn number_up_to(word: &str, most: u8) -> Option<u8>
    ensures found { IfSome result (λ n. (word.now ≡ decimal n) × (n ≤ most)) }
    ensures none { IfNone result ((n : ℕ) → n ≤ most → word.now ≡ decimal n → ⊥) }
{
    match number(word) {
        Some(number) if number <= u64::from(most) => Some(number as u8),
        _ => None,
    }
}
