//! Where does a field of a line end, and which number is it?

ghost use Rattle.std.specs.Prelude.{◌≡◌, ◌≤◌, ◌^◌, length};
ghost use Rattle.hb_script.specs.ScriptLines.{digits as digits_of, is_padded as is_padded_word, number_of, within};
ghost use Rattle.hb_script.specs.ScriptReading.{place_of};

/// The place of the first byte of a kind, or the number of bytes if there is none.
pub fn place(bytes: &[u8], wanted: u8) -> usize
    ensures is { result ≡ place_of wanted bytes.now }
    ensures within { result ≤ length bytes.now }
{
    let mut at = 0;
    while at < bytes.len() {
        if bytes[at] == wanted {
            return at;
        }
        at += 1;
    }
    at
}

/// The number that decimal digits write, if it is at most `most`. No digits write 0.
fn digits(bytes: &[u8], most: u64) -> Option<u64>
    requires { most ≤ 2 ^ 53 }
    ensures { result ≡ within 0 most (digits_of 0 bytes.now) }
{
    let mut value: u64 = 0;
    for byte in bytes {
        if !byte.is_ascii_digit() {
            return None;
        }
        value = value * 10 + u64::from(*byte - b'0');
        if value > most {
            return None;
        }
    }
    Some(value)
}

/// Whether the word is empty, or begins with a zero that is not the whole of it.
fn is_padded(bytes: &[u8]) -> bool
    ensures { result ≡ is_padded_word bytes.now }
{
    match bytes {
        [] => true,
        [_] => false,
        [first, ..] => *first == b'0',
    }
}

/// The number that a word is, if it is at most `most`.
pub fn number(word: &[u8], most: u64) -> Option<u64>
    requires { most ≤ 2 ^ 53 }
    ensures { result ≡ within 0 most (number_of word.now) }
{
    if is_padded(word) {
        None
    } else {
        digits(word, most)
    }
}
