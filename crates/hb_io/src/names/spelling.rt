//! Which texts are names?

ghost use Rattle.std.specs.Prelude.{◌≡◌, ◌↔◌, IsTrue, IsSome, IfSome};
ghost use Rattle.hb_io.specs.NameSpelling.{IsName, IsNameByte};

use super::{NAME_LIMIT, Name};

fn is_name_byte(byte: u8) -> bool
    ensures { IsTrue result ↔ IsNameByte byte }
{
    byte.is_ascii_alphanumeric() || byte == b'_' || byte == b'-'
}

/// The name that a text spells, or `None` if the text is no name.
pub fn name(text: &str) -> Option<Name>
    ensures valid { IsSome result ↔ IsName text.now }
    ensures value { IfSome result (λ name. name ≡ text.now) }
{
    let spelled = text.as_bytes();
    if spelled.is_empty() || spelled.len() > NAME_LIMIT {
        return None;
    }
    if !spelled.iter().all(|&byte| is_name_byte(byte)) {
        return None;
    }
    let mut bytes = [0; NAME_LIMIT];
    bytes[..spelled.len()].copy_from_slice(spelled);
    Some(Name {
        bytes,
        len: spelled.len() as u8,
    })
}
