//! How does a line of a word and a value read?

ghost use Rattle.std.specs.Prelude.{◌≡◌, ◌≤◌, IfOk, Some, false, string_bytes};
ghost use Rattle.serde_json.specs.Data.{depth};
ghost use Rattle.serde_json.specs.Read.{max_depth, read};
ghost use Rattle.serde_json.specs.View.{view};
ghost use Rattle.serde_json.specs.Written.{compact_text, has_float};
ghost use Rattle.hb_json.specs.Line.{line};

use serde_json::Value;
use std::alloc::{AllocError, Global};

/// A word, one space and the value's compact text, which reads back as the value. A value with
/// floats has no exact text.
#[tactic(auto, unfolding(crate::specs::Line::line))]
pub fn line_text(alloc: Global, word: &str, value: &Value) -> Result<String, AllocError>
    requires { has_float (view value.now) ≡ false }
    ensures text { IfOk result (λ s. string_bytes s ≡ line word.now (view value.now)) }
    ensures reads_back { IfOk result (λ s.
        depth (view value.now) ≤ max_depth
        → read (compact_text (view value.now)) ≡ Some (view value.now)) }
{
    let text = value.to_string(alloc)?;
    format!(in alloc; "{word} {text}")
}
