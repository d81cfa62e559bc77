//! How is the text of a line appended?

ghost use Rattle.std.specs.Prelude.{◌≡◌, [], ◌∷◌, ◌++◌, OnOk};
ghost use Rattle.hb_wire.specs.WireLine.{line_text};

use hb_io::Texts;
use hb_wire::{WireLine, print_line};
use std::alloc::{AllocError, Global};

/// Appends the text of a line. The error comes only if memory is refused.
pub fn push_line(out: &mut Texts, alloc: Global, line: &WireLine) -> Result<(), AllocError>
    ensures { OnOk result (out.new ≡ out.old ++ line_text line.now ∷ []) }
{
    let text = print_line(alloc, line)?;
    out.push(text)
}
