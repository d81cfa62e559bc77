//! How is a line appended?

ghost use Rattle.std.specs.Prelude.{◌≡◌, ◌++◌, codes, OnErr, OnOk};
ghost use Rattle.hb_game_lines.specs.Begins.{BeginsWith};

use hb_io::Bytes;
use std::alloc::AllocError;

/// Appends a line and its line feed.
pub fn push_line(out: &mut Bytes, line: &str) -> Result<(), AllocError>
    ensures written { OnOk result (out.new ≡ out.old ++ (line.now ++ codes "\n")) }
    ensures kept { OnErr result (BeginsWith out.new out.old) }
{
    out.extend(line.as_bytes())?;
    out.extend(b"\n")
}
