ghost use Rattle.std.specs.Prelude.{◌≡◌, ◌++◌, OnOk, OnErr};
ghost use Rattle.plai_render.specs.Stopped.{limit_text, stopped_text};

use crate::block::write_head;
use itoa::Buffer;
use std::alloc::{AllocError, Global};

/// Appends the limit. A part may have been appended after want of memory.
fn write_limit(rows: Option<u64>, out: &mut Vec<u8>) -> Result<(), AllocError>
    ensures { OnOk result (out.new.items ≡ out.old.items ++ limit_text rows) }
{
    match rows {
        Some(rows) => {
            out.extend_from_slice(b"rows ")?;
            let mut buffer = Buffer::new();
            out.extend_from_slice(buffer.format(rows).as_bytes())
        }
        None => out.extend_from_slice(b"groups 65536"),
    }
}

/// Appends the block of an analysis that met a limit: the line `edit K` with the number K, the line
/// `stopped rows R` with the limit of rows, or `stopped groups 65536` where there is none, and the line `end`.
///
/// After want of memory `out` is as before.
pub fn render_stopped(
    alloc: Global,
    number: u64,
    rows: Option<u64>,
    out: &mut Vec<u8>,
) -> Result<(), AllocError>
    ensures ok { OnOk result (out.new.items ≡ out.old.items ++ stopped_text number rows) }
    ensures err { OnErr result (out.new.items ≡ out.old.items) }
{
    let mut text = Vec::new(alloc);
    write_head(number, &mut text)?;
    text.extend_from_slice(b"stopped ")?;
    write_limit(rows, &mut text)?;
    text.extend_from_slice(b"\nend\n")?;
    out.extend_from_slice(&text)
}
