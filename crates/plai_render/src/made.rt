//! The lines of a made program's run.
ghost use Rattle.std.specs.Prelude.{◌≡◌, ◌++◌, length, filter, codes, OnOk, OnErr};
ghost use Rattle.plai_render.specs.Made.{has_no_answer, numbers_text, limit_said, made_text, counts_text, made_stopped_text, made_refused_text};
ghost use Rattle.plai_render.specs.Refused.{edit_cause_text};

use crate::refused::{write_edit_cause, write_number};
use crate::text_row::TextRow;
use plai_clauses::EditCause;
use std::alloc::{AllocError, Global};

// A part of the text may have been appended after want of memory in the calls that begin with `write_`.

fn has_no_answer(row: &TextRow) -> bool
    ensures { result ≡ has_no_answer row.now }
{
    row.answer.as_slice() == b"none".as_slice()
}

/// How many rows have the answer `none`.
fn count_without_answer(rows: &[TextRow]) -> usize
    ensures { result ≡ length (filter has_no_answer rows.now) }
{
    let mut count = 0;
    for row in rows {
        if has_no_answer(row) {
            count += 1;
        }
    }
    count
}

fn write_numbers(rows: u64, none: u64, out: &mut Vec<u8>) -> Result<(), AllocError>
    ensures { OnOk result (out.new.items ≡ out.old.items ++ numbers_text rows none) }
{
    out.extend_from_slice(b" rows ")?;
    write_number(rows, out)?;
    out.extend_from_slice(b" none ")?;
    write_number(none, out)
}

fn write_limit(rows: Option<u64>, out: &mut Vec<u8>) -> Result<(), AllocError>
    ensures { OnOk result (out.new.items ≡ out.old.items ++ limit_said rows) }
{
    match rows {
        Some(rows) => {
            out.extend_from_slice(b" stopped rows ")?;
            write_number(rows, out)
        }
        None => out.extend_from_slice(b" stopped groups"),
    }
}

fn write_refusal(alloc: Global, cause: &EditCause, out: &mut Vec<u8>) -> Result<(), AllocError>
    ensures { OnOk result (out.new.items ≡ out.old.items ++ codes " refused " ++ edit_cause_text cause.now) }
{
    out.extend_from_slice(b" refused ")?;
    write_edit_cause(alloc, cause, out)
}

/// Appends the line of an edit, of which this is said.
fn append_line(alloc: Global, number: u64, said: &[u8], out: &mut Vec<u8>) -> Result<(), AllocError>
    ensures ok { OnOk result (out.new.items ≡ out.old.items ++ made_text number said.now) }
    ensures err { OnErr result (out.new.items ≡ out.old.items) }
{
    let mut text = Vec::from_slice(alloc, b"made ")?;
    write_number(number, &mut text)?;
    text.extend_from_slice(said)?;
    text.push(b'\n')?;
    out.extend_from_slice(&text)
}

/// Appends the line `made K rows R none B` of a table: the number K of the edit, the number of its rows, and of those whose
/// answer is `none`.
///
/// After want of memory `out` is as before.
pub fn render_counts(
    alloc: Global,
    number: u64,
    rows: &[TextRow],
    out: &mut Vec<u8>,
) -> Result<(), AllocError>
    ensures ok { OnOk result (out.new.items ≡ out.old.items ++ counts_text number rows.now) }
    ensures err { OnErr result (out.new.items ≡ out.old.items) }
{
    let mut said = Vec::new(alloc);
    write_numbers(
        rows.len() as u64,
        count_without_answer(rows) as u64,
        &mut said,
    )?;
    append_line(alloc, number, &said, out)
}

/// Appends the line of an analysis that met a limit: `made K stopped rows R` with the limit of rows, or `made K stopped groups`
/// where there is none.
///
/// After want of memory `out` is as before.
pub fn render_made_stopped(
    alloc: Global,
    number: u64,
    rows: Option<u64>,
    out: &mut Vec<u8>,
) -> Result<(), AllocError>
    ensures ok { OnOk result (out.new.items ≡ out.old.items ++ made_stopped_text number rows) }
    ensures err { OnErr result (out.new.items ≡ out.old.items) }
{
    let mut said = Vec::new(alloc);
    write_limit(rows, &mut said)?;
    append_line(alloc, number, &said, out)
}

/// Appends the line `made K refused CAUSE` of an edit that is refused, which no edit of a made program is.
///
/// After want of memory `out` is as before.
pub fn render_made_refused(
    alloc: Global,
    number: u64,
    cause: &EditCause,
    out: &mut Vec<u8>,
) -> Result<(), AllocError>
    ensures ok { OnOk result (out.new.items ≡ out.old.items ++ made_refused_text number cause.now) }
    ensures err { OnErr result (out.new.items ≡ out.old.items) }
{
    let mut said = Vec::new(alloc);
    write_refusal(alloc, cause, &mut said)?;
    append_line(alloc, number, &said, out)
}
