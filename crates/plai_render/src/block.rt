ghost use Rattle.std.specs.Prelude.{◌≡◌, ◌∷◌, [], ◌++◌, All, IfOk, OnOk, OnErr, codes, decimal, map, flat_map};
ghost use Rattle.plai_render.specs.Block.{pred_text, row_text, lines_text, block_text};
ghost use Rattle.plai_render.specs.Order.{IsNarrow};
ghost use Rattle.plai_render.specs.Texts.{text_of};

use crate::checked::write_checks;
use crate::text_row::TextRow;
use itoa::Buffer;
use plai_assert::Verdict;
use plai_clauses::Check;
use plai_terms::{Listed, PlainRow, PredKey, print_name};
use std::alloc::{AllocError, Global};

// A part of the text may have been appended after want of memory in the calls that begin with `write_`.

fn write_pred(alloc: Global, pred: &PredKey, out: &mut Vec<u8>) -> Result<(), AllocError>
    ensures { OnOk result (out.new.items ≡ out.old.items ++ pred_text pred.now) }
{
    print_name(alloc, &pred.module, out)?;
    out.push(b':')?;
    print_name(alloc, &pred.name, out)?;
    out.push(b'/')?;
    let mut buffer = Buffer::new();
    out.extend_from_slice(buffer.format(pred.arity).as_bytes())
}

fn write_field(label: &[u8], text: &Listed<u8>, out: &mut Vec<u8>) -> Result<(), AllocError>
    ensures { OnOk result (out.new.items ≡ out.old.items ++ label.now ++ text.now) }
{
    out.extend_from_slice(label)?;
    out.extend_from_slice(text.as_slice())
}

fn write_row(alloc: Global, row: &TextRow, out: &mut Vec<u8>) -> Result<(), AllocError>
    ensures { OnOk result (out.new.items ≡ out.old.items ++ row_text row.now) }
{
    out.extend_from_slice(b"row ")?;
    write_pred(alloc, &row.pred, out)?;
    write_field(b" call ", &row.call, out)?;
    write_field(b" answer ", &row.answer, out)?;
    out.push(b'\n')?;
    Ok(())
}

fn write_rows(alloc: Global, rows: &[TextRow], out: &mut Vec<u8>) -> Result<(), AllocError>
    ensures { OnOk result (out.new.items ≡ out.old.items ++ flat_map row_text rows.now) }
{
    for row in rows {
        write_row(alloc, row, out)?;
    }
    Ok(())
}

pub(crate) fn write_head(number: u64, out: &mut Vec<u8>) -> Result<(), AllocError>
    ensures { OnOk result (out.new.items ≡ out.old.items ++ codes "edit " ++ decimal number ++ 10 ∷ []) }
{
    out.extend_from_slice(b"edit ")?;
    let mut buffer = Buffer::new();
    out.extend_from_slice(buffer.format(number).as_bytes())?;
    out.push(b'\n')?;
    Ok(())
}

/// Appends the block of a table that is given as text: the line `edit K` with the number K, a line
/// `row M:P/A call C answer R` for each row, in the order given, a line `check M N V` for each assertion with its verdict,
/// numbered from 1 within its module, and the line `end`.
///
/// After want of memory `out` is as before.
pub fn render_texts(
    alloc: Global,
    number: u64,
    rows: &[TextRow],
    checks: &[Check],
    verdicts: &[Verdict],
    out: &mut Vec<u8>,
) -> Result<(), AllocError>
    ensures ok { OnOk result (out.new.items ≡ out.old.items ++ lines_text number rows.now checks.now verdicts.now) }
    ensures err { OnErr result (out.new.items ≡ out.old.items) }
{
    let mut text = Vec::new(alloc);
    write_head(number, &mut text)?;
    write_rows(alloc, rows, &mut text)?;
    write_checks(alloc, checks, verdicts, &mut text)?;
    text.extend_from_slice(b"end\n")?;
    out.extend_from_slice(&text)
}

/// The rows as text.
fn texts(alloc: Global, rows: &[PlainRow]) -> Result<Vec<TextRow>, AllocError>
    requires { All IsNarrow rows.now }
    ensures { IfOk result (λ texts. texts.items ≡ map text_of rows.now) }
{
    let mut texts = Vec::with_capacity(alloc, rows.len())?;
    for row in rows {
        texts.push(TextRow::of(alloc, row)?)?;
    }
    Ok(texts)
}

/// Appends the block of a table: the line `edit K` with the number K, a line `row M:P/A call C answer R`
/// for each row, in the order given, a line `check M N V` for each assertion with its verdict, and the line `end`. Arguments
/// are numbered from 1, and so are assertions, within their modules.
///
/// After want of memory `out` is as before.
pub fn render_table(
    alloc: Global,
    number: u64,
    rows: &[PlainRow],
    checks: &[Check],
    verdicts: &[Verdict],
    out: &mut Vec<u8>,
) -> Result<(), AllocError>
    requires { All IsNarrow rows.now }
    ensures ok { OnOk result (out.new.items ≡ out.old.items ++ block_text number rows.now checks.now verdicts.now) }
    ensures err { OnErr result (out.new.items ≡ out.old.items) }
{
    let texts = texts(alloc, rows)?;
    render_texts(alloc, number, texts.as_slice(), checks, verdicts, out)
}
