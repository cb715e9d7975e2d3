//! The rows of a table as text.
ghost use Rattle.std.specs.Prelude.{◌≡◌, ◌≤◌, All, map, unwrap_or, IfOk, IfSome};
ghost use Rattle.std.specs.Option.{option_map};
ghost use Rattle.plai_terms.specs.declared.abs.Abs.TheVariants.{Nothing};
ghost use Rattle.plai_terms.specs.Pattern.{pattern_text};
ghost use Rattle.plai_domain.specs.Conditions.{IsSmallValue};
ghost use Rattle.plai_assert.specs.Rows.{plain};
ghost use Rattle.plai_render.specs.Texts.{text_of, AreTextsOf};
ghost use Rattle.plai_analysis.specs.Output.{plain_row, AreFit, IsShown};

use plai_assert::Row;
use plai_domain::Domain;
use plai_render::TextRow;
use plai_table::Table;
use plai_terms::Listed;
use std::alloc::{AllocError, Global};

/// The rows of the table.
pub(crate) fn rows_of<'a, D: Domain>(
    alloc: Global,
    _domain: &D,
    table: &'a Table<D::Value>,
) -> Result<Vec<Row<'a, D::Value>>, AllocError>
    requires { AreFit D.value_of (D.plain _domain.now) table.now.rows }
    ensures rows { IfOk result (λ rows. map (plain D.value_of) rows.items ≡ map (plain_row D.value_of) table.now.rows) }
    ensures shown { IfOk result (λ rows. All (IsShown D.value_of (D.plain _domain.now)) rows.items) }
{
    let mut rows = Vec::with_capacity(alloc, table.len() as usize)?;
    for number in 0..table.len() {
        let row = table.row(number);
        rows.push(Row {
            name: row.name,
            answer: row.answer,
        })?;
    }
    Ok(rows)
}

/// The text of a value.
fn value_text<D: Domain>(
    alloc: Global,
    domain: &D,
    value: &D::Value,
) -> Result<Listed<u8>, AllocError>
    requires { IsSmallValue (D.plain domain.now) (D.value_of value.now) }
    ensures { IfOk result (λ text. text ≡ pattern_text (D.value_of value.now)) }
{
    let mut text = Vec::new(alloc);
    domain.print(alloc, value, &mut text)?;
    Ok(Listed::new(text))
}

/// The text of an answer, `none` where there is none.
fn answer_text<D: Domain>(
    alloc: Global,
    domain: &D,
    answer: Option<&D::Value>,
) -> Result<Listed<u8>, AllocError>
    requires { IfSome answer (λ value. IsSmallValue (D.plain domain.now) (D.value_of value.now)) }
    ensures { IfOk result (λ text. text ≡ pattern_text (unwrap_or (option_map (λ value. D.value_of value.now) answer.entry) Nothing)) }
{
    match answer {
        Some(value) => value_text(alloc, domain, value),
        None => {
            let text = Vec::from_slice(alloc, b"none")?;
            Ok(Listed::new(text))
        }
    }
}

/// The row as text.
fn text_row<D: Domain>(
    alloc: Global,
    domain: &D,
    row: &Row<'_, D::Value>,
) -> Result<TextRow, AllocError>
    requires { IsShown D.value_of (D.plain domain.now) row.now }
    ensures { IfOk result (λ text. text ≡ text_of (plain D.value_of row.now)) }
{
    Ok(TextRow {
        pred: row.name.pred.copy(alloc)?,
        call: value_text(alloc, domain, &row.name.call)?,
        answer: answer_text(alloc, domain, row.answer)?,
    })
}

/// The rows as text.
pub(crate) fn text_rows<D: Domain>(
    alloc: Global,
    domain: &D,
    rows: &[Row<'_, D::Value>],
) -> Result<Vec<TextRow>, AllocError>
    requires { All (IsShown D.value_of (D.plain domain.now)) rows.now }
    ensures { IfOk result (λ texts. AreTextsOf (map (plain D.value_of) rows.now) texts.items) }
{
    let mut texts = Vec::with_capacity(alloc, rows.len())?;
    for row in rows {
        texts.push(text_row(alloc, domain, row)?)?;
    }
    Ok(texts)
}
