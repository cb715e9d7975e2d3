//! The rows of a table as patterns.
ghost use Rattle.std.specs.Prelude.{◌≡◌, map, unwrap_or, IfOk};
ghost use Rattle.std.specs.Option.{option_map};
ghost use Rattle.plai_terms.specs.declared.abs.Abs.TheVariants.{Nothing};
ghost use Rattle.plai_domain.specs.Names.{name_of};
ghost use Rattle.plai_assert.specs.Rows.{plain};

use plai_assert::Row;
use plai_domain::{Domain, Key};
use plai_terms::{Abs, PlainRow, RowName};
use std::alloc::{AllocError, Global};

/// A row's name with the pattern of its calls.
fn plain_name<D: Domain>(
    alloc: Global,
    domain: &D,
    name: &Key<D::Value>,
) -> Result<RowName, AllocError>
    ensures { IfOk result (λ row. row ≡ name_of D.value_of name.now) }
{
    Ok(RowName {
        pred: name.pred.copy(alloc)?,
        call: domain.to_abs(alloc, &name.call)?,
    })
}

/// The pattern of an answer, `Nothing` where there is none.
fn plain_answer<D: Domain>(
    alloc: Global,
    domain: &D,
    answer: Option<&D::Value>,
) -> Result<Abs, AllocError>
    ensures { IfOk result (λ pattern. pattern ≡ unwrap_or (option_map (λ value. D.value_of value.now) answer.entry) Nothing) }
{
    match answer {
        Some(value) => domain.to_abs(alloc, value),
        None => Ok(Abs::Nothing),
    }
}

/// The row as patterns.
fn plain_row<D: Domain>(
    alloc: Global,
    domain: &D,
    row: &Row<'_, D::Value>,
) -> Result<PlainRow, AllocError>
    ensures { IfOk result (λ patterns. patterns ≡ plain D.value_of row.now) }
{
    Ok(PlainRow {
        name: plain_name(alloc, domain, row.name)?,
        answer: plain_answer(alloc, domain, row.answer)?,
    })
}

/// The rows as patterns.
pub(crate) fn plain_rows<D: Domain>(
    alloc: Global,
    domain: &D,
    rows: &[Row<'_, D::Value>],
) -> Result<Vec<PlainRow>, AllocError>
    ensures { IfOk result (λ patterns. patterns.items ≡ map (plain D.value_of) rows.now) }
{
    let mut patterns = Vec::with_capacity(alloc, rows.len())?;
    for row in rows {
        patterns.push(plain_row(alloc, domain, row)?)?;
    }
    Ok(patterns)
}
