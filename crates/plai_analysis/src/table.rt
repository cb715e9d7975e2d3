//! What a table that is kept tells.
ghost use Rattle.std.specs.Prelude.{IfOk};
ghost use Rattle.plai_arcs.specs.declared.arcs.Arcs as arcs;
ghost use Rattle.plai_repair.specs.Unchanged.{AreUnchanged};
ghost use Rattle.plai_analysis.specs.Table.{IsTextTable};
ghost use Rattle.plai_analysis.specs.Kept.{IsKeptTable};
ghost use Rattle.plai_analysis.specs.Output.{IsPlainTable};

use crate::patterns::plain_rows;
use crate::rows::{rows_of, text_rows};
use plai_assert::{verdicts, verdicts_need_no_order};
use plai_clauses::Program;
use plai_domain::Domain;
use plai_render::{PlainRow, TextTable, sort_rows, sort_texts};
use plai_repair::same_checks;
use plai_table::Table;
use plai_terms::Listed;
use std::alloc::{AllocError, Global};

/// The rows of a table that keeps the least table of the program, as text, in the order of a table, and what they say of the
/// program's assertions.
pub(crate) fn texts_of_table<D: Domain>(
    alloc: Global,
    domain: &D,
    program: &Program,
    table: &Table<D::Value>,
    _limit: u64,
) -> Result<TextTable, AllocError>
    requires { (kept : arcs.Arcs) × IsKeptTable D.value_of (D.plain domain.now) program.now _limit table.now.rows kept }
    ensures { IfOk result (IsTextTable (D.plain domain.now) program.now _limit) }
{
    program.is_program();
    verdicts_need_no_order::<D>();
    let rows = rows_of(alloc, domain, table)?;
    let mut texts = text_rows(alloc, domain, rows.as_slice())?;
    let found = verdicts(alloc, domain, program, rows.as_slice())?;
    sort_texts(&mut texts);
    Ok(TextTable {
        rows: Listed::new(texts),
        verdicts: Listed::new(found),
    })
}

/// The same behind an edit that leaves the entries and the clauses of each row's predicate: the texts that were kept of the
/// program before it, where it leaves the assertions too.
pub(crate) fn texts_again<D: Domain>(
    alloc: Global,
    domain: &D,
    was: &Program,
    program: &Program,
    texts: TextTable,
    table: &Table<D::Value>,
    limit: u64,
) -> Result<TextTable, AllocError>
    requires own { IsTextTable (D.plain domain.now) was.now limit texts }
    requires kept { (kept : arcs.Arcs) × IsKeptTable D.value_of (D.plain domain.now) was.now limit table.now.rows kept }
    requires unchanged { AreUnchanged was.now program.now table.now.rows }
    ensures { IfOk result (IsTextTable (D.plain domain.now) program.now limit) }
{
    was.is_program();
    program.is_program();
    if same_checks(program.checks(), was.checks()) {
        return Ok(texts);
    }
    texts_of_table(alloc, domain, program, table, limit)
}

/// The rows of such a table as patterns, in the order of a table.
pub fn rows_of_table<D: Domain>(
    alloc: Global,
    domain: &D,
    program: &Program,
    table: &Table<D::Value>,
    _limit: u64,
) -> Result<Vec<PlainRow>, AllocError>
    requires { (kept : arcs.Arcs) × IsKeptTable D.value_of (D.plain domain.now) program.now _limit table.now.rows kept }
    ensures { IfOk result (λ rows. IsPlainTable (D.plain domain.now) program.now _limit rows.items) }
{
    program.is_program();
    let rows = rows_of(alloc, domain, table)?;
    let mut patterns = plain_rows(alloc, domain, rows.as_slice())?;
    sort_rows(alloc, &mut patterns)?;
    Ok(patterns)
}
