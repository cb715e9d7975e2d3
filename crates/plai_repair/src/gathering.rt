//! The rows from which calls lead to a predicate that lost a clause.
ghost use Rattle.std.specs.Prelude.{◌≡◌, ◌↔◌, ◌<◌, ◌≤◌, ℕ, true, false, length, get_or, [], OnOk, IfOk};
ghost use Rattle.plai_arcs.specs.Arcs.{is_call};
ghost use Rattle.plai_theory.specs.Words.{IsIn};
ghost use Rattle.plai_repair.specs.Lost.{AreTouched, LosesAt, IsLost, AreLost};
ghost use Rattle.plai_repair.specs.Gathering.{AreMarked, Gathers, Spreads, IsRowOf};

use crate::touching::loses;
use indexmap::IndexSet;
use plai_arcs::Arcs;
use plai_clauses::Program;
use plai_table::Table;
use plai_terms::PredKey;
use std::alloc::{AllocError, Global};
use std::hash::Hash;

/// Rows that are gathered, and a mark for each row that is.
#[derive(Drop)]
pub(crate) struct Gathered {
    pub(crate) marks: Vec<bool>,
    pub(crate) rows: Vec<u64>,
}

/// No rows of so many.
pub(crate) fn none(alloc: Global, size: usize) -> Result<Gathered, AllocError>
    ensures size { IfOk result (λ gathered. length gathered.marks.items ≡ size) }
    ensures rows { IfOk result (λ gathered. gathered.rows.items ≡ []) }
    ensures marked { IfOk result (λ gathered. AreMarked gathered.marks.items gathered.rows.items) }
{
    let marks = vec![in alloc; false; size]?;
    Ok(Gathered {
        marks,
        rows: Vec::new(alloc),
    })
}

/// Puts the row behind the others, unless it is there.
pub(crate) fn gather(gathered: &mut Gathered, row: u64) -> Result<(), AllocError>
    requires there { row < length gathered.old.marks.items }
    requires marked { AreMarked gathered.old.marks.items gathered.old.rows.items }
    ensures { OnOk result (Gathers (λ j. j ≡ row) gathered.old.marks.items gathered.old.rows.items gathered.new.marks.items gathered.new.rows.items) }
{
    if gathered.marks[row as usize] {
        return Ok(());
    }
    gathered.rows.push(row)?;
    gathered.marks[row as usize] = true;
    Ok(())
}

/// Puts the rows of these pairs behind the others.
fn gather_callers(gathered: &mut Gathered, pairs: &[(u64, u64)]) -> Result<(), AllocError>
    requires there { (j : ℕ) → IsRowOf pairs.now (length pairs.now) j → j < length gathered.old.marks.items }
    requires marked { AreMarked gathered.old.marks.items gathered.old.rows.items }
    ensures { OnOk result (Gathers (IsRowOf pairs.now (length pairs.now)) gathered.old.marks.items gathered.old.rows.items gathered.new.marks.items gathered.new.rows.items) }
{
    let mut place: usize = 0;
    while place < pairs.len() {
        gather(gathered, pairs[place].0)?;
        place += 1;
    }
    Ok(())
}

/// Puts the row behind the others where its predicate lost a clause.
fn gather_where_lost<V: Eq + Hash + Drop>(
    table: &Table<V>,
    before: &Program,
    after: &Program,
    touched: &IndexSet<PredKey>,
    row: u64,
    gathered: &mut Gathered,
) -> Result<(), AllocError>
    requires there { row < length gathered.old.marks.items }
    requires row { row < length table.now.rows }
    requires touched { AreTouched before.now after.now touched.now.keys }
    requires marked { AreMarked gathered.old.marks.items gathered.old.rows.items }
    ensures { OnOk result (Gathers (λ j. (j ≡ row) × LosesAt before.now after.now table.now.rows j) gathered.old.marks.items gathered.old.rows.items gathered.new.marks.items gathered.new.rows.items) }
{
    let pred = &table.row(row).name.pred;
    if !loses(before, after, touched, pred) {
        return Ok(());
    }
    gather(gathered, row)?;
    Ok(())
}

/// Puts the rows whose predicates lost a clause behind the others.
fn gather_lost<V: Eq + Hash + Drop>(
    table: &Table<V>,
    before: &Program,
    after: &Program,
    touched: &IndexSet<PredKey>,
    gathered: &mut Gathered,
) -> Result<(), AllocError>
    requires there { length gathered.old.marks.items ≡ length table.now.rows }
    requires touched { AreTouched before.now after.now touched.now.keys }
    requires marked { AreMarked gathered.old.marks.items gathered.old.rows.items }
    ensures { OnOk result (Gathers (LosesAt before.now after.now table.now.rows) gathered.old.marks.items gathered.old.rows.items gathered.new.marks.items gathered.new.rows.items) }
{
    for row in 0..table.len() {
        gather_where_lost(table, before, after, touched, row, gathered)?;
    }
    Ok(())
}

/// Puts the callers of the gathered rows behind them, until nothing comes.
fn spread(arcs: &Arcs, gathered: &mut Gathered) -> Result<(), AllocError>
    requires within { (r c q : ℕ) → is_call arcs.now r c q ≡ true → r < length gathered.old.marks.items }
    requires marked { AreMarked gathered.old.marks.items gathered.old.rows.items }
    ensures { OnOk result (Spreads (λ j. IsIn j gathered.old.rows.items) (is_call arcs.now) (length gathered.old.marks.items) (length gathered.new.rows.items) gathered.new.marks.items gathered.new.rows.items) }
{
    let mut index: usize = 0;
    while index < gathered.rows.len() {
        let row = gathered.rows[index];
        gather_callers(gathered, arcs.callers(row))?;
        index += 1;
    }
    Ok(())
}

/// A mark for each row, set exactly where calls of any number, none included, lead from the row to a row whose predicate lost
/// a clause, at an edit that touches these predicates.
pub fn lost_rows<V: Eq + Hash + Drop>(
    alloc: Global,
    table: &Table<V>,
    arcs: &Arcs,
    before: &Program,
    after: &Program,
    touched: &IndexSet<PredKey>,
) -> Result<Vec<bool>, AllocError>
    requires touched { AreTouched before.now after.now touched.now.keys }
    requires within { (r c q : ℕ) → is_call arcs.now r c q ≡ true → r < length table.now.rows }
    ensures { IfOk result (λ marks. AreLost (LosesAt before.now after.now table.now.rows) (is_call arcs.now) (length table.now.rows) marks.items) }
{
    let mut gathered = none(alloc, table.len() as usize)?;
    gather_lost(table, before, after, touched, &mut gathered)?;
    spread(arcs, &mut gathered)?;
    Ok(gathered.marks)
}
