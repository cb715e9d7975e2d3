//! The pairs of a row and a clause that the row's predicate gained.
ghost use Rattle.std.specs.Prelude.{◌≡◌, ◌<◌, ℕ, ◌&&◌, ◌||◌, nat_eq, length, OnOk};
ghost use Rattle.plai_arcs.specs.Arcs.{is_dirty, is_call};
ghost use Rattle.plai_repair.specs.Gained.{is_past, gained_at};
ghost use Rattle.plai_repair.specs.Lost.{AreTouched};

use indexmap::IndexSet;
use plai_arcs::Arcs;
use plai_clauses::Program;
use plai_table::Table;
use plai_terms::PredKey;
use std::alloc::{AllocError, Global};
use std::hash::Hash;

/// Makes the clauses of the row behind the first of these numbers dirty, up to the last.
fn mark_past(
    alloc: Global,
    arcs: &mut Arcs,
    row: u64,
    first: u64,
    last: u64,
) -> Result<(), AllocError>
    ensures dirty { OnOk result ((r c : ℕ) → is_dirty arcs.new r c ≡ ((nat_eq r row && is_past first last c) || is_dirty arcs.old r c)) }
    ensures calls { OnOk result ((r c q : ℕ) → is_call arcs.new r c q ≡ is_call arcs.old r c q) }
{
    let mut clause = first;
    while clause < last {
        clause += 1;
        arcs.mark_dirty(alloc, row, clause)?;
    }
    Ok(())
}

/// Makes the clauses dirty that the row's predicate gained.
fn mark_gained_of<V: Eq + Hash + Drop>(
    alloc: Global,
    table: &Table<V>,
    arcs: &mut Arcs,
    before: &Program,
    after: &Program,
    touched: &IndexSet<PredKey>,
    row: u64,
) -> Result<(), AllocError>
    requires row { row < length table.now.rows }
    requires touched { AreTouched before.now after.now touched.now.keys }
    ensures dirty { OnOk result ((r c : ℕ) → is_dirty arcs.new r c ≡ ((nat_eq r row && gained_at before.now after.now table.now.rows r c) || is_dirty arcs.old r c)) }
    ensures calls { OnOk result ((r c q : ℕ) → is_call arcs.new r c q ≡ is_call arcs.old r c q) }
{
    let pred = &table.row(row).name.pred;
    if !touched.contains(pred) {
        return Ok(());
    }
    let old = before.clauses_of(pred).len() as u64;
    let new = after.clauses_of(pred).len() as u64;
    mark_past(alloc, arcs, row, old, new)
}

/// Makes the pairs dirty of each row and the clauses that its predicate gained at an edit that touches these predicates, and no
/// others.
pub(crate) fn mark_gained<V: Eq + Hash + Drop>(
    alloc: Global,
    table: &Table<V>,
    arcs: &mut Arcs,
    before: &Program,
    after: &Program,
    touched: &IndexSet<PredKey>,
) -> Result<(), AllocError>
    requires { AreTouched before.now after.now touched.now.keys }
    ensures dirty { OnOk result ((r c : ℕ) → is_dirty arcs.new r c ≡ (gained_at before.now after.now table.now.rows r c || is_dirty arcs.old r c)) }
    ensures calls { OnOk result ((r c q : ℕ) → is_call arcs.new r c q ≡ is_call arcs.old r c q) }
{
    for row in 0..table.len() {
        mark_gained_of(alloc, table, arcs, before, after, touched, row)?;
    }
    Ok(())
}
