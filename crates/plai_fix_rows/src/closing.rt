//! The last part of a pair's work: live rows for the names that it called, and its calls.
ghost use Rattle.std.specs.Prelude.{◌≡◌, ℕ, ◌≤◌, ◌-◌, nat_eq, Bool, true, false, [], List, Option, Some, None, map, IfOk, OnOk, OnErr};
ghost use Rattle.std.specs.List.{list_any};
ghost use Rattle.std.specs.BinaryHeap.{heap_items};
ghost use Rattle.plai_theory.specs.Domain.{Name};
ghost use Rattle.plai_terms.specs.declared.abs.Abs.{Abs};
ghost use Rattle.plai_terms.specs.declared.pred_key.PredKey.{PredKey};
ghost use Rattle.plai_domain.specs.declared.work.WorkEntry.{WorkEntry};
ghost use Rattle.plai_clauses.specs.WellFormed.{IsWellFormed};
ghost use Rattle.plai_arcs.specs.Arcs.{is_dirty};
ghost use Rattle.plai_eval.specs.Meaning.{as_domain, as_program};
ghost use Rattle.plai_fix_laws.specs.WorkStates.{Extends, no_pair, with_pair, AreOfRows};
ghost use Rattle.plai_fix_laws.specs.Changes.{SetsCalls};
ghost use Rattle.plai_fix_laws.specs.Pairs.{Links};
ghost use Rattle.plai_fix_rows.specs.Tables.{key_name, kept_rows, state_of};
ghost use Rattle.plai_fix_laws.specs.Queues.{IsQueued};
ghost use Rattle.plai_fix_rows.specs.Told.{Origin, HasLegalLog};
ghost use Rattle.plai_fix_rows.specs.Solving.{IsAtWork, IsAtWaking, IsPastGrowth, Places, IsPlacing};
ghost use Rattle.plai_fix_rows.specs.Moves.{Shifts};
ghost use Rattle.plai_fix_laws.specs.Measures.{Adds};

use crate::calling::set_pair_calls;
use crate::change::Change;
use crate::meeting::meet_called;
use crate::placing::place_all;
use crate::task::Task;
use plai_arcs::Arcs;
use plai_domain::{Domain, Key, Work};
use plai_table::Table;
use std::alloc::AllocError;
use std::collections::BinaryHeap;

/// Makes the rows that the clause, of this number from 1, of the row calls exactly these. Where the limit of live rows left a
/// called name without one, the pair is marked as unmet. What it calls may be dormant still.
fn close_pair<D: Domain>(
    task: &Task<D>,
    table: &Table<D::Value>,
    arcs: &mut Arcs,
    unmet: &mut Arcs,
    row: u64,
    number: u64,
    rows: &[u64],
    full: bool,
) -> Result<(), AllocError>
    requires well_formed { IsWellFormed task.now.program.now }
    requires number { 1 ≤ number }
    ensures closed { OnOk result ((begun : Origin) (told : Option (List WorkEntry)) (cost : ℕ) (called : List (Name PredKey Abs))
        → IsPlacing (D.plain task.now.domain.now) task.now.program.now task.now.limit begun told cost
        (state_of D.value_of (D.plain task.now.domain.now) table.now.rows arcs.old) (is_dirty unmet.old) row (number - 1) called
        (λ j. list_any (nat_eq j) rows.now) [] full
        → IsAtWaking (D.plain task.now.domain.now) task.now.program.now task.now.limit begun told cost
        (state_of D.value_of (D.plain task.now.domain.now) table.now.rows arcs.new) (with_pair row number no_pair) (is_dirty unmet.new)) }
    ensures sets { OnOk result (SetsCalls (as_domain (D.plain task.now.domain.now)) (state_of D.value_of (D.plain task.now.domain.now) table.now.rows arcs.old)
        (state_of D.value_of (D.plain task.now.domain.now) table.now.rows arcs.new) row (number - 1) (λ j. list_any (nat_eq j) rows.now)) }
{
    set_pair_calls(task.alloc, task.domain, table, arcs, row, number, rows)?;
    if full {
        return unmet.mark_dirty(task.alloc, row, number);
    }
    Ok(())
}

/// Places the missing names that the clause, of this number from 1, of the row called, and sets its calls. `rows` are the rows
/// of the other called names, and then of these too. What it calls may be dormant still.
fn place_missing<D: Domain, W: Work>(
    task: &Task<D>,
    table: &mut Table<D::Value>,
    arcs: &mut Arcs,
    unmet: &mut Arcs,
    queue: &mut BinaryHeap<u64>,
    row: u64,
    number: u64,
    rows: &mut Vec<u64>,
    missing: Vec<Key<D::Value>>,
    work: &mut W,
) -> Result<(), AllocError>
    requires well_formed { IsWellFormed task.now.program.now }
    requires number { 1 ≤ number }
    requires of_rows { AreOfRows (state_of D.value_of (D.plain task.now.domain.now) table.old.rows arcs.old) }
    ensures waking { OnOk result ((begun : Origin) (cost : ℕ) (called : List (Name PredKey Abs))
        → IsPastGrowth (D.plain task.now.domain.now) task.now.program.now task.now.limit begun (W.entries work.old) cost
        (state_of D.value_of (D.plain task.now.domain.now) table.old.rows arcs.old) (is_dirty unmet.old) None row (number - 1) called
        → Links (as_domain (D.plain task.now.domain.now)) (kept_rows D.value_of (D.plain task.now.domain.now) table.old.rows) called
        (λ j. list_any (nat_eq j) rows.old.items) (map (key_name D.value_of) missing.items) false
        → IsAtWaking (D.plain task.now.domain.now) task.now.program.now task.now.limit begun (W.entries work.new) cost
        (state_of D.value_of (D.plain task.now.domain.now) table.new.rows arcs.new) (with_pair row number no_pair) (is_dirty unmet.new)) }
    ensures told { OnErr result ((begun : Origin) (cost : ℕ) (called : List (Name PredKey Abs))
        → IsPastGrowth (D.plain task.now.domain.now) task.now.program.now task.now.limit begun (W.entries work.old) cost
        (state_of D.value_of (D.plain task.now.domain.now) table.old.rows arcs.old) (is_dirty unmet.old) None row (number - 1) called
        → Links (as_domain (D.plain task.now.domain.now)) (kept_rows D.value_of (D.plain task.now.domain.now) table.old.rows) called
        (λ j. list_any (nat_eq j) rows.old.items) (map (key_name D.value_of) missing.items) false
        → HasLegalLog (D.plain task.now.domain.now) task.now.program.now task.now.limit begun (W.entries work.new)) }
    ensures adds { OnOk result (Adds (as_domain (D.plain task.now.domain.now)) task.now.limit (state_of D.value_of (D.plain task.now.domain.now) table.old.rows arcs.old) (state_of D.value_of (D.plain task.now.domain.now) table.new.rows arcs.new)) }
    ensures extends { OnOk result (Extends (as_domain (D.plain task.now.domain.now)) (kept_rows D.value_of (D.plain task.now.domain.now) table.old.rows) (kept_rows D.value_of (D.plain task.now.domain.now) table.new.rows)) }
    ensures queued { IsQueued (state_of D.value_of (D.plain task.now.domain.now) table.old.rows arcs.old) (heap_items queue.old) → OnOk result (IsQueued (state_of D.value_of (D.plain task.now.domain.now) table.new.rows arcs.new) (heap_items queue.new)) }
{
    if missing.is_empty() {
        return Ok(());
    }
    let full = place_all(task, table, arcs, queue, rows, missing, work)?;
    close_pair(task, table, arcs, unmet, row, number, rows.as_slice(), full)
}

/// Rows for what the clause, of this number from 1, of the row called: missing names are placed, its calls are set, and dormant
/// rows are woken. `rows` are the rows of the other called names.
pub fn place_called<D: Domain, W: Work>(
    task: &Task<D>,
    table: &mut Table<D::Value>,
    arcs: &mut Arcs,
    unmet: &mut Arcs,
    queue: &mut BinaryHeap<u64>,
    row: u64,
    number: u64,
    rows: Vec<u64>,
    missing: Vec<Key<D::Value>>,
    work: &mut W,
) -> Result<Change, AllocError>
    requires well_formed { IsWellFormed task.now.program.now }
    requires number { 1 ≤ number }
    requires of_rows { AreOfRows (state_of D.value_of (D.plain task.now.domain.now) table.old.rows arcs.old) }
    ensures at_work { OnOk result ((begun : Origin) (cost : ℕ) (called : List (Name PredKey Abs))
        → IsPastGrowth (D.plain task.now.domain.now) task.now.program.now task.now.limit begun (W.entries work.old) cost
        (state_of D.value_of (D.plain task.now.domain.now) table.old.rows arcs.old) (is_dirty unmet.old) None row (number - 1) called
        → Links (as_domain (D.plain task.now.domain.now)) (kept_rows D.value_of (D.plain task.now.domain.now) table.old.rows) called
        (λ j. list_any (nat_eq j) rows.items) (map (key_name D.value_of) missing.items) false
        → IsAtWork (D.plain task.now.domain.now) task.now.program.now task.now.limit begun (W.entries work.new) cost
        (state_of D.value_of (D.plain task.now.domain.now) table.new.rows arcs.new) (is_dirty unmet.new)) }
    ensures told { OnErr result ((begun : Origin) (cost : ℕ) (called : List (Name PredKey Abs))
        → IsPastGrowth (D.plain task.now.domain.now) task.now.program.now task.now.limit begun (W.entries work.old) cost
        (state_of D.value_of (D.plain task.now.domain.now) table.old.rows arcs.old) (is_dirty unmet.old) None row (number - 1) called
        → Links (as_domain (D.plain task.now.domain.now)) (kept_rows D.value_of (D.plain task.now.domain.now) table.old.rows) called
        (λ j. list_any (nat_eq j) rows.items) (map (key_name D.value_of) missing.items) false
        → HasLegalLog (D.plain task.now.domain.now) task.now.program.now task.now.limit begun (W.entries work.new)) }
    ensures shifts { IfOk result (Shifts (as_domain (D.plain task.now.domain.now))
        (as_program (D.plain task.now.domain.now) task.now.program.now) task.now.limit
        (λ pred. (D.plain task.now.domain.now).rank) (state_of D.value_of (D.plain task.now.domain.now) table.old.rows arcs.old) (state_of D.value_of (D.plain task.now.domain.now) table.new.rows arcs.new)) }
    ensures extends { OnOk result (Extends (as_domain (D.plain task.now.domain.now)) (kept_rows D.value_of (D.plain task.now.domain.now) table.old.rows) (kept_rows D.value_of (D.plain task.now.domain.now) table.new.rows)) }
    ensures queued { IsQueued (state_of D.value_of (D.plain task.now.domain.now) table.old.rows arcs.old) (heap_items queue.old) → OnOk result (IsQueued (state_of D.value_of (D.plain task.now.domain.now) table.new.rows arcs.new) (heap_items queue.new)) }
{
    let before = table.live();
    let mut rows = rows;
    place_missing(
        task, table, arcs, unmet, queue, row, number, &mut rows, missing, work,
    )?;
    meet_called(task, table, arcs, unmet, queue, row, number, work)?;
    Ok(Change::of_rows(before < table.live()))
}
