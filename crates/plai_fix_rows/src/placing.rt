//! Rows for names that are asked for.
ghost use Rattle.std.specs.Prelude.{◌≡◌, ℕ, ◌≤◌, ◌<◌, ◌&&◌, ◌||◌, ◌++◌, [], ◌∷◌, nat_eq, Bool, true, false, List, Option, Some, None, map, length, slice_get, IfOk, OnOk, OnErr};
ghost use Rattle.std.specs.List.{list_any};
ghost use Rattle.std.specs.BinaryHeap.{heap_items};
ghost use Rattle.plai_theory.specs.Domain.{Name};
ghost use Rattle.plai_terms.specs.declared.abs.Abs.{Abs};
ghost use Rattle.plai_terms.specs.declared.pred_key.PredKey.{PredKey};
ghost use Rattle.plai_domain.specs.declared.key.Key.{Key};
ghost use Rattle.plai_domain.specs.declared.work.WorkEntry.{WorkEntry};
ghost use Rattle.plai_domain.specs.declared.work.WorkEntry.TheVariants as entries;
ghost use Rattle.plai_domain.specs.Names.{name_of};
ghost use Rattle.plai_domain.specs.Noted.{noted};
ghost use Rattle.plai_clauses.specs.Program.{clauses_of};
ghost use Rattle.plai_clauses.specs.WellFormed.{IsWellFormed};
ghost use Rattle.plai_table.specs.Rows.{names_of};
ghost use Rattle.plai_arcs.specs.Arcs.{is_dirty, is_call};
ghost use Rattle.plai_eval.specs.Meaning.{as_domain, as_program};
ghost use Rattle.plai_fix_laws.specs.WorkStates.{Extends, AreOfRows};
ghost use Rattle.plai_fix_rows.specs.Marks.{is_number};
ghost use Rattle.plai_fix_rows.specs.Tables.{key_name, kept_rows, state_of};
ghost use Rattle.plai_fix_laws.specs.Queues.{IsQueued};
ghost use Rattle.plai_fix_rows.specs.Told.{Origin, HasLegalLog};
ghost use Rattle.plai_fix_rows.specs.Solving.{Places, IsPlacing};
ghost use Rattle.plai_fix_laws.specs.Measures.{Adds};

use crate::marking::mark_clauses;
use crate::queue::push_row;
use crate::task::Task;
use plai_arcs::Arcs;
use plai_domain::{Domain, Key, Work};
use plai_table::{AddFail, Table};
use std::alloc::AllocError;
use std::collections::BinaryHeap;

/// Marks all clauses of a new row, queues the row, and notes that it is made. A refusal notes nothing.
fn begin_row<D: Domain, W: Work>(
    task: &Task<D>,
    table: &Table<D::Value>,
    arcs: &mut Arcs,
    queue: &mut BinaryHeap<u64>,
    row: u64,
    work: &mut W,
) -> Result<(), AllocError>
    requires { row < length table.now.rows }
    ensures dirty { OnOk result ((name : Key D.Value) → slice_get (names_of table.now.rows) row ≡ Some name → (r c : ℕ)
        → is_dirty arcs.new r c ≡ ((nat_eq r row && is_number (length (clauses_of task.now.program.now name.pred)) c) || is_dirty arcs.old r c)) }
    ensures calls { OnOk result ((r c q : ℕ) → is_call arcs.new r c q ≡ is_call arcs.old r c q) }
    ensures noted { OnOk result ((name : Key D.Value) → slice_get (names_of table.now.rows) row ≡ Some name
        → W.entries work.new ≡ noted (entries.Made (name_of D.value_of name)) (W.entries work.old)) }
    ensures queued { IsQueued (state_of D.value_of (D.plain task.now.domain.now) table.now.rows arcs.old) (heap_items queue.old) → OnOk result (IsQueued (state_of D.value_of (D.plain task.now.domain.now) table.now.rows arcs.new) (heap_items queue.new)) }
    ensures nothing { OnErr result (W.entries work.new ≡ W.entries work.old) }
{
    let name = table.row(row).name;
    let last = task.program.clauses_of(&name.pred).len() as u64;
    mark_clauses(task.alloc, arcs, row, last)?;
    push_row(queue, row)?;
    work.note_made(task.alloc, task.domain, name)
}

/// The row of the name; where it has none, one is made and noted, unless the limit of live rows is met: then there is none.
/// A refusal notes nothing.
pub(crate) fn place<D: Domain, W: Work>(
    task: &Task<D>,
    table: &mut Table<D::Value>,
    arcs: &mut Arcs,
    queue: &mut BinaryHeap<u64>,
    name: Key<D::Value>,
    work: &mut W,
) -> Result<Option<u64>, AllocError>
    requires { AreOfRows (state_of D.value_of (D.plain task.now.domain.now) table.old.rows arcs.old) }
    ensures placed { IfOk result (Places (D.plain task.now.domain.now) task.now.program.now task.now.limit (key_name D.value_of name)
        (state_of D.value_of (D.plain task.now.domain.now) table.old.rows arcs.old) (W.entries work.old)
        (state_of D.value_of (D.plain task.now.domain.now) table.new.rows arcs.new) (W.entries work.new)) }
    ensures queued { IsQueued (state_of D.value_of (D.plain task.now.domain.now) table.old.rows arcs.old) (heap_items queue.old) → OnOk result (IsQueued (state_of D.value_of (D.plain task.now.domain.now) table.new.rows arcs.new) (heap_items queue.new)) }
    ensures nothing { OnErr result (W.entries work.new ≡ W.entries work.old) }
{
    if let Some(row) = table.find(&name) {
        return Ok(Some(row));
    }
    match table.add(task.alloc, name, task.limit) {
        Ok(row) => {
            begin_row(task, table, arcs, queue, row, work)?;
            Ok(Some(row))
        }
        Err(AddFail::Full) => Ok(None),
        Err(AddFail::Memory) => Err(AllocError),
    }
}

/// Places a name that a pair called, and puts its row behind `rows`. Whether the limit of live rows is met, and was met by
/// this name or, where `full` says so, by an earlier one.
fn place_next<D: Domain, W: Work>(
    task: &Task<D>,
    table: &mut Table<D::Value>,
    arcs: &mut Arcs,
    queue: &mut BinaryHeap<u64>,
    rows: &mut Vec<u64>,
    name: Key<D::Value>,
    full: bool,
    work: &mut W,
) -> Result<bool, AllocError>
    requires well_formed { IsWellFormed task.now.program.now }
    requires of_rows { AreOfRows (state_of D.value_of (D.plain task.now.domain.now) table.old.rows arcs.old) }
    ensures placing { IfOk result (λ met. (begun : Origin) (cost : ℕ) (unmet : ℕ → ℕ → Bool) (n i : ℕ) (called left : List (Name PredKey Abs))
        → IsPlacing (D.plain task.now.domain.now) task.now.program.now task.now.limit begun (W.entries work.old) cost
        (state_of D.value_of (D.plain task.now.domain.now) table.old.rows arcs.old) unmet n i called (λ j. list_any (nat_eq j) rows.old.items)
        (left ++ key_name D.value_of name ∷ []) full
        → IsPlacing (D.plain task.now.domain.now) task.now.program.now task.now.limit begun (W.entries work.new) cost
        (state_of D.value_of (D.plain task.now.domain.now) table.new.rows arcs.new) unmet n i called (λ j. list_any (nat_eq j) rows.new.items) left met) }
    ensures told { OnErr result ((begun : Origin) (cost : ℕ) (unmet : ℕ → ℕ → Bool) (n i : ℕ) (called left : List (Name PredKey Abs))
        → IsPlacing (D.plain task.now.domain.now) task.now.program.now task.now.limit begun (W.entries work.old) cost
        (state_of D.value_of (D.plain task.now.domain.now) table.old.rows arcs.old) unmet n i called (λ j. list_any (nat_eq j) rows.old.items)
        (left ++ key_name D.value_of name ∷ []) full
        → HasLegalLog (D.plain task.now.domain.now) task.now.program.now task.now.limit begun (W.entries work.new)) }
    ensures of_rows { OnOk result (AreOfRows (state_of D.value_of (D.plain task.now.domain.now) table.new.rows arcs.new)) }
    ensures adds { OnOk result (Adds (as_domain (D.plain task.now.domain.now)) task.now.limit
        (state_of D.value_of (D.plain task.now.domain.now) table.old.rows arcs.old)
        (state_of D.value_of (D.plain task.now.domain.now) table.new.rows arcs.new)) }
    ensures extends { OnOk result (Extends (as_domain (D.plain task.now.domain.now)) (kept_rows D.value_of (D.plain task.now.domain.now) table.old.rows)
        (kept_rows D.value_of (D.plain task.now.domain.now) table.new.rows)) }
    ensures queued { IsQueued (state_of D.value_of (D.plain task.now.domain.now) table.old.rows arcs.old) (heap_items queue.old) → OnOk result (IsQueued (state_of D.value_of (D.plain task.now.domain.now) table.new.rows arcs.new) (heap_items queue.new)) }
{
    match place(task, table, arcs, queue, name, work)? {
        Some(row) => {
            rows.push(row)?;
            Ok(full)
        }
        None => Ok(true),
    }
}

/// Places the names that a pair called and that are missing, the last first, and puts their rows behind `rows`. Whether one
/// has no row, since the limit of live rows is met.
pub(crate) fn place_all<D: Domain, W: Work>(
    task: &Task<D>,
    table: &mut Table<D::Value>,
    arcs: &mut Arcs,
    queue: &mut BinaryHeap<u64>,
    rows: &mut Vec<u64>,
    missing: Vec<Key<D::Value>>,
    work: &mut W,
) -> Result<bool, AllocError>
    requires well_formed { IsWellFormed task.now.program.now }
    requires of_rows { AreOfRows (state_of D.value_of (D.plain task.now.domain.now) table.old.rows arcs.old) }
    ensures placing { IfOk result (λ met. (begun : Origin) (cost : ℕ) (unmet : ℕ → ℕ → Bool) (n i : ℕ) (called : List (Name PredKey Abs))
        → IsPlacing (D.plain task.now.domain.now) task.now.program.now task.now.limit begun (W.entries work.old) cost
        (state_of D.value_of (D.plain task.now.domain.now) table.old.rows arcs.old) unmet n i called (λ j. list_any (nat_eq j) rows.old.items)
        (map (key_name D.value_of) missing.items) false
        → IsPlacing (D.plain task.now.domain.now) task.now.program.now task.now.limit begun (W.entries work.new) cost
        (state_of D.value_of (D.plain task.now.domain.now) table.new.rows arcs.new) unmet n i called (λ j. list_any (nat_eq j) rows.new.items) [] met) }
    ensures told { OnErr result ((begun : Origin) (cost : ℕ) (unmet : ℕ → ℕ → Bool) (n i : ℕ) (called : List (Name PredKey Abs))
        → IsPlacing (D.plain task.now.domain.now) task.now.program.now task.now.limit begun (W.entries work.old) cost
        (state_of D.value_of (D.plain task.now.domain.now) table.old.rows arcs.old) unmet n i called (λ j. list_any (nat_eq j) rows.old.items)
        (map (key_name D.value_of) missing.items) false
        → HasLegalLog (D.plain task.now.domain.now) task.now.program.now task.now.limit begun (W.entries work.new)) }
    ensures adds { OnOk result (Adds (as_domain (D.plain task.now.domain.now)) task.now.limit
        (state_of D.value_of (D.plain task.now.domain.now) table.old.rows arcs.old)
        (state_of D.value_of (D.plain task.now.domain.now) table.new.rows arcs.new)) }
    ensures extends { OnOk result (Extends (as_domain (D.plain task.now.domain.now)) (kept_rows D.value_of (D.plain task.now.domain.now) table.old.rows)
        (kept_rows D.value_of (D.plain task.now.domain.now) table.new.rows)) }
    ensures queued { IsQueued (state_of D.value_of (D.plain task.now.domain.now) table.old.rows arcs.old) (heap_items queue.old) → OnOk result (IsQueued (state_of D.value_of (D.plain task.now.domain.now) table.new.rows arcs.new) (heap_items queue.new)) }
{
    let mut missing = missing;
    let mut full = false;
    while let Some(name) = missing.pop() {
        full = place_next(task, table, arcs, queue, rows, name, full, work)?;
    }
    Ok(full)
}
