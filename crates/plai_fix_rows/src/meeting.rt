//! Pending pairs, whose called rows are woken where a row is: waking a row wakes all that it calls.
ghost use Rattle.std.specs.Prelude.{◌≡◌, ◌⊎◌, ◌≤◌, ◌<◌, ℕ, Bool, true, false, [], List, Option, length, IfOk, OnOk, OnErr};
ghost use Rattle.std.specs.BinaryHeap.{heap_items};
ghost use Rattle.plai_theory.specs.Words.{IsIn};
ghost use Rattle.plai_theory.specs.Domain.{Name};
ghost use Rattle.plai_terms.specs.declared.abs.Abs.{Abs};
ghost use Rattle.plai_terms.specs.declared.pred_key.PredKey.{PredKey};
ghost use Rattle.plai_clauses.specs.WellFormed.{IsWellFormed};
ghost use Rattle.plai_arcs.specs.Arcs.{is_dirty, is_call};
ghost use Rattle.plai_eval.specs.Meaning.{as_domain, as_program};
ghost use Rattle.plai_fix_laws.specs.WorkStates.{Extends, IsNamed, is_live, no_pair, with_pair, kept_live};
ghost use Rattle.plai_fix_rows.specs.Tables.{kept_rows, state_of};
ghost use Rattle.plai_fix_laws.specs.Queues.{IsQueued};
ghost use Rattle.plai_fix_rows.specs.Solving.{IsAtWork, IsAtWaking, Rouses, IsMeeting, listed};
ghost use Rattle.plai_fix_rows.specs.Told.{Origin, HasLegalLog};
ghost use Rattle.plai_fix_laws.specs.Measures.{Adds};

use crate::task::Task;
use crate::waking::rouse;
use plai_arcs::Arcs;
use plai_domain::{Domain, Work};
use plai_table::Table;
use std::alloc::AllocError;
use std::collections::BinaryHeap;

/// Rouses the rows that the clause, of this number from 1, of the row calls. Whether the limit of live rows left one dormant.
fn meet_calls<D: Domain, W: Work>(
    task: &Task<D>,
    table: &mut Table<D::Value>,
    arcs: &Arcs,
    queue: &mut BinaryHeap<u64>,
    pending: &mut Vec<(u64, u64)>,
    row: u64,
    number: u64,
    work: &mut W,
) -> Result<bool, AllocError>
    requires well_formed { IsWellFormed task.now.program.now }
    requires clean { is_dirty arcs.now row number ≡ false }
    ensures meeting { IfOk result (λ full. (begun : Origin) (cost : ℕ) (unmet : ℕ → ℕ → Bool)
        → IsAtWaking (D.plain task.now.domain.now) task.now.program.now task.now.limit begun (W.entries work.old) cost (state_of D.value_of (D.plain task.now.domain.now) table.old.rows arcs.now) (with_pair row number (listed pending.old.items)) unmet
        → IsMeeting (D.plain task.now.domain.now) task.now.program.now task.now.limit begun (W.entries work.new) cost (state_of D.value_of (D.plain task.now.domain.now) table.new.rows arcs.now) (listed pending.new.items) unmet row number
        (is_call arcs.now row number) full) }
    ensures told { OnErr result ((begun : Origin) (cost : ℕ) (unmet : ℕ → ℕ → Bool)
        → IsAtWaking (D.plain task.now.domain.now) task.now.program.now task.now.limit begun (W.entries work.old) cost (state_of D.value_of (D.plain task.now.domain.now) table.old.rows arcs.now) (with_pair row number (listed pending.old.items)) unmet
        → HasLegalLog (D.plain task.now.domain.now) task.now.program.now task.now.limit begun (W.entries work.new)) }
    ensures adds { OnOk result (Adds (as_domain (D.plain task.now.domain.now)) task.now.limit (state_of D.value_of (D.plain task.now.domain.now) table.old.rows arcs.now) (state_of D.value_of (D.plain task.now.domain.now) table.new.rows arcs.now)) }
    ensures extends { OnOk result (Extends (as_domain (D.plain task.now.domain.now)) (kept_rows D.value_of (D.plain task.now.domain.now) table.old.rows) (kept_rows D.value_of (D.plain task.now.domain.now) table.new.rows)) }
    ensures unmoved { OnOk result (kept_live (as_domain (D.plain task.now.domain.now)) (kept_rows D.value_of (D.plain task.now.domain.now) table.new.rows) ≡ kept_live (as_domain (D.plain task.now.domain.now)) (kept_rows D.value_of (D.plain task.now.domain.now) table.old.rows) → pending.new.items ≡ pending.old.items) }
    ensures queued { IsQueued (state_of D.value_of (D.plain task.now.domain.now) table.old.rows arcs.now) (heap_items queue.old) → OnOk result (IsQueued (state_of D.value_of (D.plain task.now.domain.now) table.new.rows arcs.now) (heap_items queue.new)) }
{
    let mut full = false;
    let calls = arcs.calls_of(row, number);
    for call in calls {
        let live = rouse(task, table, arcs, queue, pending, *call, work)?;
        full = full | !live;
    }
    Ok(full)
}

/// Meets what the clause, of this number from 1, of the row calls: its rows are live then, or the pair is marked as unmet. A
/// dirty pair is passed over.
fn meet_pair<D: Domain, W: Work>(
    task: &Task<D>,
    table: &mut Table<D::Value>,
    arcs: &Arcs,
    unmet: &mut Arcs,
    queue: &mut BinaryHeap<u64>,
    pending: &mut Vec<(u64, u64)>,
    row: u64,
    number: u64,
    work: &mut W,
) -> Result<(), AllocError>
    requires well_formed { IsWellFormed task.now.program.now }
    ensures met { OnOk result ((begun : Origin) (cost : ℕ)
        → IsAtWaking (D.plain task.now.domain.now) task.now.program.now task.now.limit begun (W.entries work.old) cost (state_of D.value_of (D.plain task.now.domain.now) table.old.rows arcs.now) (with_pair row number (listed pending.old.items)) (is_dirty unmet.old)
        → IsAtWaking (D.plain task.now.domain.now) task.now.program.now task.now.limit begun (W.entries work.new) cost (state_of D.value_of (D.plain task.now.domain.now) table.new.rows arcs.now) (listed pending.new.items) (is_dirty unmet.new)) }
    ensures told { OnErr result ((begun : Origin) (cost : ℕ)
        → IsAtWaking (D.plain task.now.domain.now) task.now.program.now task.now.limit begun (W.entries work.old) cost (state_of D.value_of (D.plain task.now.domain.now) table.old.rows arcs.now) (with_pair row number (listed pending.old.items)) (is_dirty unmet.old)
        → HasLegalLog (D.plain task.now.domain.now) task.now.program.now task.now.limit begun (W.entries work.new)) }
    ensures adds { OnOk result (Adds (as_domain (D.plain task.now.domain.now)) task.now.limit (state_of D.value_of (D.plain task.now.domain.now) table.old.rows arcs.now) (state_of D.value_of (D.plain task.now.domain.now) table.new.rows arcs.now)) }
    ensures extends { OnOk result (Extends (as_domain (D.plain task.now.domain.now)) (kept_rows D.value_of (D.plain task.now.domain.now) table.old.rows) (kept_rows D.value_of (D.plain task.now.domain.now) table.new.rows)) }
    ensures unmoved { OnOk result (kept_live (as_domain (D.plain task.now.domain.now)) (kept_rows D.value_of (D.plain task.now.domain.now) table.new.rows) ≡ kept_live (as_domain (D.plain task.now.domain.now)) (kept_rows D.value_of (D.plain task.now.domain.now) table.old.rows) → pending.new.items ≡ pending.old.items) }
    ensures queued { IsQueued (state_of D.value_of (D.plain task.now.domain.now) table.old.rows arcs.now) (heap_items queue.old) → OnOk result (IsQueued (state_of D.value_of (D.plain task.now.domain.now) table.new.rows arcs.now) (heap_items queue.new)) }
{
    if arcs.is_marked(row, number) {
        return Ok(());
    }
    if meet_calls(task, table, arcs, queue, pending, row, number, work)? {
        return unmet.mark_dirty(task.alloc, row, number);
    }
    Ok(())
}

/// Meets pending pairs, until none is left or a row is woken. Whether one is.
fn meet_some<D: Domain, W: Work>(
    task: &Task<D>,
    table: &mut Table<D::Value>,
    arcs: &Arcs,
    unmet: &mut Arcs,
    queue: &mut BinaryHeap<u64>,
    pending: &mut Vec<(u64, u64)>,
    work: &mut W,
) -> Result<bool, AllocError>
    requires well_formed { IsWellFormed task.now.program.now }
    ensures met { OnOk result ((begun : Origin) (cost : ℕ)
        → IsAtWaking (D.plain task.now.domain.now) task.now.program.now task.now.limit begun (W.entries work.old) cost (state_of D.value_of (D.plain task.now.domain.now) table.old.rows arcs.now) (listed pending.old.items) (is_dirty unmet.old)
        → IsAtWaking (D.plain task.now.domain.now) task.now.program.now task.now.limit begun (W.entries work.new) cost (state_of D.value_of (D.plain task.now.domain.now) table.new.rows arcs.now) (listed pending.new.items) (is_dirty unmet.new)) }
    ensures told { OnErr result ((begun : Origin) (cost : ℕ)
        → IsAtWaking (D.plain task.now.domain.now) task.now.program.now task.now.limit begun (W.entries work.old) cost (state_of D.value_of (D.plain task.now.domain.now) table.old.rows arcs.now) (listed pending.old.items) (is_dirty unmet.old)
        → HasLegalLog (D.plain task.now.domain.now) task.now.program.now task.now.limit begun (W.entries work.new)) }
    ensures woken { IfOk result (λ woken. woken ≡ true → kept_live (as_domain (D.plain task.now.domain.now)) (kept_rows D.value_of (D.plain task.now.domain.now) table.old.rows) < kept_live (as_domain (D.plain task.now.domain.now)) (kept_rows D.value_of (D.plain task.now.domain.now) table.new.rows)) }
    ensures whole { IfOk result (λ woken. woken ≡ false → pending.new.items ≡ []) }
    ensures adds { OnOk result (Adds (as_domain (D.plain task.now.domain.now)) task.now.limit (state_of D.value_of (D.plain task.now.domain.now) table.old.rows arcs.now) (state_of D.value_of (D.plain task.now.domain.now) table.new.rows arcs.now)) }
    ensures extends { OnOk result (Extends (as_domain (D.plain task.now.domain.now)) (kept_rows D.value_of (D.plain task.now.domain.now) table.old.rows) (kept_rows D.value_of (D.plain task.now.domain.now) table.new.rows)) }
    ensures queued { IsQueued (state_of D.value_of (D.plain task.now.domain.now) table.old.rows arcs.now) (heap_items queue.old) → OnOk result (IsQueued (state_of D.value_of (D.plain task.now.domain.now) table.new.rows arcs.now) (heap_items queue.new)) }
{
    let before = table.live();
    while let Some((row, number)) = pending.pop() {
        meet_pair(task, table, arcs, unmet, queue, pending, row, number, work)?;
        if before < table.live() {
            return Ok(true);
        }
    }
    Ok(false)
}

/// Meets the pending pairs, and those of the rows that are woken for them.
fn meet_all<D: Domain, W: Work>(
    task: &Task<D>,
    table: &mut Table<D::Value>,
    arcs: &Arcs,
    unmet: &mut Arcs,
    queue: &mut BinaryHeap<u64>,
    pending: &mut Vec<(u64, u64)>,
    work: &mut W,
) -> Result<(), AllocError>
    requires well_formed { IsWellFormed task.now.program.now }
    ensures met { OnOk result ((begun : Origin) (cost : ℕ)
        → IsAtWaking (D.plain task.now.domain.now) task.now.program.now task.now.limit begun (W.entries work.old) cost (state_of D.value_of (D.plain task.now.domain.now) table.old.rows arcs.now) (listed pending.old.items) (is_dirty unmet.old)
        → IsAtWork (D.plain task.now.domain.now) task.now.program.now task.now.limit begun (W.entries work.new) cost (state_of D.value_of (D.plain task.now.domain.now) table.new.rows arcs.now) (is_dirty unmet.new)) }
    ensures told { OnErr result ((begun : Origin) (cost : ℕ)
        → IsAtWaking (D.plain task.now.domain.now) task.now.program.now task.now.limit begun (W.entries work.old) cost (state_of D.value_of (D.plain task.now.domain.now) table.old.rows arcs.now) (listed pending.old.items) (is_dirty unmet.old)
        → HasLegalLog (D.plain task.now.domain.now) task.now.program.now task.now.limit begun (W.entries work.new)) }
    ensures adds { OnOk result (Adds (as_domain (D.plain task.now.domain.now)) task.now.limit (state_of D.value_of (D.plain task.now.domain.now) table.old.rows arcs.now) (state_of D.value_of (D.plain task.now.domain.now) table.new.rows arcs.now)) }
    ensures extends { OnOk result (Extends (as_domain (D.plain task.now.domain.now)) (kept_rows D.value_of (D.plain task.now.domain.now) table.old.rows) (kept_rows D.value_of (D.plain task.now.domain.now) table.new.rows)) }
    ensures queued { IsQueued (state_of D.value_of (D.plain task.now.domain.now) table.old.rows arcs.now) (heap_items queue.old) → OnOk result (IsQueued (state_of D.value_of (D.plain task.now.domain.now) table.new.rows arcs.now) (heap_items queue.new)) }
{
    loop {
        if !meet_some(task, table, arcs, unmet, queue, pending, work)? {
            return Ok(());
        }
    }
}

/// Wakes the rows that the clause, of this number from 1, of the row called, and with them all that they call. Where the limit
/// of live rows left a called row dormant, the pair is marked as unmet.
pub(crate) fn meet_called<D: Domain, W: Work>(
    task: &Task<D>,
    table: &mut Table<D::Value>,
    arcs: &Arcs,
    unmet: &mut Arcs,
    queue: &mut BinaryHeap<u64>,
    row: u64,
    number: u64,
    work: &mut W,
) -> Result<(), AllocError>
    requires well_formed { IsWellFormed task.now.program.now }
    ensures at_work { OnOk result ((begun : Origin) (cost : ℕ)
        → IsAtWaking (D.plain task.now.domain.now) task.now.program.now task.now.limit begun (W.entries work.old) cost (state_of D.value_of (D.plain task.now.domain.now) table.old.rows arcs.now) (with_pair row number no_pair) (is_dirty unmet.old)
        → IsAtWork (D.plain task.now.domain.now) task.now.program.now task.now.limit begun (W.entries work.new) cost (state_of D.value_of (D.plain task.now.domain.now) table.new.rows arcs.now) (is_dirty unmet.new)) }
    ensures told { OnErr result ((begun : Origin) (cost : ℕ)
        → IsAtWaking (D.plain task.now.domain.now) task.now.program.now task.now.limit begun (W.entries work.old) cost (state_of D.value_of (D.plain task.now.domain.now) table.old.rows arcs.now) (with_pair row number no_pair) (is_dirty unmet.old)
        → HasLegalLog (D.plain task.now.domain.now) task.now.program.now task.now.limit begun (W.entries work.new)) }
    ensures adds { OnOk result (Adds (as_domain (D.plain task.now.domain.now)) task.now.limit (state_of D.value_of (D.plain task.now.domain.now) table.old.rows arcs.now) (state_of D.value_of (D.plain task.now.domain.now) table.new.rows arcs.now)) }
    ensures extends { OnOk result (Extends (as_domain (D.plain task.now.domain.now)) (kept_rows D.value_of (D.plain task.now.domain.now) table.old.rows) (kept_rows D.value_of (D.plain task.now.domain.now) table.new.rows)) }
    ensures queued { IsQueued (state_of D.value_of (D.plain task.now.domain.now) table.old.rows arcs.now) (heap_items queue.old) → OnOk result (IsQueued (state_of D.value_of (D.plain task.now.domain.now) table.new.rows arcs.now) (heap_items queue.new)) }
{
    let mut pending = Vec::new(task.alloc);
    meet_pair(
        task,
        table,
        arcs,
        unmet,
        queue,
        &mut pending,
        row,
        number,
        work,
    )?;
    meet_all(task, table, arcs, unmet, queue, &mut pending, work)
}

/// Wakes the row of an entry where it is dormant, and with it all that it calls: it is live then, or the limit of live rows is met.
pub(crate) fn meet_entry<D: Domain, W: Work>(
    task: &Task<D>,
    table: &mut Table<D::Value>,
    arcs: &Arcs,
    unmet: &mut Arcs,
    queue: &mut BinaryHeap<u64>,
    row: u64,
    work: &mut W,
) -> Result<(), AllocError>
    requires well_formed { IsWellFormed task.now.program.now }
    ensures at_work { OnOk result ((begun : Origin) (cost : ℕ) (x : Name PredKey Abs)
        → IsNamed (as_domain (D.plain task.now.domain.now)) (kept_rows D.value_of (D.plain task.now.domain.now) table.old.rows) row x → IsIn x (as_program (D.plain task.now.domain.now) task.now.program.now).entries
        → IsAtWork (D.plain task.now.domain.now) task.now.program.now task.now.limit begun (W.entries work.old) cost (state_of D.value_of (D.plain task.now.domain.now) table.old.rows arcs.now) (is_dirty unmet.old)
        → IsAtWork (D.plain task.now.domain.now) task.now.program.now task.now.limit begun (W.entries work.new) cost (state_of D.value_of (D.plain task.now.domain.now) table.new.rows arcs.now) (is_dirty unmet.new)) }
    ensures told { OnErr result ((begun : Origin) (cost : ℕ) (x : Name PredKey Abs)
        → IsNamed (as_domain (D.plain task.now.domain.now)) (kept_rows D.value_of (D.plain task.now.domain.now) table.old.rows) row x → IsIn x (as_program (D.plain task.now.domain.now) task.now.program.now).entries
        → IsAtWork (D.plain task.now.domain.now) task.now.program.now task.now.limit begun (W.entries work.old) cost (state_of D.value_of (D.plain task.now.domain.now) table.old.rows arcs.now) (is_dirty unmet.old)
        → HasLegalLog (D.plain task.now.domain.now) task.now.program.now task.now.limit begun (W.entries work.new)) }
    ensures live { OnOk result (row < length table.old.rows
        → (is_live (as_domain (D.plain task.now.domain.now)) (kept_rows D.value_of (D.plain task.now.domain.now) table.new.rows) row ≡ true) ⊎ (task.now.limit ≤ kept_live (as_domain (D.plain task.now.domain.now)) (kept_rows D.value_of (D.plain task.now.domain.now) table.new.rows))) }
    ensures extends { OnOk result (Extends (as_domain (D.plain task.now.domain.now)) (kept_rows D.value_of (D.plain task.now.domain.now) table.old.rows) (kept_rows D.value_of (D.plain task.now.domain.now) table.new.rows)) }
    ensures queued { IsQueued (state_of D.value_of (D.plain task.now.domain.now) table.old.rows arcs.now) (heap_items queue.old) → OnOk result (IsQueued (state_of D.value_of (D.plain task.now.domain.now) table.new.rows arcs.now) (heap_items queue.new)) }
{
    let mut pending = Vec::new(task.alloc);
    let _ = rouse(task, table, arcs, queue, &mut pending, row, work)?;
    meet_all(task, table, arcs, unmet, queue, &mut pending, work)
}
