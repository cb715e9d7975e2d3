//! Dormant rows that are live again, and with them all that they call.
ghost use Rattle.std.specs.Prelude.{◌≡◌, ◌⊎◌, ◌≤◌, ◌<◌, ◌&&◌, ◌||◌, ℕ, not, nat_eq, Bool, true, false, [], List, Option, length, slice_get, Some, IfOk, OnOk, OnErr};
ghost use Rattle.std.specs.BinaryHeap.{heap_items};
ghost use Rattle.plai_domain.specs.declared.key.Key.{Key};
ghost use Rattle.plai_domain.specs.declared.work.WorkEntry.{WorkEntry};
ghost use Rattle.plai_domain.specs.declared.work.WorkEntry.TheVariants as entries;
ghost use Rattle.plai_domain.specs.Names.{name_of};
ghost use Rattle.plai_domain.specs.Noted.{noted};
ghost use Rattle.plai_clauses.specs.Program.{clauses_of};
ghost use Rattle.plai_clauses.specs.WellFormed.{IsWellFormed};
ghost use Rattle.plai_table.specs.Rows.{names_of};
ghost use Rattle.plai_arcs.specs.Arcs.{is_dirty, is_call};
ghost use Rattle.plai_eval.specs.Meaning.{as_domain, as_program};
ghost use Rattle.plai_fix_laws.specs.WorkStates.{Extends, is_live, with_pair, kept_live};
ghost use Rattle.plai_fix_laws.specs.Changes.{Wakes};
ghost use Rattle.plai_fix_rows.specs.Tables.{kept_rows, state_of};
ghost use Rattle.plai_fix_laws.specs.Queues.{IsQueued, Awaits};
ghost use Rattle.plai_fix_rows.specs.Solving.{Rouses, listed};
ghost use Rattle.plai_fix_laws.specs.Measures.{Adds};

use crate::present::is_dormant;
use crate::queue::push_row;
use crate::task::Task;
use plai_arcs::Arcs;
use plai_domain::{Domain, Work};
use plai_table::Table;
use std::alloc::AllocError;
use std::collections::BinaryHeap;

/// Puts the row's clauses from 1 to this number behind the pending pairs.
fn await_pairs(pending: &mut Vec<(u64, u64)>, row: u64, last: u64) -> Result<(), AllocError>
    ensures { OnOk result (Awaits row last (listed pending.old.items) (listed pending.new.items)) }
{
    let mut number: u64 = 0;
    while number < last {
        number += 1;
        pending.push((row, number))?;
    }
    Ok(())
}

/// Makes the row live, queues it, puts its pairs behind the pending ones, and notes it. A refusal notes nothing.
fn wake_row<D: Domain, W: Work>(
    task: &Task<D>,
    table: &mut Table<D::Value>,
    _arcs: &Arcs,
    queue: &mut BinaryHeap<u64>,
    pending: &mut Vec<(u64, u64)>,
    row: u64,
    work: &mut W,
) -> Result<(), AllocError>
    requires { row < length table.old.rows }
    ensures wakes { OnOk result (Wakes (as_domain (D.plain task.now.domain.now)) (state_of D.value_of (D.plain task.now.domain.now) table.old.rows _arcs.now) (state_of D.value_of (D.plain task.now.domain.now) table.new.rows _arcs.now) row) }
    ensures awaits { OnOk result ((name : Key D.Value) → slice_get (names_of table.old.rows) row ≡ Some name
        → Awaits row (length (clauses_of task.now.program.now name.pred)) (listed pending.old.items) (listed pending.new.items)) }
    ensures noted { OnOk result ((name : Key D.Value) → slice_get (names_of table.old.rows) row ≡ Some name
        → W.entries work.new ≡ noted (entries.Woke (name_of D.value_of name)) (W.entries work.old)) }
    ensures queued { IsQueued (state_of D.value_of (D.plain task.now.domain.now) table.old.rows _arcs.now) (heap_items queue.old) → OnOk result (IsQueued (state_of D.value_of (D.plain task.now.domain.now) table.new.rows _arcs.now) (heap_items queue.new)) }
    ensures nothing { OnErr result (W.entries work.new ≡ W.entries work.old) }
{
    let last = task.program.clauses_of(&table.row(row).name.pred).len() as u64;
    await_pairs(pending, row, last)?;
    push_row(queue, row)?;
    work.note_woke(task.alloc, task.domain, table.row(row).name)?;
    table.wake(row);
    Ok(())
}

/// Makes the row live, and notes that it is woken, unless it is live or the limit of live rows is met. Whether it is live then.
/// A refusal notes nothing.
pub(crate) fn rouse<D: Domain, W: Work>(
    task: &Task<D>,
    table: &mut Table<D::Value>,
    arcs: &Arcs,
    queue: &mut BinaryHeap<u64>,
    pending: &mut Vec<(u64, u64)>,
    row: u64,
    work: &mut W,
) -> Result<bool, AllocError>
    ensures roused { IfOk result (λ live. row < length table.old.rows → Rouses (D.plain task.now.domain.now) task.now.program.now task.now.limit row (state_of D.value_of (D.plain task.now.domain.now) table.old.rows arcs.now) (W.entries work.old)
        (listed pending.old.items) (state_of D.value_of (D.plain task.now.domain.now) table.new.rows arcs.now) (W.entries work.new) (listed pending.new.items) live) }
    ensures adds { OnOk result (Adds (as_domain (D.plain task.now.domain.now)) task.now.limit (state_of D.value_of (D.plain task.now.domain.now) table.old.rows arcs.now) (state_of D.value_of (D.plain task.now.domain.now) table.new.rows arcs.now)) }
    ensures extends { OnOk result (Extends (as_domain (D.plain task.now.domain.now)) (kept_rows D.value_of (D.plain task.now.domain.now) table.old.rows) (kept_rows D.value_of (D.plain task.now.domain.now) table.new.rows)) }
    ensures unmoved { OnOk result (kept_live (as_domain (D.plain task.now.domain.now)) (kept_rows D.value_of (D.plain task.now.domain.now) table.new.rows) ≡ kept_live (as_domain (D.plain task.now.domain.now)) (kept_rows D.value_of (D.plain task.now.domain.now) table.old.rows) → pending.new.items ≡ pending.old.items) }
    ensures queued { IsQueued (state_of D.value_of (D.plain task.now.domain.now) table.old.rows arcs.now) (heap_items queue.old) → OnOk result (IsQueued (state_of D.value_of (D.plain task.now.domain.now) table.new.rows arcs.now) (heap_items queue.new)) }
    ensures nothing { OnErr result (W.entries work.new ≡ W.entries work.old) }
{
    if !is_dormant(task.domain, table, row) {
        return Ok(true);
    }
    if task.limit <= table.live() {
        return Ok(false);
    }
    wake_row(task, table, arcs, queue, pending, row, work)?;
    Ok(true)
}
