//! Dirty pairs of live rows, worked until none is left.
ghost use Rattle.std.specs.Prelude.{◌≡◌, ℕ, ◌-◌, true, false, IfOk, IfErr, OnOk};
ghost use Rattle.std.specs.BinaryHeap.{heap_items};
ghost use Rattle.plai_clauses.specs.WellFormed.{IsWellFormed};
ghost use Rattle.plai_arcs.specs.Arcs.{is_dirty};
ghost use Rattle.plai_eval.specs.Meaning.{as_domain};
ghost use Rattle.plai_fix_laws.specs.WorkStates.{Extends, IsClean};
ghost use Rattle.plai_fix_rows.specs.Tables.{kept_rows, state_of};
ghost use Rattle.plai_fix_rows.specs.Told.{Start};
ghost use Rattle.plai_fix_rows.specs.Solving.{IsReady};
ghost use Rattle.plai_fix_rows.specs.Moves.{Rests, Settles};
ghost use Rattle.plai_fix.specs.Stops.{Stops};

use crate::pair_work::{Worked, work_pair};
use crate::solve_fail::SolveFail;
use plai_arcs::Arcs;
use plai_base::Steps;
use plai_domain::{Domain, Work};
use plai_fix_rows::{Change, Task, next_pair};
use plai_table::Table;
use std::collections::BinaryHeap;
use std::sync::ledger::Ledger;

/// Works dirty pairs, until none is left, an answer grows or rows come. The dirty clauses fall with each of the others.
fn work_clauses<D: Domain, W: Work, L: Ledger>(
    task: &Task<D>,
    table: &mut Table<D::Value>,
    arcs: &mut Arcs,
    unmet: &mut Arcs,
    queue: &mut BinaryHeap<u64>,
    work: &mut W,
    steps: &mut Steps<L>,
) -> Worked
    ghost begun: { Start }
    requires well_formed { IsWellFormed task.now.program.now }
    requires ready { IsReady (D.plain task.now.domain.now) task.now.program.now task.now.limit begun.origin (W.entries work.old) (steps.old - begun.steps)
        (state_of D.value_of (D.plain task.now.domain.now) table.old.rows arcs.old) (is_dirty unmet.old) (heap_items queue.old) }
    ensures ready { OnOk result (IsReady (D.plain task.now.domain.now) task.now.program.now task.now.limit begun.origin (W.entries work.new)
        (steps.new - begun.steps) (state_of D.value_of (D.plain task.now.domain.now) table.new.rows arcs.new) (is_dirty unmet.new) (heap_items queue.new)) }
    ensures extends { OnOk result (Extends (as_domain (D.plain task.now.domain.now)) (kept_rows D.value_of (D.plain task.now.domain.now) table.old.rows)
        (kept_rows D.value_of (D.plain task.now.domain.now) table.new.rows)) }
    ensures rests { IfOk result (Rests (as_domain (D.plain task.now.domain.now)) task.now.limit (λ pred. (D.plain task.now.domain.now).rank)
        (state_of D.value_of (D.plain task.now.domain.now) table.old.rows arcs.old) (state_of D.value_of
        (D.plain task.now.domain.now) table.new.rows arcs.new)) }
    ensures stops { IfErr result (Stops (D.plain task.now.domain.now) task.now.program.now task.now.limit begun.origin (W.entries work.new)
        (steps.new - begun.steps)) }
{
    while let Some((row, number)) = next_pair(task.domain, table, arcs, queue) {
        match work_pair(task, table, arcs, unmet, queue, row, number, work, steps)? {
            Change::Nothing => {}
            change => return Ok(change),
        }
    }
    Ok(Change::Nothing)
}

/// Works dirty pairs, until none is left, or rows or first answers come. Whether these came. The ranks of the answers fall each
/// other time.
fn work_answers<D: Domain, W: Work, L: Ledger>(
    task: &Task<D>,
    table: &mut Table<D::Value>,
    arcs: &mut Arcs,
    unmet: &mut Arcs,
    queue: &mut BinaryHeap<u64>,
    work: &mut W,
    steps: &mut Steps<L>,
) -> Result<bool, SolveFail>
    ghost begun: { Start }
    requires well_formed { IsWellFormed task.now.program.now }
    requires ready { IsReady (D.plain task.now.domain.now) task.now.program.now task.now.limit begun.origin (W.entries work.old) (steps.old - begun.steps)
        (state_of D.value_of (D.plain task.now.domain.now) table.old.rows arcs.old) (is_dirty unmet.old) (heap_items queue.old) }
    ensures ready { OnOk result (IsReady (D.plain task.now.domain.now) task.now.program.now task.now.limit begun.origin (W.entries work.new)
        (steps.new - begun.steps) (state_of D.value_of (D.plain task.now.domain.now) table.new.rows arcs.new) (is_dirty unmet.new) (heap_items queue.new)) }
    ensures extends { OnOk result (Extends (as_domain (D.plain task.now.domain.now)) (kept_rows D.value_of (D.plain task.now.domain.now) table.old.rows)
        (kept_rows D.value_of (D.plain task.now.domain.now) table.new.rows)) }
    ensures settles { IfOk result (Settles (as_domain (D.plain task.now.domain.now)) task.now.limit
        (state_of D.value_of (D.plain task.now.domain.now) table.old.rows arcs.old) (state_of D.value_of
        (D.plain task.now.domain.now) table.new.rows arcs.new)) }
    ensures stops { IfErr result (Stops (D.plain task.now.domain.now) task.now.program.now task.now.limit begun.origin (W.entries work.new)
        (steps.new - begun.steps)) }
{
    loop {
        match work_clauses(task, table, arcs, unmet, queue, work, steps)? {
            Change::Nothing => return Ok(false),
            Change::Grown => {}
            Change::Opened => return Ok(true),
        }
    }
}

/// Works dirty pairs, until none is left. The room for rows and first answers falls each time.
pub(crate) fn settle<D: Domain, W: Work, L: Ledger>(
    task: &Task<D>,
    table: &mut Table<D::Value>,
    arcs: &mut Arcs,
    unmet: &mut Arcs,
    queue: &mut BinaryHeap<u64>,
    work: &mut W,
    steps: &mut Steps<L>,
) -> Result<(), SolveFail>
    ghost begun: { Start }
    requires well_formed { IsWellFormed task.now.program.now }
    requires ready { IsReady (D.plain task.now.domain.now) task.now.program.now task.now.limit begun.origin (W.entries work.old) (steps.old - begun.steps)
        (state_of D.value_of (D.plain task.now.domain.now) table.old.rows arcs.old) (is_dirty unmet.old) (heap_items queue.old) }
    ensures ready { OnOk result (IsReady (D.plain task.now.domain.now) task.now.program.now task.now.limit begun.origin (W.entries work.new)
        (steps.new - begun.steps) (state_of D.value_of (D.plain task.now.domain.now) table.new.rows arcs.new) (is_dirty unmet.new) (heap_items queue.new)) }
    ensures extends { OnOk result (Extends (as_domain (D.plain task.now.domain.now)) (kept_rows D.value_of (D.plain task.now.domain.now) table.old.rows)
        (kept_rows D.value_of (D.plain task.now.domain.now) table.new.rows)) }
    ensures clean { OnOk result (IsClean (as_domain (D.plain task.now.domain.now)) (state_of D.value_of (D.plain task.now.domain.now) table.new.rows arcs.new)) }
    ensures stops { IfErr result (Stops (D.plain task.now.domain.now) task.now.program.now task.now.limit begun.origin (W.entries work.new)
        (steps.new - begun.steps)) }
{
    loop {
        if !work_answers(task, table, arcs, unmet, queue, work, steps)? {
            return Ok(());
        }
    }
}
