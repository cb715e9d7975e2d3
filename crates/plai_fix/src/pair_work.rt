//! The work of one pair: it is evaluated, its calls are set, its growth is done, and rows are made for what it called.
ghost use Rattle.std.specs.Prelude.{◌≡◌, ℕ, ◌≤◌, ◌<◌, ◌+◌, ◌-◌, nat_eq, Bool, true, false, [], List, Option, Some, None, map, length, slice_get, IfOk, IfErr, OnOk, OnErr};
ghost use Rattle.std.specs.List.{list_any};
ghost use Rattle.std.specs.Option.{option_map};
ghost use Rattle.std.specs.BinaryHeap.{heap_items};
ghost use Rattle.plai_domain.specs.declared.key.Key.{Key};
ghost use Rattle.plai_clauses.specs.Program.{clauses_of};
ghost use Rattle.plai_clauses.specs.WellFormed.{IsWellFormed};
ghost use Rattle.plai_table.specs.Rows.{names_of};
ghost use Rattle.plai_arcs.specs.Arcs.{is_dirty};
ghost use Rattle.plai_eval.specs.Meaning.{as_domain, as_program};
ghost use Rattle.plai_fix_laws.specs.WorkStates.{Extends, is_live};
ghost use Rattle.plai_fix_laws.specs.Changes.{SetsCalls};
ghost use Rattle.plai_fix_laws.specs.LookUps.{Looks};
ghost use Rattle.plai_fix_rows.specs.Tables.{key_name, kept_rows, state_of};
ghost use Rattle.plai_fix_laws.specs.Queues.{IsQueued};
ghost use Rattle.plai_fix_rows.specs.Told.{Start};
ghost use Rattle.plai_fix_rows.specs.Solving.{IsAtWork, IsPastEvaluation};
ghost use Rattle.plai_fix_rows.specs.Moves.{Moves};
ghost use Rattle.plai_fix.specs.Stops.{Stops};
ghost use Rattle.plai_fix_rows.specs.declared.change.Change.TheVariants.{Nothing};

use crate::evaluation::evaluate_pair;
use crate::growing::settle_answer;
use crate::looking::look_up_all;
use crate::solve_fail::SolveFail;
use plai_arcs::Arcs;
use plai_base::Steps;
use plai_clauses::{Clause, Program};
use plai_domain::{Domain, Key, Work};
use plai_eval::Evaluated;
use plai_fix_rows::{Change, Task, place_called, set_pair_calls};
use plai_table::Table;
use std::alloc::AllocError;
use std::collections::BinaryHeap;
use std::sync::ledger::Ledger;

/// What work on pairs comes to: what it changed, or why it comes to no end.
pub(crate) type Worked = Result<Change, SolveFail>;

/// The clause of this number, from 1, of the row's predicate.
fn due_clause<'a, D: Domain>(
    _domain: &D,
    program: &'a Program,
    table: &Table<D::Value>,
    row: u64,
    number: u64,
) -> &'a Clause
    requires row { row < length table.now.rows }
    requires number { 1 ≤ number }
    requires there { (name : Key D.Value) → slice_get (names_of table.now.rows) row ≡ Some name → number ≤ length (clauses_of program.now name.pred) }
    ensures { (name : Key D.Value) → slice_get (names_of table.now.rows) row ≡ Some name
        → slice_get (clauses_of program.now name.pred) (number - 1) ≡ Some result.now }
{
    let clauses = program.clauses_of(&table.row(row).name.pred);
    &clauses[(number - 1) as usize]
}

/// Evaluates a dirty pair of a live row, a clause by its number from 1, and notes it: it is dirty no more, and not marked as unmet.
fn evaluate_due<D: Domain, W: Work, L: Ledger>(
    task: &Task<D>,
    table: &Table<D::Value>,
    arcs: &mut Arcs,
    unmet: &mut Arcs,
    row: u64,
    number: u64,
    work: &mut W,
    steps: &mut Steps<L>,
) -> Result<Evaluated<D>, SolveFail>
    ghost begun: { Start }
    requires well_formed { IsWellFormed task.now.program.now }
    requires at_work { IsAtWork (D.plain task.now.domain.now) task.now.program.now task.now.limit begun.origin (W.entries work.old) (steps.old - begun.steps)
        (state_of D.value_of (D.plain task.now.domain.now) table.now.rows arcs.old) (is_dirty unmet.old) }
    requires dirty { is_dirty arcs.old row number ≡ true }
    requires live { is_live (as_domain (D.plain task.now.domain.now)) (kept_rows D.value_of (D.plain task.now.domain.now) table.now.rows) row ≡ true }
    ensures evaluated { IfOk result (λ e. IsPastEvaluation (D.plain task.now.domain.now) task.now.program.now task.now.limit begun.origin (W.entries work.new)
        (steps.new - begun.steps + 1)
        (state_of D.value_of (D.plain task.now.domain.now) table.now.rows arcs.new) (is_dirty unmet.new) (Some (row, number - 1)) row (number - 1)
        (map (key_name D.value_of) e.calls) (option_map D.value_of e.answer)) }
    ensures moves { OnOk result (Moves (as_domain (D.plain task.now.domain.now)) (as_program (D.plain task.now.domain.now) task.now.program.now) task.now.limit
        (λ pred. (D.plain task.now.domain.now).rank) (state_of D.value_of (D.plain task.now.domain.now) table.now.rows arcs.old)
        (state_of D.value_of (D.plain task.now.domain.now) table.now.rows arcs.new) Nothing) }
    ensures dirty { OnOk result ((r c : ℕ) → is_dirty arcs.new r c ≡ true → is_dirty arcs.old r c ≡ true) }
    ensures some { OnOk result (1 ≤ number) }
    ensures stops { IfErr result (Stops (D.plain task.now.domain.now) task.now.program.now task.now.limit begun.origin (W.entries work.new)
        (steps.new - begun.steps)) }
{
    let clause = due_clause(task.domain, task.program, table, row, number);
    let evaluated = evaluate_pair(
        task.alloc,
        task.domain,
        table,
        arcs,
        row,
        clause,
        number,
        work,
        steps,
    )?;
    unmet.clear_dirty(row, number);
    Ok(evaluated)
}

/// Looks up what the clause, of this number from 1, of the row called, and makes it call the rows that are there.
fn link_calls<D: Domain>(
    task: &Task<D>,
    table: &Table<D::Value>,
    arcs: &mut Arcs,
    row: u64,
    number: u64,
    calls: Vec<Key<D::Value>>,
    rows: &mut Vec<u64>,
    missing: &mut Vec<Key<D::Value>>,
) -> Result<(), AllocError>
    requires number { 1 ≤ number }
    requires rows { rows.old.items ≡ [] }
    requires missing { missing.old.items ≡ [] }
    ensures looks { OnOk result (Looks (as_domain (D.plain task.now.domain.now)) (kept_rows D.value_of (D.plain task.now.domain.now) table.now.rows)
        (map (key_name D.value_of) calls.items) rows.new.items (map (key_name D.value_of) missing.new.items)) }
    ensures sets { OnOk result (SetsCalls (as_domain (D.plain task.now.domain.now)) (state_of D.value_of (D.plain task.now.domain.now) table.now.rows arcs.old)
        (state_of D.value_of (D.plain task.now.domain.now) table.now.rows arcs.new) row (number - 1) (λ j. list_any (nat_eq j) rows.new.items)) }
{
    look_up_all(task.domain, table, calls, rows, missing)?;
    set_pair_calls(
        task.alloc,
        task.domain,
        table,
        arcs,
        row,
        number,
        rows.as_slice(),
    )
}

/// Works a dirty pair of a live row, a clause by its number from 1: its evaluation, its calls, its growth, and live rows for
/// what it called.
pub(crate) fn work_pair<D: Domain, W: Work, L: Ledger>(
    task: &Task<D>,
    table: &mut Table<D::Value>,
    arcs: &mut Arcs,
    unmet: &mut Arcs,
    queue: &mut BinaryHeap<u64>,
    row: u64,
    number: u64,
    work: &mut W,
    steps: &mut Steps<L>,
) -> Worked
    ghost begun: { Start }
    requires well_formed { IsWellFormed task.now.program.now }
    requires at_work { IsAtWork (D.plain task.now.domain.now) task.now.program.now task.now.limit begun.origin (W.entries work.old) (steps.old - begun.steps)
        (state_of D.value_of (D.plain task.now.domain.now) table.old.rows arcs.old) (is_dirty unmet.old) }
    requires dirty { is_dirty arcs.old row number ≡ true }
    requires live { is_live (as_domain (D.plain task.now.domain.now)) (kept_rows D.value_of (D.plain task.now.domain.now) table.old.rows) row ≡ true }
    requires queued { IsQueued (state_of D.value_of (D.plain task.now.domain.now) table.old.rows arcs.old) (heap_items queue.old) }
    ensures at_work { OnOk result (IsAtWork (D.plain task.now.domain.now) task.now.program.now task.now.limit begun.origin (W.entries work.new)
        (steps.new - begun.steps)
        (state_of D.value_of (D.plain task.now.domain.now) table.new.rows arcs.new) (is_dirty unmet.new)) }
    ensures queued { OnOk result (IsQueued (state_of D.value_of (D.plain task.now.domain.now) table.new.rows arcs.new) (heap_items queue.new)) }
    ensures moves { IfOk result (Moves (as_domain (D.plain task.now.domain.now)) (as_program (D.plain task.now.domain.now) task.now.program.now) task.now.limit
        (λ pred. (D.plain task.now.domain.now).rank) (state_of D.value_of (D.plain task.now.domain.now) table.old.rows arcs.old)
        (state_of D.value_of (D.plain task.now.domain.now) table.new.rows arcs.new)) }
    ensures extends { OnOk result (Extends (as_domain (D.plain task.now.domain.now)) (kept_rows D.value_of (D.plain task.now.domain.now) table.old.rows)
        (kept_rows D.value_of (D.plain task.now.domain.now) table.new.rows)) }
    ensures stops { IfErr result (Stops (D.plain task.now.domain.now) task.now.program.now task.now.limit begun.origin (W.entries work.new)
        (steps.new - begun.steps)) }
{
    let Evaluated { answer, calls } = evaluate_due(
        task, table, arcs, unmet, row, number, work, steps,
    )?;
    let mut rows = Vec::new(task.alloc);
    let mut missing = Vec::new(task.alloc);
    link_calls(
        task,
        table,
        arcs,
        row,
        number,
        calls.into_vec(),
        &mut rows,
        &mut missing,
    )?;
    let grown = settle_answer(task, table, arcs, queue, row, answer, work, steps)?;
    let placed = place_called(
        task, table, arcs, unmet, queue, row, number, rows, missing, work,
    )?;
    Ok(grown.and(placed))
}
