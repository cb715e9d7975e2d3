//! Answers of rows that grow by those of evaluations.
ghost use Rattle.std.specs.Prelude.{◌≡◌, ℕ, ◌≤◌, ◌+◌, ◌-◌, ◌<◌, Bool, Some, None, List, Option, length, slice_get, IfOk, OnOk, OnErr};
ghost use Rattle.std.specs.Option.{option_map};
ghost use Rattle.std.specs.BinaryHeap.{heap_items};
ghost use Rattle.plai_theory.specs.Domain.{Name};
ghost use Rattle.plai_terms.specs.declared.abs.Abs.{Abs};
ghost use Rattle.plai_terms.specs.declared.pred_key.PredKey.{PredKey};
ghost use Rattle.plai_domain.specs.declared.key.Key.{Key};
ghost use Rattle.plai_domain.specs.declared.work.WorkEntry.{WorkEntry};
ghost use Rattle.plai_domain.specs.declared.work.WorkEntry.TheVariants as entries;
ghost use Rattle.plai_domain.specs.Conditions.{AreAlike};
ghost use Rattle.plai_domain.specs.Names.{name_of};
ghost use Rattle.plai_domain.specs.Noted.{noted};
ghost use Rattle.plai_clauses.specs.WellFormed.{IsWellFormed};
ghost use Rattle.plai_table.specs.Rows.{TableRow, names_of};
ghost use Rattle.plai_arcs.specs.Arcs.{is_dirty};
ghost use Rattle.plai_eval.specs.Meaning.{as_domain, as_program};
ghost use Rattle.plai_fix_laws.specs.WorkStates.{Extends};
ghost use Rattle.plai_fix_rows.specs.Tables.{kept_rows, state_of};
ghost use Rattle.plai_fix_laws.specs.Changes.{Answers};
ghost use Rattle.plai_fix_laws.specs.Queues.{IsQueued};
ghost use Rattle.plai_fix_rows.specs.Told.{Origin};
ghost use Rattle.plai_fix_rows.specs.Solving.{IsPastEvaluation, IsPastGrowth};
ghost use Rattle.plai_fix_rows.specs.Moves.{Shifts};

use crate::joining::growth;
use plai_arcs::Arcs;
use plai_base::Steps;
use plai_domain::{Domain, Work};
use plai_fix_rows::{Change, Task, callers_of, mark_pairs, push_rows};
use plai_table::Table;
use std::alloc::AllocError;
use std::collections::BinaryHeap;
use std::sync::ledger::Ledger;

/// Gives the row this answer, marks and queues the pairs that call it, and notes it. A refusal notes nothing.
pub(crate) fn grow_row<D: Domain, W: Work>(
    task: &Task<D>,
    table: &mut Table<D::Value>,
    arcs: &mut Arcs,
    queue: &mut BinaryHeap<u64>,
    row: u64,
    answer: D::Value,
    work: &mut W,
) -> Result<(), AllocError>
    requires { row < length table.old.rows }
    ensures answers { OnOk result (Answers (as_domain (D.plain task.now.domain.now)) (state_of D.value_of (D.plain task.now.domain.now) table.old.rows arcs.old)
        (state_of D.value_of (D.plain task.now.domain.now) table.new.rows arcs.new) row (Some (D.value_of answer))) }
    ensures noted { OnOk result ((name : Key D.Value) → slice_get (names_of table.old.rows) row ≡ Some name
        → W.entries work.new ≡ noted (entries.Grew (name_of D.value_of name) (D.value_of answer)) (W.entries work.old)) }
    ensures queued { IsQueued (state_of D.value_of (D.plain task.now.domain.now) table.old.rows arcs.old) (heap_items queue.old) → OnOk result (IsQueued (state_of D.value_of (D.plain task.now.domain.now) table.new.rows arcs.new) (heap_items queue.new)) }
    ensures nothing { OnErr result (W.entries work.new ≡ W.entries work.old) }
{
    let callers = callers_of(task.alloc, arcs, row)?;
    mark_pairs(task.alloc, arcs, &callers)?;
    push_rows(queue, &callers)?;
    work.note_grew(task.alloc, task.domain, table.row(row).name, &answer)?;
    table.raise(row, answer);
    Ok(())
}

/// The growth that is due behind the evaluation of a clause of the row, which gave this answer or none. It takes at most one
/// step. A refusal notes nothing.
pub(crate) fn settle_answer<D: Domain, W: Work, L: Ledger>(
    task: &Task<D>,
    table: &mut Table<D::Value>,
    arcs: &mut Arcs,
    queue: &mut BinaryHeap<u64>,
    row: u64,
    answer: Option<D::Value>,
    work: &mut W,
    steps: &mut Steps<L>,
) -> Result<Change, AllocError>
    requires well_formed { IsWellFormed task.now.program.now }
    requires row { row < length table.old.rows }
    requires alike { (r : TableRow D.Value) (a b : D.Value) → slice_get table.old.rows row ≡ Some r → r.answer ≡ Some a → answer ≡ Some b
        → AreAlike (D.plain task.now.domain.now) (D.value_of a) (D.value_of b) }
    ensures settled { IfOk result (λ change. (begun : Origin) (cost : ℕ) (unmet : ℕ → ℕ → Bool) (i : ℕ) (called : List (Name PredKey Abs))
        → IsPastEvaluation (D.plain task.now.domain.now) task.now.program.now task.now.limit begun (W.entries work.old) cost
        (state_of D.value_of (D.plain task.now.domain.now) table.old.rows arcs.old) unmet None row i called (option_map D.value_of answer)
        → IsPastGrowth (D.plain task.now.domain.now) task.now.program.now task.now.limit begun (W.entries work.new) cost
        (state_of D.value_of (D.plain task.now.domain.now) table.new.rows arcs.new) unmet None row i called
        × Shifts (as_domain (D.plain task.now.domain.now)) (as_program (D.plain task.now.domain.now) task.now.program.now) task.now.limit
        (λ pred. (D.plain task.now.domain.now).rank) (state_of D.value_of (D.plain task.now.domain.now) table.old.rows arcs.old)
        (state_of D.value_of (D.plain task.now.domain.now) table.new.rows arcs.new) change) }
    ensures queued { IsQueued (state_of D.value_of (D.plain task.now.domain.now) table.old.rows arcs.old) (heap_items queue.old) → OnOk result (IsQueued (state_of D.value_of (D.plain task.now.domain.now) table.new.rows arcs.new) (heap_items queue.new)) }
    ensures extends { OnOk result (Extends (as_domain (D.plain task.now.domain.now)) (kept_rows D.value_of (D.plain task.now.domain.now) table.old.rows)
        (kept_rows D.value_of (D.plain task.now.domain.now) table.new.rows)) }
    ensures nothing { OnErr result (W.entries work.new ≡ W.entries work.old) }
    ensures cost { steps.new ≤ steps.old + 1 }
{
    let had = table.row(row).answer;
    let is_first = had.is_none();
    match growth(task.alloc, task.domain, had, answer, steps)? {
        None => Ok(Change::Nothing),
        Some(value) => {
            grow_row(task, table, arcs, queue, row, value, work)?;
            Ok(Change::of_growth(is_first))
        }
    }
}
