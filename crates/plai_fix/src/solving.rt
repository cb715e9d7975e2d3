//! Work on a program until its log ends.
ghost use Rattle.std.specs.Prelude.{◌≡◌, ℕ, ◌-◌, ◌<◌, [], true, false, Bool, List, Option, None, length, IfOk, IfErr, OnOk};
ghost use Rattle.std.specs.BinaryHeap.{heap_items};
ghost use Rattle.plai_theory.specs.Domain.{Name};
ghost use Rattle.plai_terms.specs.declared.abs.Abs.{Abs};
ghost use Rattle.plai_terms.specs.declared.pred_key.PredKey.{PredKey};
ghost use Rattle.plai_domain.specs.declared.work.WorkEntry.{WorkEntry};
ghost use Rattle.plai_clauses.specs.WellFormed.{IsWellFormed};
ghost use Rattle.plai_arcs.specs.Arcs.{is_dirty, is_call};
ghost use Rattle.plai_eval.specs.Meaning.{as_domain, as_program};
ghost use Rattle.plai_fix_laws.specs.WorkStates.{IsNamed, IsClean, AreOpened};
ghost use Rattle.plai_fix_rows.specs.Tables.{kept_rows, state_of};
ghost use Rattle.plai_fix_laws.specs.Logs.{Opens};
ghost use Rattle.plai_fix_rows.specs.Told.{start_of, PlainRow, Origin, work_over, Start, HasLog};
ghost use Rattle.plai_fix_rows.specs.Solving.{IsAtWork};
ghost use Rattle.plai_fix.specs.Stops.{IsSolvedBy, Stops};
ghost use Rattle.plai_fix_rows.specs.Marks.{AreMarked};

use crate::settling::settle;
use crate::solve_fail::SolveFail;
use plai_arcs::Arcs;
use plai_base::Steps;
use plai_clauses::Program;
use plai_domain::{Domain, Work};
use plai_fix_rows::{Task, entry_keys, mark_entries, place_entries};
use plai_table::Table;
use std::alloc::Global;
use std::collections::BinaryHeap;
use std::sync::ledger::Ledger;

/// Whether a pair of one of so many rows is marked.
fn has_mark(marks: &Arcs, rows: u64) -> bool
    requires { (r c : ℕ) → is_dirty marks.now r c ≡ true → r < rows }
    ensures marked { result ≡ true → (r : ℕ) × (c : ℕ) × (is_dirty marks.now r c ≡ true) }
    ensures free { result ≡ false → (r c : ℕ) → is_dirty marks.now r c ≡ false }
{
    for row in 0..rows {
        if marks.next_dirty(row).is_some() {
            return true;
        }
    }
    false
}

/// Marks the entries' rows, where no pair of a live row is dirty. `Rows` where an entry or a pair that is marked as unmet asks
/// for a row that isn't live.
fn finish<D: Domain>(
    task: &Task<D>,
    table: &mut Table<D::Value>,
    _arcs: &Arcs,
    unmet: &Arcs,
) -> Result<(), SolveFail>
    requires well_formed { IsWellFormed task.now.program.now }
    requires clean { IsClean (as_domain (D.plain task.now.domain.now)) (state_of D.value_of (D.plain task.now.domain.now) table.old.rows _arcs.now) }
    requires opened { AreOpened (as_domain (D.plain task.now.domain.now)) (as_program (D.plain task.now.domain.now) task.now.program.now) task.now.limit
        (kept_rows D.value_of (D.plain task.now.domain.now) table.old.rows) }
    requires one_row { (i j : ℕ) (y : Name PredKey Abs) → IsNamed (as_domain (D.plain task.now.domain.now))
        (kept_rows D.value_of (D.plain task.now.domain.now) table.old.rows) i y
        → IsNamed (as_domain (D.plain task.now.domain.now)) (kept_rows D.value_of (D.plain task.now.domain.now) table.old.rows) j y → i ≡ j }
    requires unmet { (r c : ℕ) → is_dirty unmet.now r c ≡ true → r < length table.old.rows }
    ensures solved { OnOk result ((begun : Origin) (told : Option (List WorkEntry)) (cost : ℕ)
        → IsAtWork (D.plain task.now.domain.now) task.now.program.now task.now.limit begun told cost
        (state_of D.value_of (D.plain task.now.domain.now) table.old.rows _arcs.now) (is_dirty unmet.now)
        → HasLog (D.plain task.now.domain.now) task.now.program.now begun.told told cost (IsSolvedBy
        (D.plain task.now.domain.now) task.now.program.now task.now.limit (start_of (D.plain task.now.domain.now) begun) (state_of D.value_of (D.plain task.now.domain.now) table.new.rows _arcs.now))) }
    ensures marked { OnOk result (AreMarked D.value_of (D.plain task.now.domain.now) task.now.program.now table.new.rows) }
    ensures stops { IfErr result (λ fail. (begun : Origin) (told : Option (List WorkEntry)) (cost : ℕ)
        → IsAtWork (D.plain task.now.domain.now) task.now.program.now task.now.limit begun told cost
        (state_of D.value_of (D.plain task.now.domain.now) table.old.rows _arcs.now) (is_dirty unmet.now)
        → Stops (D.plain task.now.domain.now) task.now.program.now task.now.limit begun told cost fail) }
{
    let keys = entry_keys(task)?;
    if !mark_entries(task.domain, table, keys.as_slice()) {
        return Err(SolveFail::Rows(task.limit));
    }
    if has_mark(unmet, table.len()) {
        return Err(SolveFail::Rows(task.limit));
    }
    Ok(())
}

/// The work of [`solve`].
fn solve_task<D: Domain, W: Work, L: Ledger>(
    task: &Task<D>,
    table: &mut Table<D::Value>,
    arcs: &mut Arcs,
    work: &mut W,
    steps: &mut Steps<L>,
) -> Result<(), SolveFail>
    ghost begun: { Start }
    requires well_formed { IsWellFormed task.now.program.now }
    requires opens { Opens (as_domain (D.plain task.now.domain.now)) (as_program (D.plain task.now.domain.now) task.now.program.now) (start_of (D.plain task.now.domain.now) begun.origin) (state_of D.value_of (D.plain task.now.domain.now) table.old.rows arcs.old) }
    requires told { W.entries work.old ≡ begun.origin.told }
    requires steps { steps.old ≡ begun.steps }
    ensures solved { OnOk result (HasLog (D.plain task.now.domain.now) task.now.program.now begun.origin.told (W.entries work.new) (steps.new - begun.steps)
        (IsSolvedBy (D.plain task.now.domain.now) task.now.program.now task.now.limit (start_of (D.plain task.now.domain.now) begun.origin) (state_of D.value_of
        (D.plain task.now.domain.now) table.new.rows arcs.new))) }
    ensures marked { OnOk result (AreMarked D.value_of (D.plain task.now.domain.now) task.now.program.now table.new.rows) }
    ensures stops { IfErr result (Stops (D.plain task.now.domain.now) task.now.program.now task.now.limit begun.origin (W.entries work.new)
        (steps.new - begun.steps)) }
{
    let mut unmet = Arcs::new(task.alloc)?;
    let mut queue = BinaryHeap::new(task.alloc);
    let keys = entry_keys(task)?;
    place_entries(task, table, arcs, &mut unmet, &mut queue, keys, work)?;
    settle(task, table, arcs, &mut unmet, &mut queue, work, steps)?;
    finish(task, table, arcs, &unmet)
}

/// Works on a program until its log ends, with at most `limit` live rows, from the dormant rows of a table and the calls and
/// dirty pairs of its arcs. Each dirty pair of a live row and a clause is evaluated, that of the newest row first, its calls are
/// recorded, its growth is done, which makes pairs of dormant rows dirty too, and rows are made for what it called. A dormant
/// row that is called or is an entry's is woken, and with it all that it calls (Hermenegildo, Puebla, Marriott and Stuckey
/// 2000). What is done is noted, and the log of it is legal.
///
/// `Rows` names the limit, and comes only where it is met, no pair of a live row is dirty, no growth is due, and a further name
/// is demanded. `Groups` comes exactly where an evaluation forms a set of more than 65,536 groups, and names it. After a
/// refusal the table and the arcs are of no use. An evaluation takes as many steps as its clause costs and one for the join.
pub fn solve<D: Domain, W: Work, L: Ledger>(
    alloc: Global,
    domain: &D,
    program: &Program,
    table: &mut Table<D::Value>,
    arcs: &mut Arcs,
    limit: u64,
    work: &mut W,
    steps: &mut Steps<L>,
) -> Result<(), SolveFail>
    ghost start: { List PlainRow }
    requires { Opens (as_domain (D.plain domain.now)) (as_program (D.plain domain.now) program.now) (work_over (D.plain domain.now) start) (state_of D.value_of (D.plain domain.now) table.old.rows arcs.old) }
    ensures solved { OnOk result (HasLog (D.plain domain.now) program.now (W.entries work.old) (W.entries work.new) (steps.new - steps.old)
        (IsSolvedBy (D.plain domain.now) program.now limit (work_over (D.plain domain.now) start) (state_of D.value_of (D.plain domain.now) table.new.rows arcs.new))) }
    ensures marked { OnOk result (AreMarked D.value_of (D.plain domain.now) program.now table.new.rows) }
    ensures stops { IfErr result (Stops (D.plain domain.now) program.now limit (record { rows = start; told = W.entries work.old })
        (W.entries work.new) (steps.new - steps.old)) }
{
    program.is_program();
    let task = Task {
        alloc,
        domain,
        program,
        limit,
    };
    solve_task(&task, table, arcs, work, steps)
}
