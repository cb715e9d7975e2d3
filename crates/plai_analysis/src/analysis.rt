//! The analysis of a program by legal work.
ghost use Rattle.std.specs.Prelude.{◌≡◌, ◌-◌, Option, None, Some, IfOk, IfErr, OnOk};
ghost use Rattle.plai_eval.specs.Meaning.{as_domain, as_program};
ghost use Rattle.plai_eval.specs.Stops.{IsOver};
ghost use Rattle.plai_clauses.specs.Program.{ProgramView};
ghost use Rattle.plai_analysis.specs.Table.{IsTextTable};
ghost use Rattle.plai_repair.specs.Lost.{AreTouched};
ghost use Rattle.plai_fix_laws.specs.Logs.{Opens};
ghost use Rattle.plai_fix_rows.specs.Tables.{state_of};
ghost use Rattle.plai_fix_rows.specs.Told.{work_over};
ghost use Rattle.plai_analysis.specs.Causes.{HasCause};
ghost use Rattle.plai_analysis.specs.Kept.{IsKeptTable};
ghost use Rattle.plai_analysis.specs.Solved.{opened_rows, IsSolvedWork};
ghost use Rattle.plai_analysis.specs.Starts.{IsStart, AreFine};
ghost use Rattle.plai_analysis.specs.Work.{HasEnded, HasStopped, HasWhole, StopsFrom};

use crate::analysed::Analysed;
use crate::table::{texts_again, texts_of_table};
use indexmap::IndexSet;
use plai_arcs::Arcs;
use plai_base::Steps;
use plai_clauses::Program;
use plai_domain::{Domain, Work};
use plai_fix::{SolveFail, solve};
use plai_repair::{is_quiet, keep_reachable, open_state};
use plai_table::Table;
use plai_terms::PredKey;
use std::alloc::{AllocError, Global};
use std::sync::ledger::Ledger;

/// Where work on the program has ended: the rows that calls reach from the entries' are kept, and are made texts, with what they
/// say of the program's assertions.
fn conclude<D: Domain>(
    alloc: Global,
    domain: &D,
    program: &Program,
    mut table: Table<D::Value>,
    mut arcs: Arcs,
    limit: u64,
) -> Result<Analysed<D::Value>, AllocError>
    requires { IsSolvedWork D.value_of (D.plain domain.now) program.now limit table.rows arcs }
    ensures table { IfOk result (λ analysed. IsTextTable (D.plain domain.now) program.now limit analysed.texts) }
    ensures kept { IfOk result (λ analysed. IsKeptTable D.value_of (D.plain domain.now) program.now limit analysed.table.rows analysed.arcs) }
{
    program.is_program();
    keep_reachable(alloc, program, &mut table, &mut arcs)?;
    let texts = texts_of_table(alloc, domain, program, &table, limit)?;
    Ok(Analysed { texts, table, arcs })
}

/// Works on the program from the rows of a table and its arcs, until the log ends, and concludes.
fn work_on<D: Domain, W: Work, L: Ledger>(
    alloc: Global,
    domain: &D,
    program: &Program,
    mut table: Table<D::Value>,
    mut arcs: Arcs,
    limit: u64,
    work: &mut W,
    steps: &mut Steps<L>,
) -> Result<Analysed<D::Value>, SolveFail>
    requires start { (was : Option ProgramView) × IsStart (D.plain domain.now) was program.now (opened_rows D.value_of (D.plain domain.now) program.now table.rows arcs) }
    requires opens { Opens (as_domain (D.plain domain.now)) (as_program (D.plain domain.now) program.now)
        (work_over (D.plain domain.now) (opened_rows D.value_of (D.plain domain.now) program.now table.rows arcs)) (state_of D.value_of (D.plain domain.now) table.rows arcs) }
    ensures table { IfOk result (λ analysed. IsTextTable (D.plain domain.now) program.now limit analysed.texts) }
    ensures kept { IfOk result (λ analysed. IsKeptTable D.value_of (D.plain domain.now) program.now limit analysed.table.rows analysed.arcs) }
    ensures not_over { OnOk result ((was : Option ProgramView) → IsStart (D.plain domain.now) was program.now (opened_rows D.value_of (D.plain domain.now) program.now table.rows arcs)
        → AreFine (D.plain domain.now) was → ¬ IsOver (D.plain domain.now) program.now) }
    ensures causes { IfErr result (HasCause (D.plain domain.now) program.now limit) }
    ensures work { OnOk result ((was : Option ProgramView) → IsStart (D.plain domain.now) was program.now (opened_rows D.value_of (D.plain domain.now) program.now table.rows arcs)
        → HasWhole (D.plain domain.now) was program.now limit (W.entries work.old) (W.entries work.new) (steps.new - steps.old)) }
    ensures stopped { IfErr result (λ fail. (was : Option ProgramView) → IsStart (D.plain domain.now) was program.now (opened_rows D.value_of (D.plain domain.now) program.now table.rows arcs)
        → StopsFrom (D.plain domain.now) was program.now limit (W.entries work.old) (W.entries work.new) (steps.new - steps.old) fail) }
{
    program.is_program();
    if let Err(fail) = solve(
        alloc, domain, program, &mut table, &mut arcs, limit, work, steps,
    ) {
        return Err(fail);
    }
    match conclude(alloc, domain, program, table, arcs, limit) {
        Ok(analysed) => Ok(analysed),
        Err(_) => Err(SolveFail::Memory),
    }
}

/// The least table of the program under the domain, as text, in the order of a table, and what it says of the program's
/// assertions: by work that begins with no rows and takes what is dirty, the newest row first (Hermenegildo, Puebla, Marriott
/// and Stuckey 2000). The rows of the table are handed out with it, and what their clauses call.
///
/// `Rows` names the limit, and comes only where more names than the limit are asked for, each at or below a name of the least
/// table of the same predicate; so a table has at most as many rows as the limit says. `Groups` comes only where an evaluation
/// of the program forms a set of more than 65,536 groups, names such an evaluation, and a table comes only where none does.
///
/// What is noted is a legal log, and it ends where there is a table. At `Rows` as many rows are live behind it as the limit
/// says, no pair of one is dirty, no growth is due, and a further name is demanded. An evaluation takes as many steps as its
/// clause costs, and one for the join.
pub fn analyse<D: Domain, W: Work, L: Ledger>(
    alloc: Global,
    domain: &D,
    program: &Program,
    limit: u64,
    work: &mut W,
    steps: &mut Steps<L>,
) -> Result<Analysed<D::Value>, SolveFail>
    ensures table { IfOk result (λ analysed. IsTextTable (D.plain domain.now) program.now limit analysed.texts) }
    ensures kept { IfOk result (λ analysed. IsKeptTable D.value_of (D.plain domain.now) program.now limit analysed.table.rows analysed.arcs) }
    ensures not_over { OnOk result (¬ IsOver (D.plain domain.now) program.now) }
    ensures causes { IfErr result (HasCause (D.plain domain.now) program.now limit) }
    ensures work { OnOk result (HasEnded (D.plain domain.now) None program.now limit (W.entries work.old) (W.entries work.new) (steps.new - steps.old)) }
    ensures stopped { IfErr result (HasStopped (D.plain domain.now) None program.now limit (W.entries work.old) (W.entries work.new) (steps.new - steps.old)) }
{
    let table = Table::new(alloc)?;
    let arcs = Arcs::new(alloc)?;
    work_on(alloc, domain, program, table, arcs, limit, work, steps)
}

/// The same of the program behind an edit of the program `was`, from what its analysis keeps (Hermenegildo, Puebla, Marriott and
/// Stuckey 2000). A quiet edit, which leaves the entries and the clauses of each predicate that has a row, takes no step, notes
/// nothing, and keeps the rows, with their texts where it leaves the assertions too. Else the rows from which calls lead to a
/// predicate that lost a clause are gone, and work begins with the others, dormant, with their answers; the clauses that their
/// predicates gained are dirty. The edit touches these predicates: clauses of others aren't compared.
///
/// Table and stops are as [`analyse`]'s, but that the rows in the making may be others: a stop at the limit comes only where
/// more names than the limit are asked for by work that began with no rows or with those that an edit keeps.
pub fn analyse_again<D: Domain, W: Work, L: Ledger>(
    alloc: Global,
    domain: &D,
    was: &Program,
    kept: Analysed<D::Value>,
    program: &Program,
    touched: &IndexSet<PredKey>,
    limit: u64,
    work: &mut W,
    steps: &mut Steps<L>,
) -> Result<Analysed<D::Value>, SolveFail>
    requires touched { AreTouched was.now program.now touched.now.keys }
    requires own { IsTextTable (D.plain domain.now) was.now limit kept.texts }
    requires kept { IsKeptTable D.value_of (D.plain domain.now) was.now limit kept.table.rows kept.arcs }
    requires fine { ¬ IsOver (D.plain domain.now) was.now }
    ensures table { IfOk result (λ analysed. IsTextTable (D.plain domain.now) program.now limit analysed.texts) }
    ensures kept { IfOk result (λ analysed. IsKeptTable D.value_of (D.plain domain.now) program.now limit analysed.table.rows analysed.arcs) }
    ensures not_over { OnOk result (¬ IsOver (D.plain domain.now) program.now) }
    ensures causes { IfErr result (HasCause (D.plain domain.now) program.now limit) }
    ensures work { OnOk result (HasEnded (D.plain domain.now) (Some was.now) program.now limit (W.entries work.old) (W.entries work.new) (steps.new - steps.old)) }
    ensures stopped { IfErr result (HasStopped (D.plain domain.now) (Some was.now) program.now limit (W.entries work.old) (W.entries work.new) (steps.new - steps.old)) }
{
    was.is_program();
    program.is_program();
    let Analysed {
        texts,
        mut table,
        mut arcs,
    } = kept;
    if is_quiet(&table, was, program, touched) {
        let texts = texts_again(alloc, domain, was, program, texts, &table, limit)?;
        return Ok(Analysed { texts, table, arcs });
    }
    open_state(alloc, domain, &mut table, &mut arcs, was, program, touched)?;
    work_on(alloc, domain, program, table, arcs, limit, work, steps)
}
