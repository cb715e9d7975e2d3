//! Evaluations under the rows of a table.
ghost use Rattle.std.specs.Prelude.{◌≡◌, ◌≤◌, ◌<◌, ◌+◌, ◌-◌, Some, map, length, slice_get, IfOk, IfErr, OnOk, OnErr};
ghost use Rattle.std.specs.Option.{option_map};
ghost use Rattle.plai_domain.specs.declared.work.WorkEntry.TheVariants as entries;
ghost use Rattle.plai_domain.specs.Conditions.{IsValue};
ghost use Rattle.plai_domain.specs.Names.{name_of};
ghost use Rattle.plai_domain.specs.Noted.{noted};
ghost use Rattle.plai_clauses.specs.WellFormed.{IsWellFormedClause};
ghost use Rattle.plai_eval.specs.Answering.{AnswersFit};
ghost use Rattle.plai_eval.specs.Cost.{cost_of};
ghost use Rattle.plai_table.specs.Rows.{names_of};
ghost use Rattle.plai_eval.specs.Meaning.{as_domain};
ghost use Rattle.plai_fix_rows.specs.Tables.{key_name, kept_rows, answers_of, state_of};
ghost use Rattle.plai_fix_laws.specs.Changes.{Clears};
ghost use Rattle.plai_fix.specs.Evaluating.{IsEvaluation, TellsOver};

use crate::present::Present;
use crate::solve_fail::SolveFail;
use plai_arcs::Arcs;
use plai_base::Steps;
use plai_clauses::Clause;
use plai_domain::{Domain, Key, Work};
use plai_eval::{EvalFail, Evaluated, evaluate};
use plai_table::Table;
use plai_terms::RowName;
use std::alloc::Global;
use std::sync::ledger::Ledger;

/// Evaluates a clause, of this number from 1, for a name under the rows of the table, and notes it.
///
/// `Groups` exactly where the evaluation forms a set of more than 65,536 groups; it names the evaluation and the set. A
/// refusal notes nothing.
pub fn evaluate_clause<D: Domain, W: Work, L: Ledger>(
    alloc: Global,
    domain: &D,
    table: &Table<D::Value>,
    name: &Key<D::Value>,
    clause: &Clause,
    number: u64,
    work: &mut W,
    steps: &mut Steps<L>,
) -> Result<Evaluated<D>, SolveFail>
    requires clause { IsWellFormedClause clause.now }
    requires arity { length clause.now.head ≡ name.now.pred.arity }
    requires call { IsValue (D.plain domain.now) name.now.pred.arity (D.value_of name.now.call) }
    requires answers { AnswersFit (D.plain domain.now) (answers_of (D.plain domain.now) (kept_rows D.value_of (D.plain domain.now) table.now.rows)) }
    ensures ok { IfOk result (λ e. IsEvaluation (D.plain domain.now) (kept_rows D.value_of (D.plain domain.now) table.now.rows) clause.now
        (D.value_of name.now.call) (option_map D.value_of e.answer) (map (key_name D.value_of) e.calls)) }
    ensures err { IfErr result (TellsOver (D.plain domain.now) (kept_rows D.value_of (D.plain domain.now) table.now.rows)
        (key_name D.value_of name.now) number clause.now) }
    ensures noted { OnOk result (W.entries work.new ≡ noted (entries.Evaluated (name_of D.value_of name.now) number) (W.entries work.old)) }
    ensures nothing { OnErr result (W.entries work.new ≡ W.entries work.old) }
    ensures cost { steps.new ≤ steps.old + cost_of clause.now }
{
    let present = Present { domain, table };
    match evaluate(alloc, domain, name, clause, number, &present, work, steps) {
        Ok(evaluated) => Ok(evaluated),
        Err(EvalFail::Memory) => Err(SolveFail::Memory),
        Err(EvalFail::Over { literal, place }) => {
            let row = RowName {
                pred: name.pred.copy(alloc)?,
                call: domain.to_abs(alloc, &name.call)?,
            };
            Err(SolveFail::Groups {
                row,
                clause: number,
                literal,
                place,
            })
        }
    }
}

/// Evaluates a clause, of this number from 1, of the row, and notes it; the pair is dirty no more. Its calls are still to be
/// set. `Groups` as in [`evaluate_clause`]. A refusal notes nothing.
pub fn evaluate_pair<D: Domain, W: Work, L: Ledger>(
    alloc: Global,
    domain: &D,
    table: &Table<D::Value>,
    arcs: &mut Arcs,
    row: u64,
    clause: &Clause,
    number: u64,
    work: &mut W,
    steps: &mut Steps<L>,
) -> Result<Evaluated<D>, SolveFail>
    requires row { row < length table.now.rows }
    requires number { 1 ≤ number }
    requires clause { IsWellFormedClause clause.now }
    requires arity { (name : Key D.Value) → slice_get (names_of table.now.rows) row ≡ Some name → length clause.now.head ≡ name.pred.arity }
    requires call { (name : Key D.Value) → slice_get (names_of table.now.rows) row ≡ Some name
        → IsValue (D.plain domain.now) name.pred.arity (D.value_of name.call) }
    requires answers { AnswersFit (D.plain domain.now) (answers_of (D.plain domain.now) (kept_rows D.value_of (D.plain domain.now) table.now.rows)) }
    ensures ok { IfOk result (λ e. (name : Key D.Value) → slice_get (names_of table.now.rows) row ≡ Some name
        → IsEvaluation (D.plain domain.now) (kept_rows D.value_of (D.plain domain.now) table.now.rows) clause.now
        (D.value_of name.call) (option_map D.value_of e.answer) (map (key_name D.value_of) e.calls)) }
    ensures clears { OnOk result (Clears (as_domain (D.plain domain.now)) (state_of D.value_of (D.plain domain.now) table.now.rows arcs.old)
        (state_of D.value_of (D.plain domain.now) table.now.rows arcs.new) row (number - 1)) }
    ensures err { IfErr result (λ fail. (name : Key D.Value) → slice_get (names_of table.now.rows) row ≡ Some name
        → TellsOver (D.plain domain.now) (kept_rows D.value_of (D.plain domain.now) table.now.rows) (key_name D.value_of name) number clause.now fail) }
    ensures noted { OnOk result ((name : Key D.Value) → slice_get (names_of table.now.rows) row ≡ Some name
        → W.entries work.new ≡ noted (entries.Evaluated (name_of D.value_of name) number) (W.entries work.old)) }
    ensures nothing { OnErr result (W.entries work.new ≡ W.entries work.old) }
    ensures cost { steps.new ≤ steps.old + cost_of clause.now }
{
    let name = table.row(row).name;
    let evaluated = evaluate_clause(alloc, domain, table, name, clause, number, work, steps)?;
    arcs.clear_dirty(row, number);
    Ok(evaluated)
}
