ghost use Rattle.std.specs.Prelude.{◌≡◌, ℕ, List, [], ◌∷◌, ◌++◌, length};
ghost use Rattle.plai_theory.specs.Words.{IsIn};
ghost use Rattle.plai_terms.specs.declared.term.Term.{Term};
ghost use Rattle.plai_terms.specs.declared.pred_key.PredKey.{PredKey};
ghost use Rattle.plai_terms.specs.declared.plain_row.PlainRow.{PlainRow};
ghost use Rattle.plai_domain.specs.Instances.{has_properties};
ghost use Rattle.plai_domain.specs.Laws.{IsLawful};
ghost use Rattle.plai_domain.specs.Soundness.{IsSound};
ghost use Rattle.plai_clauses.specs.declared.check.Check.{Check};
ghost use Rattle.plai_clauses.specs.declared.entry.Entry.{Entry};
ghost use Rattle.plai_clauses.specs.Program.{ProgramView, entries_of};
ghost use Rattle.plai_clauses.specs.WellFormed.{IsWellFormed, IsWellFormedCheck};
ghost use Rattle.plai_assert.specs.Verdicts.{verdict_of};
ghost use Rattle.plai_eval.specs.LeastTable.{IsLeastTable};
ghost use Rattle.plai_sld.specs.Runs.{RunState, start_of, IsStep, IsRun};
ghost use Rattle.plai_sld.specs.States.{IsState};
ghost use Rattle.plai_sld.specs.Described.{IsClosed, IsDescribedGoal, AreRunsDescribed};
ghost use Rattle.plai_sld.specs.Verdicts.{IsKeptByRuns};

use plai_builtins::meanings_are_allowed;
use plai_eval::AnyPlainDomain;

/// What a table says of all runs of a well-formed program, under a lawful and sound domain.
pub fn closed_tables_describe_runs<T: AnyPlainDomain>()
    // A closed list of rows describes every call and every answer of every run from a described goal: a row of the predicate
    // describes the call, and one row describes by its call the arguments as they were, and by its answer the arguments as they are.
    ensures closed { (domain : T) → IsLawful (T.plain domain) → IsSound (T.plain domain) → (program : ProgramView) → IsWellFormed program
        → (rows : List PlainRow) → IsClosed (T.plain domain) program rows → AreRunsDescribed (T.plain domain) program rows }

    // The least table is closed, and so describes them.
    ensures least_is_closed { (domain : T) → IsLawful (T.plain domain) → (program : ProgramView) → IsWellFormed program
        → (rows : List PlainRow) → IsLeastTable (T.plain domain) program rows → IsClosed (T.plain domain) program rows }
    ensures least { (domain : T) → IsLawful (T.plain domain) → IsSound (T.plain domain) → (program : ProgramView) → IsWellFormed program
        → (rows : List PlainRow) → IsLeastTable (T.plain domain) program rows → AreRunsDescribed (T.plain domain) program rows }
{
    meanings_are_allowed();
}

/// What holds of runs, whatever the domain. They go on by what `Run::step` answers `Moved` to.
pub fn laws_of_runs()
    ensures one_more { (program : ProgramView) (first middle last : RunState) (choices : List ℕ) (choice : ℕ)
        → IsRun program first choices middle → IsStep program middle choice last → IsRun program first (choices ++ choice ∷ []) last }

    // Each goal and mark has as many arguments as its predicate, and no variable from the state's number on.
    ensures states { (program : ProgramView) → IsWellFormed program
        → (pred : PredKey) (args : List Term) → length args ≡ pred.arity
        → (choices : List ℕ) (last : RunState) → IsRun program (start_of pred args) choices last → IsState last }
{}

/// What verdicts over a closed list of rows say of all runs of a well-formed program, under a lawful and sound domain. The
/// least table is such a list.
pub fn verdicts_hold_of_runs<T: AnyPlainDomain>()
    // A goal of an entry's predicate whose arguments have the entry's properties is described.
    ensures goals { (domain : T) → IsSound (T.plain domain) → (program : ProgramView) → IsWellFormed program
        → (entry : Entry) → IsIn entry (entries_of program) → (args : List Term) → length args ≡ entry.pred.arity
        → has_properties args entry.pre → IsDescribedGoal (T.plain domain) program entry.pred args }

    // What a verdict promises of calls or of answers holds in all runs.
    ensures verdicts { (domain : T) → IsLawful (T.plain domain) → IsSound (T.plain domain) → (program : ProgramView) → IsWellFormed program
        → (rows : List PlainRow) → IsClosed (T.plain domain) program rows → (check : Check) → IsWellFormedCheck check
        → IsKeptByRuns (T.plain domain) program check (verdict_of (T.plain domain) rows check) }
{
    meanings_are_allowed();
}
