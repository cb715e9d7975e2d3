ghost use Rattle.std.specs.Prelude.{◌≡◌, ◌↔◌, ℕ, IsSome, List, []};
ghost use Rattle.plai_theory.specs.Words.{IsIn};
ghost use Rattle.plai_theory.specs.Domain as theory;
ghost use Rattle.plai_theory.specs.LeastTable.{IsStrictOrder};
ghost use Rattle.plai_theory.specs.Limits.{AreUpwardClosed, IsOverAt};
ghost use Rattle.plai_terms.specs.declared.abs.Abs.{Abs};
ghost use Rattle.plai_terms.specs.declared.plain_row.PlainRow.{PlainRow};
ghost use Rattle.plai_domain.specs.Laws.{IsLawful};
ghost use Rattle.plai_clauses.specs.declared.clause.Clause.{Clause};
ghost use Rattle.plai_clauses.specs.declared.entry.Entry.{Entry};
ghost use Rattle.plai_clauses.specs.Program.{ProgramView, one_module};
ghost use Rattle.plai_clauses.specs.WellFormed.{IsWellFormed};
ghost use Rattle.plai_eval.specs.Meaning.{as_domain, as_limits, as_program};
ghost use Rattle.plai_eval.specs.Evaluation.{Source, as_source, evaluation};
ghost use Rattle.plai_eval.specs.LeastTable.{before, IsLeastTable};
ghost use Rattle.plai_eval.specs.Facts.{AreFacts, AreFactRows};

use crate::any_domain::AnyPlainDomain;

/// Two least tables of a program are equal.
pub fn least_table_is_one<T: AnyPlainDomain>()
    ensures { (domain : T) (program : ProgramView) (rows others : List PlainRow) → IsLeastTable (T.plain domain) program rows
        → IsLeastTable (T.plain domain) program others → rows ≡ others }
{}

/// Where all clauses are facts, a row for each entry, in order, with the join of what its predicate's facts answer, is
/// the least table. No law of the domain is needed.
pub fn facts_give_the_least_table<T: AnyPlainDomain>()
    ensures { (domain : T) (program : ProgramView) → AreFacts program → (rows : List PlainRow)
        → AreFactRows (T.plain domain) program rows → IsLeastTable (T.plain domain) program rows }
{}

/// A module whose clauses have no bodies is a program of facts.
pub fn facts_of_a_module()
    ensures { (name : List ℕ) (clauses : List Clause) (entries : List Entry) → ((clause : Clause) → IsIn clause clauses → clause.body ≡ [])
        → AreFacts (one_module name clauses entries) }
{}

/// At a well formed program, a lawful domain meets what the theory of stages and tables asks.
pub fn laws_of_theory<T: AnyPlainDomain>()
    ensures domain { (domain : T) → IsLawful (T.plain domain) → (program : ProgramView) → IsWellFormed program
        → theory.IsLawful (as_domain (T.plain domain)) (as_program (T.plain domain) program) }
    ensures limits { (domain : T) → IsLawful (T.plain domain) → (program : ProgramView) → IsWellFormed program
        → AreUpwardClosed (as_domain (T.plain domain)) (as_program (T.plain domain) program) (as_limits (T.plain domain)) }
    ensures order { (domain : T) → IsStrictOrder (as_domain (T.plain domain)) (before (T.plain domain)) }
{}

/// An evaluation has a first set of too many groups exactly where one of its operations forms such a set.
pub fn first_sets_are_sets<T: AnyPlainDomain>()
    ensures { (domain : T) (source : Source) (clause : Clause) (call : Abs)
        → IsSome (evaluation (T.plain domain) source clause call).over
        ↔ IsOverAt (as_domain (T.plain domain)) (as_limits (T.plain domain)) (as_source (T.plain domain) source) clause call }
{}
