//! Under terms cut at a depth, calls and answers are patterns over the integers, atoms and functors of a program's clauses.
#![tactic(auto)]

ghost use Rattle.std.specs.Prelude.{◌≡◌, ◌⊎◌, ℕ, pos, List, [], ◌∷◌, Some, codes};
ghost use Rattle.plai_theory.specs.Words.{IsIn};
ghost use Rattle.plai_theory.specs.Domain.{Name};
ghost use Rattle.plai_theory.specs.LeastTable.{Row};
ghost use Rattle.plai_theory.specs.Rounds.{IsAsked, IsMade};
ghost use Rattle.plai_terms.specs.declared.abs.Abs.{Abs};
ghost use Rattle.plai_terms.specs.declared.abs.Abs.TheVariants.{Nothing};
ghost use Rattle.plai_terms.specs.declared.plain_row.PlainRow.{PlainRow};
ghost use Rattle.plai_terms.specs.declared.pred_key.PredKey.{PredKey};
ghost use Rattle.plai_terms.specs.declared.skeleton.Skeleton.{Skeleton, Any, Atom};
ghost use Rattle.plai_clauses.specs.Program.{ProgramView};
ghost use Rattle.plai_eval.specs.Meaning.{as_domain, as_program};
ghost use Rattle.plai_eval.specs.LeastTable.{IsLeastTable};
ghost use Rattle.plai_eval.specs.Stops.{IsOver};
ghost use Rattle.plai_fix.specs.declared.solve_fail.SolveFail.{SolveFail};
ghost use Rattle.plai_fix.specs.declared.solve_fail.SolveFail.TheVariants.{Memory};
ghost use Rattle.plai_analysis.specs.Causes.{IsAskedFor, AreTooMany, HasCause};
ghost use Rattle.plai_depth_laws.specs.Order.{IsUnder};
ghost use Rattle.plai_depth_laws.specs.Skeletons.{meet};
ghost use Rattle.plai_depth_laws.specs.DepthK.{depth_k};
ghost use Rattle.plai_depth_laws.specs.Examples.{skeleton_of_one, one};
ghost use Rattle.plai_depth_symbols.specs.Symbols.{Symbol, Number, Functor, signature_of};
ghost use Rattle.plai_depth_symbols.specs.Patterns.{IsSkeletonOver, IsPatternOver};
ghost use Rattle.plai_depth_symbols.specs.Kept.{IsKept};
ghost use Rattle.plai_depth_symbols.specs.Stops.{CountAtMost, AreTooManyOver};
ghost use Rattle.plai_depth_symbols.specs.Examples.{numbers};

mod invariants;

pub use invariants::{AnyInvariant, kept_properties_hold};

/// What lies above a skeleton has none but its symbols, so a cut and a join have none but those of what they are made of. A
/// meet has none but those of the two.
pub fn symbols_are_kept()
    ensures above { (signature : List Symbol) (s t : Skeleton) → IsUnder s t → IsSkeletonOver signature s → IsSkeletonOver signature t }
    ensures met { (signature : List Symbol) (s t m : Skeleton) → IsSkeletonOver signature s → IsSkeletonOver signature t
        → meet s t ≡ Some m → IsSkeletonOver signature m }
{}

/// At the clauses of a program, each operation gives patterns over the program's signature of patterns over it; the entries'
/// calls are such patterns. No builtin brings in another symbol.
pub fn operations_keep_the_signature()
    ensures { (k : ℕ) (program : ProgramView) → IsKept (as_domain (depth_k k)) (as_program (depth_k k) program)
        (λ pred call. IsPatternOver (signature_of program) call) (λ clause state. IsPatternOver (signature_of program) state.abs)
        (λ pred answer. IsPatternOver (signature_of program) answer) }
{}

/// The calls and answers of rows that rounds make are patterns over the program's signature, and so are the calls of the
/// names that are asked for under them: those of entries, and those that a clause of a row calls.
pub fn asked_names_are_over_the_program()
    ensures calls { (k : ℕ) (program : ProgramView) (rows : List (Row (as_domain (depth_k k))))
        → IsMade (as_domain (depth_k k)) (as_program (depth_k k) program) rows
        → (r : Row (as_domain (depth_k k))) → IsIn r rows → IsPatternOver (signature_of program) r.name.call }
    ensures answers { (k : ℕ) (program : ProgramView) (rows : List (Row (as_domain (depth_k k))))
        → IsMade (as_domain (depth_k k)) (as_program (depth_k k) program) rows
        → (r : Row (as_domain (depth_k k))) → IsIn r rows → (a : Abs) → r.answer ≡ Some a → IsPatternOver (signature_of program) a }
    ensures asked { (k : ℕ) (program : ProgramView) (rows : List (Row (as_domain (depth_k k))))
        → IsMade (as_domain (depth_k k)) (as_program (depth_k k) program) rows
        → (x : Name PredKey Abs) → IsAsked (as_domain (depth_k k)) (as_program (depth_k k) program) rows x
        → IsPatternOver (signature_of program) x.call }
{}

/// The calls and answers of the least table are patterns over the program's signature.
pub fn least_tables_are_over_the_program()
    ensures { (k : ℕ) (program : ProgramView) (table : List PlainRow) → IsLeastTable (depth_k k) program table
        → (row : PlainRow) → IsIn row table → IsPatternOver (signature_of program) row.name.call
        × ((row.answer ≡ Nothing) ⊎ IsPatternOver (signature_of program) row.answer) }
{}

/// What stops an analysis by its limit of rows: each name that is asked for has a call over the program's signature, also behind
/// work that begins with the rows that an edit keeps of another program's table. So more such names than the limit lie at or
/// below names of the least table, each of the same predicate; and where no more than the limit do, this stop never comes. No
/// sets of groups are formed, so there is a table then, or memory is wanting.
pub fn stops_count_patterns_over_the_program()
    ensures asked { (k : ℕ) (program : ProgramView) (limit : ℕ) (x : Name PredKey Abs) → IsAskedFor (depth_k k) program limit x
        → IsPatternOver (signature_of program) x.call }
    ensures too_many { (k : ℕ) (program : ProgramView) (limit : ℕ) → AreTooMany (depth_k k) program limit → AreTooManyOver k program limit }
    ensures within { (k : ℕ) (program : ProgramView) (table : List PlainRow) (limit : ℕ) → IsLeastTable (depth_k k) program table
        → CountAtMost k program table limit → AreTooMany (depth_k k) program limit → ⊥ }
    ensures never_over { (k : ℕ) (program : ProgramView) → IsOver (depth_k k) program → ⊥ }
    ensures complete { (k : ℕ) (program : ProgramView) (table : List PlainRow) (limit : ℕ) → IsLeastTable (depth_k k) program table
        → CountAtMost k program table limit → (fail : SolveFail) → HasCause (depth_k k) program limit fail → fail ≡ Memory }
{}

/// Numbers made of `0` and `s`, by `n(0).` and `n(s(X)) :- n(X).`: the signature has these two symbols, `s(any)` is a pattern
/// over it, and `a` is none.
pub fn numbers_have_two_symbols()
    ensures signature { signature_of numbers ≡ Number (pos 0) ∷ Functor (codes "s") 1 ∷ [] }
    ensures over { IsPatternOver (signature_of numbers) (one (skeleton_of_one (codes "s") Any)) }
    ensures not_over { IsPatternOver (signature_of numbers) (one (Atom (codes "a"))) → ⊥ }
{}
