ghost use Rattle.std.specs.Prelude.{ℕ, ◌≤◌, List, length};
ghost use Rattle.plai_theory.specs.Words.{IsIn, UpTo};
ghost use Rattle.plai_theory.specs.Domain.{Program, IsLawful};
ghost use Rattle.plai_theory.specs.Evaluation.{answer_of};
ghost use Rattle.plai_theory.specs.LeastTable.{Row, IsTableOf, IsStrictOrder, IsLeastTable};
ghost use Rattle.plai_theory.specs.Tables.{source_of, IsClosed};
ghost use Rattle.plai_theory.specs.Rounds.{IsMade};
ghost use Rattle.plai_theory.specs.Claims.{HasAbove, IsUnchangedBy};

use crate::any_domain::AnyDomain;

/// Tables that rounds make.
pub fn round_laws<T: AnyDomain>()
    // Where what rounds made is closed, its rows that are reached are the least table.
    ensures rounds_give_it { (g : Program T.domain) → IsLawful T.domain g → (rows result : List (Row T.domain)) → IsMade T.domain g rows
        → IsClosed T.domain g rows → IsTableOf T.domain g T.before (source_of T.domain rows) result → IsLeastTable T.domain g T.before result }

    // Where a clause changes nothing, it gives no more than the row's answer.
    ensures unchanged_covers { (g : Program T.domain) → IsLawful T.domain g → (rows : List (Row T.domain)) → IsMade T.domain g rows
        → (r : Row T.domain) → IsIn r rows → (c : T.domain.Clause) → IsIn c (g.clauses r.name.pred) → IsUnchangedBy T.domain rows r c
        → UpTo (T.domain.leq r.name.pred) (answer_of T.domain (source_of T.domain rows) c r.name.call) r.answer }

    // Rounds end with as many rows as the least table or more, and each of their rows lies at or below one of it.
    ensures rounds_are_enough { (g : Program T.domain) → IsLawful T.domain g → IsStrictOrder T.domain T.before → (rows : List (Row T.domain))
        → IsLeastTable T.domain g T.before rows → (made : List (Row T.domain)) → IsMade T.domain g made → IsClosed T.domain g made
        → length rows ≤ length made }
    ensures rounds_lie_below { (g : Program T.domain) → IsLawful T.domain g → IsStrictOrder T.domain T.before → (rows : List (Row T.domain))
        → IsLeastTable T.domain g T.before rows → (made : List (Row T.domain)) → IsMade T.domain g made
        → (r : Row T.domain) → IsIn r made → HasAbove T.domain rows r.name }
{}
