ghost use Rattle.std.specs.Prelude.{◌≡◌, ◌↔◌, ℕ, ◌≤◌, Bool, true, List};
ghost use Rattle.plai_theory.specs.Domain.{Program, IsLawful};
ghost use Rattle.plai_theory.specs.Evaluation.{NameOf};
ghost use Rattle.plai_theory.specs.Stages.{IsFromBelow};
ghost use Rattle.plai_theory.specs.LeastTable.{Row, IsOrdered, IsStrictOrder, IsLeastTable};
ghost use Rattle.plai_theory.specs.Tables.{source_of, IsClosed};
ghost use Rattle.plai_theory.specs.Snapshots.{IsTotalTest, snapshot};
ghost use Rattle.plai_theory.specs.Claims.{StagesRise, CoversStages, CoversReach, AreReached};

use crate::any_domain::AnyDomain;

/// Stages, closed tables and the least table.
pub fn stage_laws<T: AnyDomain>()
    ensures stages_rise { (g : Program T.domain) → IsLawful T.domain g → StagesRise T.domain g }

    // A closed table lies at or above all stages.
    ensures closed_covers_stages { (g : Program T.domain) → IsLawful T.domain g → (rows : List (Row T.domain)) → IsClosed T.domain g rows
        → CoversStages T.domain g rows }
    ensures closed_covers_reach { (g : Program T.domain) → IsLawful T.domain g → (rows : List (Row T.domain)) → IsClosed T.domain g rows
        → CoversReach T.domain g rows }

    // A closed table in order whose answers some stage reaches, and whose rows are reached, is the least table.
    ensures closed_from_below_is_least { (g : Program T.domain) → IsLawful T.domain g → (rows : List (Row T.domain)) → IsClosed T.domain g rows
        → IsOrdered T.domain T.before rows → IsFromBelow T.domain g (source_of T.domain rows) → AreReached T.domain g rows
        → IsLeastTable T.domain g T.before rows }

    // There is at most one least table, and it is closed.
    ensures is_one { (g : Program T.domain) → IsStrictOrder T.domain T.before → (rows others : List (Row T.domain))
        → IsLeastTable T.domain g T.before rows → IsLeastTable T.domain g T.before others → rows ≡ others }
    ensures is_closed { (g : Program T.domain) → IsLawful T.domain g → IsStrictOrder T.domain T.before → (rows : List (Row T.domain))
        → IsLeastTable T.domain g T.before rows → IsClosed T.domain g rows }

    // It is the list that the computed snapshots settle to.
    ensures is_the_limit { (g : Program T.domain) (is_before : NameOf T.domain → NameOf T.domain → Bool) → IsTotalTest T.domain is_before
        → (rows : List (Row T.domain)) → IsLeastTable T.domain g (λ x y. is_before x y ≡ true) rows
        ↔ ((N : ℕ) × ((n : ℕ) → N ≤ n → snapshot T.domain g is_before n ≡ rows)) }
{}
