ghost use Rattle.std.specs.Prelude.{◌≡◌, ◌≢◌, ℕ, ◌<◌, true, false, List, [], ◌∷◌, ◌++◌, map, length, Option, Some, None};
ghost use Rattle.plai_theory.specs.Domain.{Program, IsLawful};
ghost use Rattle.plai_theory.specs.Evaluation.{NameOf};
ghost use Rattle.plai_theory.specs.LegalWork.{WorkRow, find, live_count, new_row, after_waking, after_evaluating, after_growing};
ghost use Rattle.plai_theory.specs.Count.{HaveOwnNames};
ghost use Rattle.plai_theory.specs.Measure.{IsRank, room, ranks, dirties};

use crate::any_domain::AnyDomain;

/// Three numbers that show that work ends: each step lowers one of them and leaves those before it. They are the room
/// for rows and first answers, the ranks of the answers, and the dirty clauses.
pub fn measure_laws<T: AnyDomain>()
    // A made row, a woken one and a first answer lower the room.
    ensures made_lowers { (g : Program T.domain) → IsLawful T.domain g → (rows : List (WorkRow T.domain)) (x : NameOf T.domain) (limit : ℕ)
        → live_count T.domain rows < limit → room T.domain limit (rows ++ new_row T.domain x ∷ []) < room T.domain limit rows }
    ensures woke_lowers { (g : Program T.domain) → IsLawful T.domain g → (rows : List (WorkRow T.domain)) → HaveOwnNames T.domain rows
        → (x : NameOf T.domain) (limit : ℕ) → live_count T.domain rows < limit
        → (r : WorkRow T.domain) → find T.domain rows x ≡ Some r → r.live ≡ false
        → room T.domain limit (map (after_waking T.domain x) rows) < room T.domain limit rows }
    ensures first_lowers { (g : Program T.domain) → IsLawful T.domain g → (rows : List (WorkRow T.domain)) → HaveOwnNames T.domain rows
        → (x : NameOf T.domain) (limit : ℕ) (v : T.domain.Value)
        → (r : WorkRow T.domain) → find T.domain rows x ≡ Some r → r.live ≡ true → r.answer ≡ None
        → room T.domain limit (map (after_growing T.domain x (Some v)) rows) < room T.domain limit rows }

    // A later growth lowers the ranks.
    ensures growth_lowers { (g : Program T.domain) → IsLawful T.domain g → (rows : List (WorkRow T.domain)) → HaveOwnNames T.domain rows
        → (rank : T.domain.Pred → T.domain.Value → ℕ) → IsRank T.domain rank → (x : NameOf T.domain) (u v : T.domain.Value)
        → (r : WorkRow T.domain) → find T.domain rows x ≡ Some r → r.live ≡ true → r.answer ≡ Some u → T.domain.leq x.pred u v → u ≢ v
        → ranks T.domain rank (map (after_growing T.domain x (Some v)) rows) < ranks T.domain rank rows }
    ensures growth_leaves_room { (g : Program T.domain) → IsLawful T.domain g → (rows : List (WorkRow T.domain)) → HaveOwnNames T.domain rows
        → (x : NameOf T.domain) (limit : ℕ) (u v : T.domain.Value)
        → (r : WorkRow T.domain) → find T.domain rows x ≡ Some r → r.answer ≡ Some u
        → room T.domain limit (map (after_growing T.domain x (Some v)) rows) ≡ room T.domain limit rows }

    // An evaluation lowers the dirty clauses.
    ensures evaluated_lowers { (g : Program T.domain) → IsLawful T.domain g → (rows : List (WorkRow T.domain)) → HaveOwnNames T.domain rows
        → (x : NameOf T.domain) (i : ℕ) (names : List (NameOf T.domain))
        → (r : WorkRow T.domain) → find T.domain rows x ≡ Some r → r.live ≡ true → r.dirty i ≡ true → i < length (g.clauses x.pred)
        → dirties T.domain g (map (after_evaluating T.domain x i names) rows) < dirties T.domain g rows }
    ensures evaluated_leaves_room { (g : Program T.domain) → IsLawful T.domain g → (rows : List (WorkRow T.domain)) (x : NameOf T.domain) (limit i : ℕ)
        → (names : List (NameOf T.domain)) → room T.domain limit (map (after_evaluating T.domain x i names) rows) ≡ room T.domain limit rows }
    ensures evaluated_leaves_ranks { (g : Program T.domain) → IsLawful T.domain g → (rows : List (WorkRow T.domain))
        → (rank : T.domain.Pred → T.domain.Value → ℕ) (x : NameOf T.domain) (i : ℕ) (names : List (NameOf T.domain))
        → ranks T.domain rank (map (after_evaluating T.domain x i names) rows) ≡ ranks T.domain rank rows }
{}
