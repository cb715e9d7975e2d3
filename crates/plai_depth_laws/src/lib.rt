//! Terms cut at a depth, as an abstract domain, and its laws.
#![tactic(auto)]

ghost use Rattle.std.specs.Prelude.{◌≡◌, ◌↔◌, ℕ, ◌≤◌, true, pos, List, [], ◌∷◌, map, length, Some, codes};
ghost use Rattle.plai_terms.specs.declared.term.Term as term;
ghost use Rattle.plai_terms.specs.declared.term.Term.{Term, Var};
ghost use Rattle.plai_terms.specs.declared.skeleton.Skeleton.{Skeleton, Any, Integer, Int, Atom};
ghost use Rattle.plai_terms.specs.declared.abs.Abs.{Abs};
ghost use Rattle.plai_domain.specs.declared.action.Action.TheVariants.{BindInt};
ghost use Rattle.plai_domain.specs.Instances.{all_below};
ghost use Rattle.plai_domain.specs.Conditions.{IsValue};
ghost use Rattle.plai_domain.specs.Laws.{IsLawful};
ghost use Rattle.plai_domain.specs.Printed.{IsPrinted};
ghost use Rattle.plai_domain.specs.Soundness.{IsSound};
ghost use Rattle.plai_depth_laws.specs.Order.{IsUnder, AreUnder};
ghost use Rattle.plai_depth_laws.specs.OrderTest.{are_under, is_under};
ghost use Rattle.plai_depth_laws.specs.Skeletons.{cut, join, meet};
ghost use Rattle.plai_depth_laws.specs.Moves.{pull, push_all};
ghost use Rattle.plai_depth_laws.specs.DepthK.{skeletons_of, depth_k, state_with};
ghost use Rattle.plai_depth_laws.specs.Examples.{successor, cell, of_one, skeleton_of_one, skeleton_cell, one, two};

/// Terms cut at a depth have the laws that a fixpoint over an abstract domain needs: their order is one, a join is the
/// least of the values above both, each operation is monotone, and the rank gets smaller with each strict growth.
pub fn depth_k_is_lawful()
    ensures { (k : ℕ) → 1 ≤ k → IsLawful (depth_k k) }
{}

/// What is described stays described: by each value above, by the value of the properties, and by what each operation
/// gives. What is entailed holds, and what is excluded doesn't.
pub fn depth_k_is_sound()
    ensures { (k : ℕ) → 1 ≤ k → IsSound (depth_k k) }
{}

/// No value is the pattern of no answer, each speaks of its arguments, and different values have different texts.
pub fn depth_k_is_printed()
    ensures { (k : ℕ) → 1 ≤ k → IsPrinted (depth_k k) }
{}

/// A test decides the order of values of one number of arguments.
pub fn values_are_compared()
    ensures { (k n : ℕ) (a b : Abs) → IsValue (depth_k k) n a → IsValue (depth_k k) n b
        → (are_under (map is_under (skeletons_of a)) (skeletons_of b) ≡ true) ↔ (depth_k k).Leq n a b }
{}

/// The order of skeletons is one, and a test decides it. A join is the least skeleton above both. A meet is the greatest
/// below both, and there is one where any skeleton lies below both.
pub fn skeletons_are_ordered()
    ensures transitive { (s t u : Skeleton) → IsUnder s t → IsUnder t u → IsUnder s u }
    ensures antisymmetric { (s t : Skeleton) → IsUnder s t → IsUnder t s → s ≡ t }
    ensures decided { (s t : Skeleton) → (is_under s t ≡ true) ↔ IsUnder s t }
    ensures join_above { (s t : Skeleton) → IsUnder s (join s t) × IsUnder t (join s t) }
    ensures join_least { (s t u : Skeleton) → IsUnder s u → IsUnder t u → IsUnder (join s t) u }
    ensures meet_below { (s t m : Skeleton) → meet s t ≡ Some m → IsUnder m s × IsUnder m t }
    ensures meet_greatest { (s t x : Skeleton) → IsUnder x s → IsUnder x t → (m : Skeleton) × (meet s t ≡ Some m) × IsUnder x m }
{}

/// A cut goes up and keeps the order, and twice is as once.
pub fn cuts_are_closures()
    ensures up { (k : ℕ) (s : Skeleton) → IsUnder s (cut k s) }
    ensures monotone { (k : ℕ) (s t : Skeleton) → IsUnder s t → IsUnder (cut k s) (cut k t) }
    ensures twice { (k : ℕ) (s : Skeleton) → cut k (cut k s) ≡ cut k s }
{}

/// A push gives the greatest skeletons of the variables at or below the present ones under which each term lies at or below
/// what is pushed into it, and it gives none only where there are no such skeletons.
pub fn pushes_are_greatest()
    ensures below { (limit : ℕ) (terms : List Term) (pushed before after : List Skeleton) → all_below limit terms ≡ true
        → length terms ≡ length pushed → length before ≡ limit → push_all terms pushed before ≡ Some after
        → AreUnder after before × AreUnder (map (pull after) terms) pushed }
    ensures greatest { (terms : List Term) (pushed before lower : List Skeleton) → AreUnder lower before
        → AreUnder (map (pull lower) terms) pushed
        → (after : List Skeleton) × (push_all terms pushed before ≡ Some after) × AreUnder lower after }
{}

/// Numbers made of `0` and `s`, under depth 2: an answer `0` of the argument of `n(s(X)) :- n(X)` gives `s(0)`, and both
/// together give `any`. Under depth 1, the facts `p(f(a),1)` and `p(f(b),2)` give `f(any)` and `int`.
pub fn numbers_are_any()
    ensures entered { ((depth_k 2).enter (one Any) (successor (Var 0) ∷ []) 1).value ≡ Some (state_with 1 1 (Any ∷ [])) }
    ensures called { ((depth_k 2).call (state_with 1 1 (Any ∷ [])) (Var 0 ∷ [])).value ≡ one Any }
    ensures back { ((depth_k 2).back (state_with 1 1 (Any ∷ [])) (Var 0 ∷ []) (one (Int (pos 0)))).value
        ≡ Some (state_with 1 1 (Int (pos 0) ∷ [])) }
    ensures left { (depth_k 2).exit (state_with 1 1 (Int (pos 0) ∷ [])) (successor (Var 0) ∷ [])
        ≡ one (skeleton_of_one (codes "s") (Int (pos 0))) }
    ensures joined { (depth_k 2).join (one (Int (pos 0))) (one (skeleton_of_one (codes "s") (Int (pos 0)))) ≡ one Any }
    ensures fact { (depth_k 1).exit (state_with 2 0 []) (of_one (codes "f") (term.Atom (codes "a")) ∷ term.Int (pos 1) ∷ [])
        ≡ two (skeleton_of_one (codes "f") Any) (Int (pos 1)) }
    ensures facts { (depth_k 1).join (two (skeleton_of_one (codes "f") Any) (Int (pos 1)))
        (two (skeleton_of_one (codes "f") Any) (Int (pos 2))) ≡ two (skeleton_of_one (codes "f") Any) Integer }
{}

/// Lists with their lengths, under depth 2: an answer `[]`, `0` of the literal in `len([_|T],N) :- len(T,M), N is M+1`
/// gives a cell and `int`, and both together give `any` and `int`.
pub fn lengths_are_integers()
    ensures back { ((depth_k 2).back (state_with 2 4 (Any ∷ Any ∷ Any ∷ Any ∷ [])) (Var 1 ∷ Var 3 ∷ [])
        (two (Atom (codes "[]")) (Int (pos 0)))).value
        ≡ Some (state_with 2 4 (Any ∷ Atom (codes "[]") ∷ Any ∷ Int (pos 0) ∷ [])) }
    ensures counted { ((depth_k 2).refine (state_with 2 4 (Any ∷ Atom (codes "[]") ∷ Any ∷ Int (pos 0) ∷ []))
        (Var 2 ∷ term.Compound (codes "+") (Var 3 ∷ term.Int (pos 1) ∷ []) ∷ []) (BindInt 1)).value
        ≡ Some (state_with 2 4 (Any ∷ Atom (codes "[]") ∷ Integer ∷ Int (pos 0) ∷ [])) }
    ensures left { (depth_k 2).exit (state_with 2 4 (Any ∷ Atom (codes "[]") ∷ Integer ∷ Int (pos 0) ∷ []))
        (cell (Var 0) (Var 1) ∷ Var 2 ∷ []) ≡ two (skeleton_cell Any (Atom (codes "[]"))) Integer }
    ensures joined { (depth_k 2).join (two (Atom (codes "[]")) (Int (pos 0)))
        (two (skeleton_cell Any (Atom (codes "[]"))) Integer) ≡ two Any Integer }
{}
