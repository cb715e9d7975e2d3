//! Sharing and freeness: sets of groups of slots and sets of free slots, as an abstract domain, and its laws.
#![tactic(auto)]

ghost use Rattle.std.specs.Prelude.{◌≡◌, ℕ, ◌+◌, ◌++◌, ◌||◌, true, false, List, [], ◌∷◌, length, map};
ghost use Rattle.plai_base.specs.Mask.{all_true};
ghost use Rattle.plai_base.specs.Sets.{IsWithin};
ghost use Rattle.plai_terms.specs.declared.abs.Abs.{Abs};
ghost use Rattle.plai_terms.specs.declared.term.Term.{Term};
ghost use Rattle.plai_domain.specs.declared.action.Action.{Action};
ghost use Rattle.plai_domain.specs.declared.action.Action.TheVariants as action;
ghost use Rattle.plai_domain.specs.Plain.{StateView};
ghost use Rattle.plai_domain.specs.Laws.{IsLawful};
ghost use Rattle.plai_domain.specs.Soundness.{IsSound};
ghost use Rattle.plai_domain.specs.Printed.{IsPrinted};
ghost use Rattle.plai_share_laws.specs.Groups.{rel, star, bin};
ghost use Rattle.plai_share_laws.specs.Shares.{Shares, Side, slots_of, is_free, unify, unify_formed, answered, answered_formed, havocked, widen_by, sizes};
ghost use Rattle.plai_share_laws.specs.Calls.{each_formed, acted_formed, extend, raise, enter_formed, extend_formed, back_formed, refine_formed};
ghost use Rattle.plai_share_laws.specs.Growth.{IsSmaller, AreContained};
ghost use Rattle.plai_share_laws.specs.Sharing.{shares_of, sides_of, sharing};

/// Sharing and freeness has the laws that a fixpoint over an abstract domain needs: its order is one, a join is the least
/// of the values above both, each operation is monotone, the rank gets smaller with each strict growth, and where a set
/// that an operation forms is too large, one is so from each larger value or state.
pub fn sharing_is_lawful()
    ensures { IsLawful sharing }
{}

/// What is described stays described: by each value above, by the value of the properties, and by what each operation
/// gives. What is entailed holds, and what is excluded doesn't.
pub fn sharing_is_sound()
    ensures { IsSound sharing }
{}

/// No value is the pattern of no answer, each has as many arguments as it speaks of, and different values of as many
/// arguments, at most 16, have different texts.
pub fn sharing_is_printed()
    ensures { IsPrinted sharing }
{}

/// The sets whose sizes the operations tell, in order. Unification forms the unions of its groups with either side, where
/// they are used, the united groups and the new groups. `enter` and `call` form those of each argument in turn, `back` and
/// `refine` too, and then `back` the unions of the groups with the literal's slots and the new groups. So does `Havoc` with
/// the slots of its arguments, and the other actions but unification form none.
pub fn sharing_forms_sets()
    ensures unify_free { (x t : Side) (v : Shares) → (is_free v.free x || is_free v.free t) ≡ true
        → unify_formed x t v ≡ bin (rel (slots_of x) v.groups) (rel (slots_of t) v.groups) ∷ (unify x t v).groups ∷ [] }
    ensures unify_bound { (x t : Side) (v : Shares) → (is_free v.free x || is_free v.free t) ≡ false
        → unify_formed x t v ≡ star (rel (slots_of x) v.groups) ∷ star (rel (slots_of t) v.groups)
        ∷ bin (star (rel (slots_of x) v.groups)) (star (rel (slots_of t) v.groups)) ∷ (unify x t v).groups ∷ [] }
    ensures enter { (a : Abs) (head : List Term) (variables : ℕ) → (sharing.enter a head variables).sizes
        ≡ sizes (each_formed 0 (sides_of (length head) head) (widen_by variables (shares_of a))) }
    ensures call { (s : StateView) (args : List Term) → let n = s.arity + s.variables in let sides = sides_of s.arity args in
        (sharing.call s args).sizes ≡ sizes (each_formed n sides (widen_by (length sides) (shares_of s.abs))) }
    ensures back { (s : StateView) (args : List Term) (answer : Abs) → let n = s.arity + s.variables in
        let sides = sides_of s.arity args in let v = extend n sides (shares_of s.abs) in
        let a = raise n (all_true (length sides)) in let b = shares_of answer in
        (sharing.back s args answer).sizes ≡ sizes (each_formed n sides (widen_by (length sides) (shares_of s.abs))
        ++ star (rel a v.groups) ∷ (answered a (map (raise n) b.groups) (raise n b.free) v).groups ∷ []) }
    ensures refine { (s : StateView) (args : List Term) (action : Action) → let n = s.arity + s.variables in
        let sides = sides_of s.arity args in let v = extend n sides (shares_of s.abs) in
        (sharing.refine s args action).sizes
        ≡ sizes (each_formed n sides (widen_by (length sides) (shares_of s.abs)) ++ acted_formed n action v) }
    ensures havoc { (n slots : ℕ) (v : Shares) → let a = raise n slots in
        acted_formed n (action.Havoc slots) v ≡ star (rel a v.groups) ∷ (havocked a v).groups ∷ [] }
{}

/// Each set that an operation forms from a smaller value or state is contained in one that it forms from a larger one: in
/// the same unification, extension by an answer, or action, since each of these begins where the one before it ended, with
/// a smaller state too. So it is of `enter`, `call`, `back` and `refine` as a whole.
pub fn formed_sets_grow()
    ensures order { (n : ℕ) (a b : Abs) → sharing.Leq n a b → IsSmaller (shares_of a) (shares_of b) }
    ensures widened { (m : ℕ) (v w : Shares) → IsSmaller v w → IsSmaller (widen_by m v) (widen_by m w) }
    ensures extended { (n : ℕ) (args : List Side) (v w : Shares) → IsSmaller v w → IsSmaller (extend n args v) (extend n args w) }
    ensures unify { (x t : Side) (v w : Shares) → IsSmaller v w
        → AreContained (unify_formed x t v) (unify_formed x t w) × IsSmaller (unify x t v) (unify x t w) }
    ensures answered { (a : ℕ) (answer larger : List ℕ) (v w : Shares) → IsWithin answer larger → IsSmaller v w
        → AreContained (answered_formed a answer v) (answered_formed a larger w) }
    ensures acted { (n : ℕ) (action : Action) (v w : Shares) → IsSmaller v w
        → AreContained (acted_formed n action v) (acted_formed n action w) }
    ensures enter { (variables : ℕ) (args : List Side) (v w : Shares) → IsSmaller v w
        → AreContained (enter_formed variables args v) (enter_formed variables args w) }
    ensures call { (n : ℕ) (args : List Side) (v w : Shares) → IsSmaller v w
        → AreContained (extend_formed n args v) (extend_formed n args w) }
    ensures back { (n : ℕ) (args : List Side) (v w answer larger : Shares) → IsSmaller v w → IsSmaller answer larger
        → AreContained (back_formed n args v answer) (back_formed n args w larger) }
    ensures refine { (n : ℕ) (args : List Side) (action : Action) (v w : Shares) → IsSmaller v w
        → AreContained (refine_formed n args action v) (refine_formed n args action w) }
{}
