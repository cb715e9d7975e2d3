//! Groundness: sets of assignments of truth to slots, as an abstract domain, and its laws.
#![tactic(auto)]

ghost use Rattle.std.specs.Prelude.{◌≡◌, ℕ, true, List, length, map, Some};
ghost use Rattle.plai_terms.specs.declared.abs.Abs.{Abs};
ghost use Rattle.plai_terms.specs.declared.term.Term.{Term};
ghost use Rattle.plai_terms.specs.Subst.{apply_of};
ghost use Rattle.plai_domain.specs.declared.action.Action.{Action};
ghost use Rattle.plai_domain.specs.Plain.{StateView};
ghost use Rattle.plai_domain.specs.Laws.{IsLawful};
ghost use Rattle.plai_domain.specs.Soundness.{TellsTruly, ActsTruly};
ghost use Rattle.plai_domain.specs.Instances.{all_below, instance_of, acts_within, allows_at};
ghost use Rattle.plai_pos_laws.specs.Groundness.{groundness};

/// Groundness has the laws that a fixpoint over an abstract domain needs: its order is one, a join is the least of the
/// values above both, each operation is monotone, and the rank gets smaller with each strict growth.
pub fn groundness_is_lawful()
    ensures { IsLawful groundness }
{}

/// What is described stays described: by each value above, by the value of the properties, and by what each operation
/// gives. What is entailed holds, and what is excluded doesn't. `tells_truly` and `acts_truly` are what every domain owes,
/// where a substitution is a function. The other clauses say more of groundness, where it is any list of bindings: an
/// instance of a clause is given by the arguments `hs` of its head and the terms `ts` of its variables, and an operation
/// may be followed by any substitution that makes the answer describe the literal's arguments, or that the action allows.
pub fn groundness_is_sound()
    ensures tells_truly { TellsTruly groundness }
    ensures acts_truly { ActsTruly groundness }

    ensures enter { (call : Abs) (head goal ts : List Term) (r : List (ℕ × Term))
        → length head ≡ length goal → all_below (length ts) head ≡ true
        → map (instance_of ts) head ≡ map (apply_of r) goal → groundness.describes call goal
        → (s : StateView) × ((groundness.enter call head (length ts)).value ≡ Some s)
        × groundness.describes_instance s (map (apply_of r) goal) ts }
    ensures call { (s : StateView) (hs ts args : List Term)
        → groundness.describes_instance s hs ts → all_below (length ts) args ≡ true
        → groundness.describes (groundness.call s args).value (map (instance_of ts) args) }
    ensures back { (s : StateView) (hs ts args : List Term) (r : List (ℕ × Term)) (answer : Abs)
        → groundness.describes_instance s hs ts → all_below (length ts) args ≡ true
        → groundness.describes answer (map (apply_of r) (map (instance_of ts) args))
        → (next : StateView) × ((groundness.back s args answer).value ≡ Some next)
        × groundness.describes_instance next (map (apply_of r) hs) (map (apply_of r) ts) }
    ensures refine { (s : StateView) (hs ts args : List Term) (r : List (ℕ × Term)) (action : Action)
        → groundness.describes_instance s hs ts → all_below (length ts) args ≡ true
        → acts_within (length args) action → allows_at (map (instance_of ts) args) r action
        → (next : StateView) × ((groundness.refine s args action).value ≡ Some next)
        × groundness.describes_instance next (map (apply_of r) hs) (map (apply_of r) ts) }
    ensures exit { (s : StateView) (hs ts head : List Term)
        → groundness.describes_instance s hs ts → groundness.describes (groundness.exit s head) hs }
{}
