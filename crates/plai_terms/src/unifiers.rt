// Laws of unification, as the contract of a function that does nothing.
ghost use Rattle.std.specs.Prelude.{◌≡◌, ℕ, List, length, map};
ghost use Rattle.plai_terms.specs.declared.outcome.Outcome.{Outcome};
ghost use Rattle.plai_terms.specs.declared.term.Term.{Term};
ghost use Rattle.plai_terms.specs.Subst.{bound_to};
ghost use Rattle.plai_terms.specs.Substitution.{under};
ghost use Rattle.plai_terms.specs.Unification.{Bindings, UnifiesTo};
ghost use Rattle.plai_terms.specs.Unifiers.{AreUnifiedBy, IsMostGeneral};

/// Two lists of terms have one outcome: bindings that are a most general unifier, idempotent and local to
/// the terms, wherever some substitution makes the terms equal (Robinson 1965).
pub fn unifiers_are_most_general()
    ensures total { (left right : List Term) → (o : Outcome) × UnifiesTo left right o }
    ensures one { (left right : List Term) (o p : Outcome) → UnifiesTo left right o → UnifiesTo left right p → o ≡ p }
    ensures most_general { (left right : List Term) (s : Bindings) → length left ≡ length right → AreUnifiedBy left right s → IsMostGeneral left right s }
    ensures idempotent { (left right : List Term) (s : Bindings) → length left ≡ length right → AreUnifiedBy left right s → (t : Term) → under (bound_to s) (under (bound_to s) t) ≡ under (bound_to s) t }
    ensures found { (left right : List Term) (f : ℕ → Term) → map (under f) left ≡ map (under f) right → (s : Bindings) × AreUnifiedBy left right s }
{}
