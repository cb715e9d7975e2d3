ghost use Rattle.std.specs.Prelude.{◌≡◌, ℕ, ◌≤◌, true, List, length, Option, Some};
ghost use Rattle.plai_theory.specs.Words.{IsIn};
ghost use Rattle.plai_terms.specs.declared.term.Term.{Term};
ghost use Rattle.plai_terms.specs.Subst.{bound_to};
ghost use Rattle.plai_terms.specs.Substitution.{AreBelow};
ghost use Rattle.plai_terms.specs.Unification.{Bindings};
ghost use Rattle.plai_domain.specs.declared.action.Action.{Action};
ghost use Rattle.plai_domain.specs.Instances.{acts_within};
ghost use Rattle.plai_clauses.specs.Builtins.{is_builtin_key};
ghost use Rattle.plai_builtins.specs.Actions.{actions_of};
ghost use Rattle.plai_builtins.specs.InTurn.{AllowedInTurn};
ghost use Rattle.plai_builtins.specs.Meaning.{Means};

/// What holds of the builtins' actions.
pub fn table_laws()
    // What has actions is a builtin.
    ensures keys { (name : List ℕ) (arity : ℕ) (action : Action) → IsIn action (actions_of name arity) → is_builtin_key name arity ≡ true }

    // An action's numbers are those of the literal's arguments, and no builtin has more than three actions.
    ensures within { (name : List ℕ) (arity : ℕ) (action : Action) → IsIn action (actions_of name arity) → acts_within arity action }
    ensures few { (name : List ℕ) (arity : ℕ) → length (actions_of name arity) ≤ 3 }
{}

/// What holds of the builtins' meanings, at any name.
pub fn meanings_are_allowed()
    // At any arguments there is one: a substitution, or none.
    ensures total { (name : List ℕ) (args : List Term) (fresh : ℕ) → (found : Option Bindings) × Means name args fresh found }
    ensures one { (name : List ℕ) (args : List Term) (fresh : ℕ) (a b : Option Bindings) → Means name args fresh a → Means name args fresh b → a ≡ b }

    // A substitution is a composition of some that the builtin's actions allow in turn, where `fresh` is above the arguments' variables.
    ensures allowed { (name : List ℕ) (args : List Term) (fresh : ℕ) (s : Bindings) → AreBelow fresh args → Means name args fresh (Some s) → AllowedInTurn fresh (actions_of name (length args)) args (bound_to s) }
{}
