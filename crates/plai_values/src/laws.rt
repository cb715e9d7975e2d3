// Laws of the definitions, as the contracts of functions that do nothing.
ghost use Rattle.std.specs.Prelude.{◌≡◌, ◌↔◌};
ghost use Rattle.std.specs.Ordering.{ordering_reverse};
ghost use Rattle.std.specs.declared.cmp.Ordering.TheVariants.{Less, Equal};
ghost use Rattle.plai_terms.specs.declared.term.Term.{Term};
ghost use Rattle.plai_values.specs.TermOrder.{term_order};

/// The standard order is total, and puts no term beside another that isn't equal.
pub fn term_order_is_total()
    ensures equal { (t u : Term) → (term_order t u ≡ Equal) ↔ (t ≡ u) }
    ensures opposite { (t u : Term) → term_order t u ≡ ordering_reverse (term_order u t) }
    ensures transitive { (t u v : Term) → term_order t u ≡ Less → term_order u v ≡ Less → term_order t v ≡ Less }
{}
