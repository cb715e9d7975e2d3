ghost use Rattle.plai_theory.specs.Domain.{Domain};
ghost use Rattle.plai_theory.specs.LeastTable.{Order};
ghost use Rattle.plai_theory.specs.Limits.{Limits};

/// Any abstract domain, with its limits on what an operation may form, and an order of row names.
pub trait AnyDomain {
    /// Its values, states, clauses and operations.
    ghost domain: { Domain };

    /// Where an operation forms a set over the limit.
    ghost limits: { Limits domain };

    /// The order in which rows stand.
    ghost before: { Order domain };
}
