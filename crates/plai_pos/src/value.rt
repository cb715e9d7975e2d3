ghost use Rattle.std.specs.Prelude.{◌≡◌, ◌≤◌, ◌<◌, ◌+◌, ℕ, true, length, IfOk};
ghost use Rattle.plai_base.specs.Mask.{all_true, has_slot};
ghost use Rattle.plai_bdd.specs.Assignment.{Assignment};
ghost use Rattle.plai_bdd.specs.Nodes.{IsCanonical, IsOver, is_model};
ghost use Rattle.plai_factors.specs.Product.{together};
ghost use Rattle.plai_bdd.specs.Props.{IsCanonical-prop};
ghost use Rattle.plai_pos.specs.TermSlots.{AreBelow};

use plai_base::Mask;
use plai_bdd::Bdd;
use plai_factors::{Factor, share_all, with_function};
use std::alloc::{AllocError, Global};

/// What is known of the arguments of a call or an answer: a Boolean function of them that is true where all are. Argument
/// `i`, numbered from 1, is slot `i - 1`; a true slot stands for a ground argument.
#[derive(PartialEq, Eq, Hash, Drop)]
pub struct Value {
    pub(crate) arity: u32,
    pub(crate) diagram: Bdd,
    pub ghost small: { arity ≤ 16 },
    pub ghost canonical: { IsCanonical diagram } by { IsCanonical-prop diagram },
    pub ghost over: { IsOver arity diagram },
    pub ghost top: { is_model diagram (all_true arity) ≡ true },
}

/// What is known of a clause's head arguments and variables, at a place of the clause: a Boolean function of the variables,
/// variable `v` being slot `v`, that is true where all are, and for each argument the set of its variables' slots. An
/// argument is true exactly where all slots of its set are. The function is kept as factors, all of which are true where it
/// is, so that it is small though it may be over many variables. States share their factors.
#[derive(Drop)]
pub struct State {
    pub(crate) arity: u32,
    pub(crate) variables: u32,
    pub(crate) sets: Vec<Mask>,
    pub(crate) factors: Vec<Factor>,
    pub ghost small: { arity ≤ 16 },
    pub ghost slots: { arity + variables ≤ 64 },
    pub ghost size: { length sets.items ≡ arity },
    pub ghost below: { AreBelow variables sets.items },
    pub ghost over: { (at other : Assignment) → ((slot : ℕ) → slot < variables → at slot ≡ other slot)
        → together factors.items at ≡ together factors.items other },
    pub ghost top: { together factors.items (has_slot (all_true variables)) ≡ true },
}

impl State {
    ghost use Rattle.std.specs.Prelude.{filter};
    ghost use Rattle.plai_bdd.specs.Nodes.{holds};
    ghost use Rattle.plai_pos_laws.specs.Groundness.{state_with};
    ghost use Rattle.plai_pos.specs.Values.{state_of, IsPositiveBelow, models_in, determined};

    /// The state at another place of the same clause, with these factors.
    fn with_factors(&self, alloc: Global, factors: Vec<Factor>) -> Result<State, AllocError>
        requires { IsPositiveBelow self.now.variables (together factors.items) }
        ensures { IfOk result (λ next. state_of next ≡ state_with self.now.arity self.now.variables
            (determined self.now.arity self.now.variables self.now.sets.items (models_in self.now.variables (together factors.items)))) }
    {
        let sets = Vec::from_slice(alloc, self.sets.as_slice())?;
        Ok(State {
            arity: self.arity,
            variables: self.variables,
            sets,
            factors,
        })
    }

    /// An equal state.
    pub(crate) fn copy(&self, alloc: Global) -> Result<State, AllocError>
        ensures { IfOk result (λ next. state_of next ≡ state_of self.now) }
    {
        let factors = share_all(alloc, self.factors.as_slice())?;
        self.with_factors(alloc, factors)
    }

    /// The state where this function is true as well.
    pub(crate) fn with_function(&self, alloc: Global, function: Bdd) -> Result<State, AllocError>
        requires { IsPositiveBelow self.now.variables (holds function) }
        ensures { IfOk result (λ next. state_of next ≡ state_with self.now.arity self.now.variables
            (determined self.now.arity self.now.variables self.now.sets.items
            (filter (λ y. holds function (has_slot y)) (models_in self.now.variables (together self.now.factors.items))))) }
    {
        let factors = share_all(alloc, self.factors.as_slice())?;
        let factors = with_function(alloc, factors, function)?;
        self.with_factors(alloc, factors)
    }
}
