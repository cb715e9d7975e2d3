//! Groundness by lists of models, as in the article's definitions (Marriott and Sondergaard 1993): what the decision diagrams
//! of `Ground` are compared with. A function of slots is the ascending list of its models, the assignments at which it is true.
//! Of an assignment bit `i` is the truth of slot `i`.
ghost use Rattle.std.specs.Prelude.{◌<◌, ◌≡◌, IfOk, IfSome};
ghost use Rattle.plai_base.specs.Mask.{has_slot};

use plai_base::Mask;
use plai_domain::Action;
use plai_terms::{Prop, Term};
use std::alloc::{AllocError, Global};

/// What is known at a place of a clause: the models over the slots of its head's arguments and of its variables behind them.
#[derive(Drop)]
pub struct Place {
    /// The number of the head's arguments: variable `k` is slot `arity + k`.
    pub arity: u32,
    /// The models.
    pub models: Vec<u64>,
}

/// Whether the slot is true. No slot from 64 on is.
fn is_true(assignment: u64, slot: u32) -> bool
    ensures { result ≡ has_slot assignment slot }
{
    Mask::from_bits(assignment).has(slot)
}

/// Whether the argument, numbered from 1, is true.
fn has_argument(assignment: u64, argument: u32) -> bool {
    argument > 0 && is_true(assignment, argument - 1)
}

/// The part of the assignment on the first slots.
fn first_slots(assignment: u64, slots: u32) -> u64 {
    assignment & !u64::MAX.checked_shl(slots).unwrap_or(0)
}

/// Whether all variables of the term are true, where variable `k` is slot `first + k`.
fn holds(assignment: u64, first: u32, term: &Term) -> bool {
    match term {
        Term::Var(variable) => is_true(assignment, first.saturating_add(*variable)),
        Term::Int(_) | Term::Atom(_) => true,
        Term::Compound(_, args) => {
            for arg in args.as_slice() {
                if !holds(assignment, first, arg) {
                    return false;
                }
            }
            true
        }
    }
}

/// The assignment to the terms, the first term being slot 0: each is true exactly where all its variables are.
fn pattern(assignment: u64, first: u32, terms: &[Term]) -> u64 {
    let mut pattern = 0;
    for term in terms.iter().rev() {
        pattern = pattern << 1 | u64::from(holds(assignment, first, term));
    }
    pattern
}

/// These assignments in ascending order, each once.
fn ascending(assignments: Vec<u64>) -> Vec<u64> {
    let mut models = assignments;
    models.sort_unstable();
    models.dedup();
    models
}

/// The assignments to so many slots that pass the test.
fn passing<F: Fn(u64) -> bool>(alloc: Global, slots: u32, test: F) -> Result<Vec<u64>, AllocError>
    requires few { slots < 64 }
    requires test { F.IsAlwaysCallable test }
{
    let mut models = Vec::new(alloc);
    for assignment in 0..1u64 << slots {
        if test(assignment) {
            models.push(assignment)?;
        }
    }
    Ok(models)
}

/// The models of the properties of so many arguments.
pub fn describe(alloc: Global, arity: u32, pre: &[Prop]) -> Result<Vec<u64>, AllocError>
    requires { arity < 64 }
{
    passing(
        alloc,
        arity,
        |x| pre.iter().all(|property| allows(x, property)),
    )
}

/// Whether the property of a tuple keeps the assignment.
fn allows(assignment: u64, property: &Prop) -> bool {
    match property {
        Prop::Ground(i) | Prop::Int(i) => has_argument(assignment, *i),
        Prop::Var(_) | Prop::Nonvar(_) | Prop::Indep(_, _) => true,
    }
}

/// The start of a clause with this head and so many variables: each of the head's arguments is true exactly where all its
/// variables are, and the arguments are a model of the call.
pub fn enter(
    alloc: Global,
    call: &[u64],
    head: &[Term],
    arity: u32,
    variables: u32,
) -> Result<Place, AllocError>
    requires arity { arity < 32 }
    requires variables { variables < 32 }
    ensures { IfOk result (λ place. place.arity ≡ arity) }
{
    let models = passing(alloc, arity + variables, |x| {
        let arguments = first_slots(x, arity);
        call.contains(&arguments) && pattern(x, arity, head) == arguments
    })?;
    Ok(Place { arity, models })
}

impl Place {
    /// The place with those of its models that pass.
    fn keep<F: Fn(u64) -> bool>(&self, alloc: Global, test: F) -> Result<Place, AllocError>
        requires { F.IsAlwaysCallable test }
        ensures { IfOk result (λ place. place.arity ≡ self.now.arity) }
    {
        let mut models = Vec::new(alloc);
        for model in &self.models {
            if test(*model) {
                models.push(*model)?;
            }
        }
        Ok(Place {
            arity: self.arity,
            models,
        })
    }

    /// The call of a literal with these arguments: what they are at the models.
    pub fn call(&self, alloc: Global, args: &[Term]) -> Result<Vec<u64>, AllocError> {
        let patterns = self
            .models
            .iter()
            .map(|x| pattern(*x, self.arity, args))
            .collect(alloc)?;
        Ok(ascending(patterns))
    }

    /// The place behind a literal with these arguments and this answer: the models at which the arguments are in the answer.
    pub fn back(&self, alloc: Global, args: &[Term], answer: &[u64]) -> Result<Place, AllocError>
        ensures { IfOk result (λ place. place.arity ≡ self.now.arity) }
    {
        self.keep(alloc, |x| answer.contains(&pattern(x, self.arity, args)))
    }

    /// What an action of a builtin leaves of the place at a literal with these arguments, or none.
    pub fn refine(
        &self,
        alloc: Global,
        args: &[Term],
        action: &Action,
    ) -> Result<Option<Place>, AllocError>
        ensures { IfOk result (λ next. IfSome next (λ place. place.arity ≡ self.now.arity)) }
    {
        let arguments = |x: u64| pattern(x, self.arity, args);
        let next = match action {
            Action::Fail => return Ok(None),
            Action::Unify(i, j) | Action::Same(i, j) => {
                self.keep(
                    alloc,
                    |x| has_argument(arguments(x), *i) == has_argument(arguments(x), *j),
                )?
            }
            Action::Ground(i) | Action::BindInt(i) => self.keep(
                alloc,
                |x| has_argument(arguments(x), *i),
            )?,
            Action::Var(i) if !self.may_be_variable(args, *i) => return Ok(None),
            Action::Var(_) | Action::Nonvar(_) | Action::Havoc(_) => self.keep(alloc, |_| true)?,
        };
        Ok(Some(next))
    }

    /// Whether the argument, numbered from 1, is a variable, and not true at all models.
    fn may_be_variable(&self, args: &[Term], argument: u32) -> bool {
        let at = argument.saturating_sub(1) as usize;
        match args.get(at) {
            Some(Term::Var(variable)) => {
                let slot = self.arity.saturating_add(*variable);
                !self.models.iter().all(|x| is_true(*x, slot))
            }
            _ => false,
        }
    }

    /// The answer of the clause: the arguments' part of the models.
    pub fn exit(&self, alloc: Global) -> Result<Vec<u64>, AllocError> {
        let parts = self
            .models
            .iter()
            .map(|x| first_slots(*x, self.arity))
            .collect(alloc)?;
        Ok(ascending(parts))
    }
}

/// The models of either.
pub fn join(alloc: Global, a: &[u64], b: &[u64]) -> Result<Vec<u64>, AllocError> {
    let mut both = Vec::from_slice(alloc, a)?;
    both.extend_from_slice(b)?;
    Ok(ascending(both))
}

/// Whether each tuple that the model describes has the property. None has the others at each model.
pub fn entails(model: u64, property: &Prop) -> bool {
    match property {
        Prop::Ground(i) | Prop::Nonvar(i) => has_argument(model, *i),
        Prop::Indep(i, j) => has_argument(model, *i) || has_argument(model, *j),
        Prop::Var(_) | Prop::Int(_) => false,
    }
}

/// Whether no tuple that the model describes has the property.
pub fn excludes(model: u64, property: &Prop) -> bool {
    match property {
        Prop::Var(i) => has_argument(model, *i),
        Prop::Ground(_) | Prop::Nonvar(_) | Prop::Int(_) | Prop::Indep(_, _) => false,
    }
}
