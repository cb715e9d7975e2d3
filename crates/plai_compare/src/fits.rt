//! Whether generated terms, properties and actions are within what the operations take.
ghost use Rattle.std.specs.Prelude.{◌≡◌, IfOk, IsTrue, All};
ghost use Rattle.plai_domain.specs.Conditions.{IsHead, AreArguments};
ghost use Rattle.plai_domain.specs.Instances.{all_below, speaks_within, acts_within};

use plai_domain::Action;
use plai_terms::{Prop, Term};
use std::alloc::{AllocError, Global};

/// Whether each variable of the terms is numbered below the limit.
fn are_below(alloc: Global, limit: u32, terms: &[Term]) -> Result<bool, AllocError>
    ensures { IfOk result (λ below. below ≡ all_below limit terms.now) }
{
    for term in terms {
        if !term.has_variables_below(alloc, limit)? {
            return Ok(false);
        }
    }
    Ok(true)
}

/// Whether the terms may be the head of a clause of so many arguments and variables.
pub(crate) fn is_head(
    alloc: Global,
    arity: u32,
    variables: u32,
    head: &[Term],
) -> Result<bool, AllocError>
    ensures { IfOk result (λ is. IsTrue is → IsHead arity variables head.now) }
{
    let below = are_below(alloc, variables, head)?;
    Ok(arity <= 16 && variables <= 48 && head.len() == arity as usize && below)
}

/// Whether the terms may be the arguments of a literal of a clause of so many arguments and variables.
pub(crate) fn are_arguments(
    alloc: Global,
    arity: u32,
    variables: u32,
    args: &[Term],
) -> Result<bool, AllocError>
    ensures { IfOk result (λ are. IsTrue are → AreArguments arity variables args.now) }
{
    let below = are_below(alloc, variables, args)?;
    Ok(arity <= 16 && variables <= 32 && args.len() <= 16 && below)
}

/// Whether the property is of so many arguments.
pub(crate) fn speaks_within(arity: u32, property: &Prop) -> bool
    ensures { IsTrue result → speaks_within arity property.now }
{
    match property {
        Prop::Ground(i) | Prop::Var(i) | Prop::Nonvar(i) | Prop::Int(i) => 1 <= *i && *i <= arity,
        Prop::Indep(i, j) => 1 <= *i && *i <= arity && 1 <= *j && *j <= arity,
    }
}

/// Whether each of the properties is of so many arguments.
pub(crate) fn all_speak(arity: u32, pre: &[Prop]) -> bool
    ensures { IsTrue result → All (speaks_within arity) pre.now }
{
    for property in pre {
        if !speaks_within(arity, property) {
            return false;
        }
    }
    true
}

/// Whether the action is on so many arguments, of which there are at most three.
pub(crate) fn acts_within(arguments: usize, action: &Action) -> bool
    ensures { IsTrue result → acts_within arguments action.now }
{
    match action {
        Action::Fail => true,
        Action::Unify(i, j) | Action::Same(i, j) => {
            1 <= *i && *i as usize <= arguments && 1 <= *j && *j as usize <= arguments
        }
        Action::Ground(i) | Action::BindInt(i) | Action::Var(i) | Action::Nonvar(i) => {
            1 <= *i && *i as usize <= arguments
        }
        Action::Havoc(slots) => match arguments {
            0 => slots.bits() < 1,
            1 => slots.bits() < 2,
            2 => slots.bits() < 4,
            3 => slots.bits() < 8,
            _ => false,
        },
    }
}
