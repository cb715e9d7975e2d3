//! The operations of a domain at what was generated or made by hand, within what they take.
ghost use Rattle.std.specs.Prelude.{◌≡◌, IfOk, IfSome, All};
ghost use Rattle.plai_domain.specs.Instances.{speaks_within};
ghost use Rattle.plai_compare.specs.Known.{IsKnown, IsReached, IsStateOf};

use crate::fail::{CompareFail, Operation};
use crate::fits::{acts_within, all_speak, are_arguments, is_head};
use crate::known::{Known, Reached};
use plai_base::Steps;
use plai_domain::{Action, Domain};
use plai_terms::{Prop, Term};
use std::alloc::Global;
use std::sync::ledger::Ledger;

/// The value of so many arguments, at most 16, with these properties.
///
/// # Errors
/// `Unfit` where there are more arguments, or a property speaks of others; want of memory.
pub fn describe<D: Domain>(
    alloc: Global,
    domain: &D,
    arity: u32,
    pre: &[Prop],
) -> Result<Known<D::Value>, CompareFail>
    ensures known { IfOk result (IsKnown (D.plain domain.now) D.value_of) }
    ensures arity { IfOk result (λ known. known.arity ≡ arity) }
{
    if arity > 16 || !all_speak(arity, pre) {
        return Err(CompareFail::Unfit(Operation::Describe));
    }
    let value = domain.describe(alloc, arity, pre)?;
    Ok(Known { arity, value })
}

/// The state, if there is one, at a place of a clause of so many arguments and variables.
fn reached<D: Domain>(
    _domain: &D,
    arity: u32,
    variables: u32,
    state: Option<D::State>,
) -> Option<Reached<D::State>>
    requires { IfSome state (λ s. IsStateOf (D.plain _domain.now) arity variables (D.state_of s)) }
    ensures { IfSome result (IsReached (D.plain _domain.now) D.state_of) }
{
    match state {
        None => None,
        Some(state) => Some(Reached {
            arity,
            variables,
            state,
        }),
    }
}

/// The start of a clause of so many variables, at most 48, or none.
///
/// # Errors
/// `Unfit` where the head has another number of arguments or other variables; `Over` with the domain's place; want of memory.
pub fn enter<D: Domain, L: Ledger>(
    alloc: Global,
    domain: &D,
    call: &Known<D::Value>,
    head: &[Term],
    variables: u32,
    steps: &mut Steps<L>,
) -> Result<Option<Reached<D::State>>, CompareFail>
    requires { IsKnown (D.plain domain.now) D.value_of call.now }
    ensures { IfOk result (λ found. IfSome found (IsReached (D.plain domain.now) D.state_of)) }
{
    let fits = is_head(alloc, call.arity, variables, head)?;
    if !fits {
        return Err(CompareFail::Unfit(Operation::Enter));
    }
    match domain.enter(alloc, &call.value, head, variables, steps) {
        Ok(state) => Ok(reached(domain, call.arity, variables, state)),
        Err(fail) => Err(CompareFail::at(Operation::Enter, fail)),
    }
}

/// The call of a literal with these arguments, of a clause of at most 32 variables.
///
/// # Errors
/// `Unfit` where these are too many or have other variables; `Over` with the domain's place; want of memory.
pub fn call<D: Domain, L: Ledger>(
    alloc: Global,
    domain: &D,
    at: &Reached<D::State>,
    args: &[Term],
    steps: &mut Steps<L>,
) -> Result<Known<D::Value>, CompareFail>
    requires { IsReached (D.plain domain.now) D.state_of at.now }
    ensures { IfOk result (IsKnown (D.plain domain.now) D.value_of) }
{
    let fits = are_arguments(alloc, at.arity, at.variables, args)?;
    if !fits {
        return Err(CompareFail::Unfit(Operation::Call));
    }
    match domain.call(alloc, &at.state, args, steps) {
        Ok(value) => Ok(Known {
            arity: args.len() as u32,
            value,
        }),
        Err(fail) => Err(CompareFail::at(Operation::Call, fail)),
    }
}

/// The place behind an answer to a literal, or none.
///
/// # Errors
/// As of [`call`], and `Unfit` where the answer has another number of arguments.
pub fn back<D: Domain, L: Ledger>(
    alloc: Global,
    domain: &D,
    at: &Reached<D::State>,
    args: &[Term],
    answer: &Known<D::Value>,
    steps: &mut Steps<L>,
) -> Result<Option<Reached<D::State>>, CompareFail>
    requires state { IsReached (D.plain domain.now) D.state_of at.now }
    requires answer { IsKnown (D.plain domain.now) D.value_of answer.now }
    ensures { IfOk result (λ found. IfSome found (IsReached (D.plain domain.now) D.state_of)) }
{
    let fits = are_arguments(alloc, at.arity, at.variables, args)?;
    if !fits || args.len() != answer.arity as usize {
        return Err(CompareFail::Unfit(Operation::Back));
    }
    match domain.back(alloc, &at.state, args, &answer.value, steps) {
        Ok(state) => Ok(reached(domain, at.arity, at.variables, state)),
        Err(fail) => Err(CompareFail::at(Operation::Back, fail)),
    }
}

/// The place behind an action at a literal of at most three arguments, or none.
///
/// # Errors
/// As of [`call`], and `Unfit` where the action names other arguments.
pub fn refine<D: Domain, L: Ledger>(
    alloc: Global,
    domain: &D,
    at: &Reached<D::State>,
    args: &[Term],
    action: &Action,
    steps: &mut Steps<L>,
) -> Result<Option<Reached<D::State>>, CompareFail>
    requires { IsReached (D.plain domain.now) D.state_of at.now }
    ensures { IfOk result (λ found. IfSome found (IsReached (D.plain domain.now) D.state_of)) }
{
    let fits = are_arguments(alloc, at.arity, at.variables, args)?;
    if !fits || !acts_within(args.len(), action) {
        return Err(CompareFail::Unfit(Operation::Refine));
    }
    match domain.refine(alloc, &at.state, args, action, steps) {
        Ok(state) => Ok(reached(domain, at.arity, at.variables, state)),
        Err(fail) => Err(CompareFail::at(Operation::Refine, fail)),
    }
}

/// The answer of a clause with this head.
///
/// # Errors
/// `Unfit` where the head has another number of arguments or other variables; want of memory.
pub fn exit<D: Domain, L: Ledger>(
    alloc: Global,
    domain: &D,
    at: &Reached<D::State>,
    head: &[Term],
    steps: &mut Steps<L>,
) -> Result<Known<D::Value>, CompareFail>
    requires { IsReached (D.plain domain.now) D.state_of at.now }
    ensures { IfOk result (IsKnown (D.plain domain.now) D.value_of) }
{
    let fits = is_head(alloc, at.arity, at.variables, head)?;
    if !fits {
        return Err(CompareFail::Unfit(Operation::Exit));
    }
    let value = domain.exit(alloc, &at.state, head, steps)?;
    Ok(Known {
        arity: at.arity,
        value,
    })
}

/// The least value above two.
///
/// # Errors
/// `Unfit` where they have different numbers of arguments; want of memory.
pub fn join<D: Domain, L: Ledger>(
    alloc: Global,
    domain: &D,
    a: &Known<D::Value>,
    b: &Known<D::Value>,
    steps: &mut Steps<L>,
) -> Result<Known<D::Value>, CompareFail>
    requires first { IsKnown (D.plain domain.now) D.value_of a.now }
    requires second { IsKnown (D.plain domain.now) D.value_of b.now }
    ensures { IfOk result (IsKnown (D.plain domain.now) D.value_of) }
{
    if a.arity != b.arity {
        return Err(CompareFail::Unfit(Operation::Join));
    }
    let value = domain.join(alloc, &a.value, &b.value, steps)?;
    Ok(Known {
        arity: a.arity,
        value,
    })
}
