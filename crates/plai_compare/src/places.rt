//! Operations compared at one place of a clause, and at one literal.
ghost use Rattle.std.specs.Prelude.{◌≡◌, ◌<◌, All, IfOk, IfSome};
ghost use Rattle.plai_compare.specs.Known.{IsPair, IsPlace};

use crate::beside::{back, call, check_property, exit, refine};
use crate::fail::{CompareFail, Operation};
use crate::generated::{actions, properties, terms, variables};
use crate::known::{Pair, Place};
use crate::numbers::Numbers;
use crate::second::SecondProgram;
use plai_base::Steps;
use plai_domain::{Action, Domain};
use plai_terms::Term;
use std::alloc::Global;
use std::sync::ledger::Ledger;

/// Compares what is entailed and excluded of each property.
pub(crate) fn check_properties<D: Domain, P: SecondProgram>(
    alloc: Global,
    domain: &D,
    second: &P,
    a: &Pair<D::Value>,
) -> Result<(), CompareFail>
    requires { IsPair (D.plain domain.now) D.value_of a.now }
{
    for property in &properties(alloc, a.known.arity)? {
        check_property(domain, second, a, property)?;
    }
    Ok(())
}

/// Compares all that is known of the variables, and the answer that would be given there.
pub(crate) fn check_place<D: Domain, P: SecondProgram, L: Ledger>(
    alloc: Global,
    domain: &D,
    second: &P,
    at: &Place<D::State, P::State>,
    head: &[Term],
    steps: &mut Steps<L>,
) -> Result<(), CompareFail>
    requires { IsPlace (D.plain domain.now) D.state_of at.now }
{
    let variables = variables(alloc, at.at.variables)?;
    call(alloc, domain, second, at, variables.as_slice(), steps)?;
    exit(alloc, domain, second, at, head, steps)?;
    Ok(())
}

/// How many of the values have so many arguments.
fn count<V: Drop>(values: &[Pair<V>], arity: u32) -> usize {
    values
        .iter()
        .filter(|pair| pair.known.arity == arity)
        .count()
}

/// One of the values of so many arguments, or none where there is none.
pub(crate) fn pick<'a, D: Domain>(
    _domain: &D,
    values: &'a [Pair<D::Value>],
    numbers: &mut Numbers,
    arity: u32,
) -> Option<&'a Pair<D::Value>>
    requires { All (IsPair (D.plain _domain.now) D.value_of) values.now }
    ensures { IfSome result (λ pair. IsPair (D.plain _domain.now) D.value_of pair.now) }
{
    let count = count(values, arity);
    if count == 0 {
        return None;
    }
    let mut left = numbers.index(count);
    for pair in values {
        if pair.known.arity == arity {
            if left == 0 {
                return Some(pair);
            }
            left -= 1;
        }
    }
    None
}

/// Compares the place, if there is one.
fn check_some<D: Domain, P: SecondProgram, L: Ledger>(
    alloc: Global,
    domain: &D,
    second: &P,
    place: &Option<Place<D::State, P::State>>,
    head: &[Term],
    steps: &mut Steps<L>,
) -> Result<(), CompareFail>
    requires { IfSome place.now (IsPlace (D.plain domain.now) D.state_of) }
{
    match place {
        None => Ok(()),
        Some(at) => check_place(alloc, domain, second, at, head, steps),
    }
}

/// Compares the places behind these actions.
fn check_actions<D: Domain, P: SecondProgram, L: Ledger>(
    alloc: Global,
    domain: &D,
    second: &P,
    at: &Place<D::State, P::State>,
    head: &[Term],
    args: &[Term],
    actions: &[Action],
    steps: &mut Steps<L>,
) -> Result<(), CompareFail>
    requires { IsPlace (D.plain domain.now) D.state_of at.now }
{
    for action in actions {
        let refined = refine(alloc, domain, second, at, args, action, steps)?;
        check_some(alloc, domain, second, &refined, head, steps)?;
    }
    Ok(())
}

/// The place behind one of these actions, or none.
fn acted<D: Domain, P: SecondProgram, L: Ledger>(
    alloc: Global,
    domain: &D,
    second: &P,
    at: &Place<D::State, P::State>,
    args: &[Term],
    actions: &[Action],
    numbers: &mut Numbers,
    steps: &mut Steps<L>,
) -> Result<Option<Place<D::State, P::State>>, CompareFail>
    requires { IsPlace (D.plain domain.now) D.state_of at.now }
    ensures { IfOk result (λ next. IfSome next (IsPlace (D.plain domain.now) D.state_of)) }
{
    if actions.is_empty() {
        return Err(CompareFail::Unfit(Operation::Refine));
    }
    let chosen = &actions[numbers.index(actions.len())];
    refine(alloc, domain, second, at, args, chosen, steps)
}

/// The place behind an answer to the literal of so many arguments, or none. The answer is one of the values.
fn answered<D: Domain, P: SecondProgram, L: Ledger>(
    alloc: Global,
    domain: &D,
    second: &P,
    at: &Place<D::State, P::State>,
    args: &[Term],
    arguments: u32,
    values: &[Pair<D::Value>],
    numbers: &mut Numbers,
    steps: &mut Steps<L>,
) -> Result<Option<Place<D::State, P::State>>, CompareFail>
    requires at { IsPlace (D.plain domain.now) D.state_of at.now }
    requires values { All (IsPair (D.plain domain.now) D.value_of) values.now }
    ensures { IfOk result (λ next. IfSome next (IsPlace (D.plain domain.now) D.state_of)) }
{
    match pick(domain, values, numbers, arguments) {
        None => Err(CompareFail::Unfit(Operation::Back)),
        Some(answer) => back(alloc, domain, second, at, args, answer, steps),
    }
}

/// Compares a literal's call, the place behind its answer and the places behind actions, and gives one of those places or
/// none.
pub(crate) fn check_literal<D: Domain, P: SecondProgram, L: Ledger>(
    alloc: Global,
    domain: &D,
    second: &P,
    at: &Place<D::State, P::State>,
    head: &[Term],
    values: &[Pair<D::Value>],
    numbers: &mut Numbers,
    steps: &mut Steps<L>,
) -> Result<Option<Place<D::State, P::State>>, CompareFail>
    requires at { IsPlace (D.plain domain.now) D.state_of at.now }
    requires values { All (IsPair (D.plain domain.now) D.value_of) values.now }
    ensures { IfOk result (λ next. IfSome next (IsPlace (D.plain domain.now) D.state_of)) }
{
    let arguments = numbers.below(4);
    let args = terms(alloc, numbers, arguments, at.at.variables)?;
    call(alloc, domain, second, at, args.as_slice(), steps)?;
    let behind = answered(
        alloc,
        domain,
        second,
        at,
        args.as_slice(),
        arguments,
        values,
        numbers,
        steps,
    )?;
    check_some(alloc, domain, second, &behind, head, steps)?;
    let actions = actions(alloc, numbers, arguments)?;
    check_actions(
        alloc,
        domain,
        second,
        at,
        head,
        args.as_slice(),
        actions.as_slice(),
        steps,
    )?;
    if behind.is_some() && numbers.below(3) > 0 {
        return Ok(behind);
    }
    acted(
        alloc,
        domain,
        second,
        at,
        args.as_slice(),
        actions.as_slice(),
        numbers,
        steps,
    )
}
