//! Operations of the domain beside those of the second program.
ghost use Rattle.std.specs.Prelude.{◌≡◌, IfOk, IfSome};
ghost use Rattle.plai_compare.specs.Known.{IsKnown, IsReached, IsPair, IsPlace};

use crate::fail::{CompareFail, Operation};
use crate::fits::speaks_within;
use crate::known::{Known, Pair, Place, Reached};
use crate::second::SecondProgram;
use crate::tried;
use plai_base::Steps;
use plai_domain::{Action, Domain};
use plai_terms::{Abs, Prop, Term};
use std::alloc::Global;
use std::sync::ledger::Ledger;

/// The value and the pattern, which are equal.
fn equal<D: Domain>(
    alloc: Global,
    domain: &D,
    operation: Operation,
    known: Known<D::Value>,
    pattern: Abs,
) -> Result<Pair<D::Value>, CompareFail>
    requires { IsKnown (D.plain domain.now) D.value_of known }
    ensures { IfOk result (IsPair (D.plain domain.now) D.value_of) }
{
    let found = domain.to_abs(alloc, &known.value)?;
    if found != pattern {
        return Err(CompareFail::Differs(operation));
    }
    Ok(Pair { known, pattern })
}

/// Both states, or none where both are none.
fn both<D: Domain, P: SecondProgram>(
    _domain: &D,
    operation: Operation,
    at: Option<Reached<D::State>>,
    second: Option<P::State>,
) -> Result<Option<Place<D::State, P::State>>, CompareFail>
    requires { IfSome at (IsReached (D.plain _domain.now) D.state_of) }
    ensures { IfOk result (λ found. IfSome found (IsPlace (D.plain _domain.now) D.state_of)) }
{
    match at {
        None => match second {
            None => Ok(None),
            Some(_) => Err(CompareFail::Differs(operation)),
        },
        Some(at) => match second {
            None => Err(CompareFail::Differs(operation)),
            Some(second) => Ok(Some(Place { at, second })),
        },
    }
}

/// What the properties say of so many arguments.
pub(crate) fn describe<D: Domain, P: SecondProgram>(
    alloc: Global,
    domain: &D,
    second: &P,
    arity: u32,
    pre: &[Prop],
) -> Result<Pair<D::Value>, CompareFail>
    ensures { IfOk result (IsPair (D.plain domain.now) D.value_of) }
{
    let known = tried::describe(alloc, domain, arity, pre)?;
    let pattern = second.describe(alloc, arity, pre)?;
    equal(alloc, domain, Operation::Describe, known, pattern)
}

/// The start of a clause, or none.
pub(crate) fn enter<D: Domain, P: SecondProgram, L: Ledger>(
    alloc: Global,
    domain: &D,
    second: &P,
    call: &Pair<D::Value>,
    head: &[Term],
    variables: u32,
    steps: &mut Steps<L>,
) -> Result<Option<Place<D::State, P::State>>, CompareFail>
    requires { IsPair (D.plain domain.now) D.value_of call.now }
    ensures { IfOk result (λ found. IfSome found (IsPlace (D.plain domain.now) D.state_of)) }
{
    let at = tried::enter(alloc, domain, &call.known, head, variables, steps)?;
    let plain = second.enter(alloc, &call.pattern, head, variables)?;
    both::<D, P>(domain, Operation::Enter, at, plain)
}

/// What a literal's arguments are at the place.
pub(crate) fn call<D: Domain, P: SecondProgram, L: Ledger>(
    alloc: Global,
    domain: &D,
    second: &P,
    place: &Place<D::State, P::State>,
    args: &[Term],
    steps: &mut Steps<L>,
) -> Result<Pair<D::Value>, CompareFail>
    requires { IsPlace (D.plain domain.now) D.state_of place.now }
    ensures { IfOk result (IsPair (D.plain domain.now) D.value_of) }
{
    let known = tried::call(alloc, domain, &place.at, args, steps)?;
    let pattern = second.call(alloc, &place.second, args)?;
    equal(alloc, domain, Operation::Call, known, pattern)
}

/// The place behind a literal's answer, or none.
pub(crate) fn back<D: Domain, P: SecondProgram, L: Ledger>(
    alloc: Global,
    domain: &D,
    second: &P,
    place: &Place<D::State, P::State>,
    args: &[Term],
    answer: &Pair<D::Value>,
    steps: &mut Steps<L>,
) -> Result<Option<Place<D::State, P::State>>, CompareFail>
    requires place { IsPlace (D.plain domain.now) D.state_of place.now }
    requires answer { IsPair (D.plain domain.now) D.value_of answer.now }
    ensures { IfOk result (λ found. IfSome found (IsPlace (D.plain domain.now) D.state_of)) }
{
    let at = tried::back(alloc, domain, &place.at, args, &answer.known, steps)?;
    let plain = second.back(alloc, &place.second, args, &answer.pattern)?;
    both::<D, P>(domain, Operation::Back, at, plain)
}

/// The place behind an action, or none.
pub(crate) fn refine<D: Domain, P: SecondProgram, L: Ledger>(
    alloc: Global,
    domain: &D,
    second: &P,
    place: &Place<D::State, P::State>,
    args: &[Term],
    action: &Action,
    steps: &mut Steps<L>,
) -> Result<Option<Place<D::State, P::State>>, CompareFail>
    requires { IsPlace (D.plain domain.now) D.state_of place.now }
    ensures { IfOk result (λ found. IfSome found (IsPlace (D.plain domain.now) D.state_of)) }
{
    let at = tried::refine(alloc, domain, &place.at, args, action, steps)?;
    let plain = second.refine(alloc, &place.second, args, action)?;
    both::<D, P>(domain, Operation::Refine, at, plain)
}

/// The answer of a clause with this head.
pub(crate) fn exit<D: Domain, P: SecondProgram, L: Ledger>(
    alloc: Global,
    domain: &D,
    second: &P,
    place: &Place<D::State, P::State>,
    head: &[Term],
    steps: &mut Steps<L>,
) -> Result<Pair<D::Value>, CompareFail>
    requires { IsPlace (D.plain domain.now) D.state_of place.now }
    ensures { IfOk result (IsPair (D.plain domain.now) D.value_of) }
{
    let known = tried::exit(alloc, domain, &place.at, head, steps)?;
    let pattern = second.exit(alloc, &place.second, head)?;
    equal(alloc, domain, Operation::Exit, known, pattern)
}

/// The least value above two.
pub(crate) fn join<D: Domain, P: SecondProgram, L: Ledger>(
    alloc: Global,
    domain: &D,
    second: &P,
    a: &Pair<D::Value>,
    b: &Pair<D::Value>,
    steps: &mut Steps<L>,
) -> Result<Pair<D::Value>, CompareFail>
    requires first { IsPair (D.plain domain.now) D.value_of a.now }
    requires second { IsPair (D.plain domain.now) D.value_of b.now }
    ensures { IfOk result (IsPair (D.plain domain.now) D.value_of) }
{
    let known = tried::join(alloc, domain, &a.known, &b.known, steps)?;
    let pattern = second.join(alloc, &a.pattern, &b.pattern)?;
    equal(alloc, domain, Operation::Join, known, pattern)
}

/// Compares the order of two values and their equality.
pub(crate) fn check_order<D: Domain, P: SecondProgram>(
    domain: &D,
    second: &P,
    a: &Pair<D::Value>,
    b: &Pair<D::Value>,
) -> Result<(), CompareFail>
    requires first { IsPair (D.plain domain.now) D.value_of a.now }
    requires second { IsPair (D.plain domain.now) D.value_of b.now }
{
    if a.known.arity != b.known.arity {
        return Err(CompareFail::Unfit(Operation::Leq));
    }
    if domain.leq(&a.known.value, &b.known.value) != second.leq(&a.pattern, &b.pattern) {
        return Err(CompareFail::Differs(Operation::Leq));
    }
    if domain.same(&a.known.value, &b.known.value) != (a.pattern == b.pattern) {
        return Err(CompareFail::Differs(Operation::Same));
    }
    Ok(())
}

/// Compares what is entailed and excluded of the property.
pub(crate) fn check_property<D: Domain, P: SecondProgram>(
    domain: &D,
    second: &P,
    a: &Pair<D::Value>,
    property: &Prop,
) -> Result<(), CompareFail>
    requires { IsPair (D.plain domain.now) D.value_of a.now }
{
    if !speaks_within(a.known.arity, property) {
        return Err(CompareFail::Unfit(Operation::Entails));
    }
    if domain.entails(&a.known.value, property) != second.entails(&a.pattern, property) {
        return Err(CompareFail::Differs(Operation::Entails));
    }
    if domain.excludes(&a.known.value, property) != second.excludes(&a.pattern, property) {
        return Err(CompareFail::Differs(Operation::Excludes));
    }
    Ok(())
}
