//! Generated clauses, at which all operations are compared.
ghost use Rattle.std.specs.Prelude.{◌≡◌, ◌<◌, All, IfOk, IfSome, OnOk};
ghost use Rattle.plai_compare.specs.Known.{IsPair};

use crate::beside::{check_order, describe, enter, exit, join};
use crate::fail::{CompareFail, Operation};
use crate::generated::{properties, terms};
use crate::known::Pair;
use crate::numbers::Numbers;
use crate::places::{check_literal, check_place, check_properties, pick};
use crate::second::SecondProgram;
use plai_base::Steps;
use plai_domain::Domain;
use plai_terms::{Prop, Term};
use std::alloc::Global;
use std::sync::ledger::{Blank, Ledger};

/// Puts the value behind the others, unless it is one of them or there are many.
fn add<D: Domain>(
    _domain: &D,
    values: &mut Vec<Pair<D::Value>>,
    value: Pair<D::Value>,
) -> Result<(), CompareFail>
    requires values { All (IsPair (D.plain _domain.now) D.value_of) values.old.items }
    requires value { IsPair (D.plain _domain.now) D.value_of value }
    ensures { OnOk result (All (IsPair (D.plain _domain.now) D.value_of) values.new.items) }
{
    let is_there = values.iter().any(|pair| pair.known.arity == value.known.arity
        && pair.pattern == value.pattern);
    if is_there || values.len() >= 500 {
        return Ok(());
    }
    if values.push(value).is_err() {
        return Err(CompareFail::Memory);
    }
    Ok(())
}

/// Compares a clause of up to three literals, and gives its answer if there is one.
fn check_clause<D: Domain, P: SecondProgram, L: Ledger>(
    alloc: Global,
    domain: &D,
    second: &P,
    called: &Pair<D::Value>,
    values: &[Pair<D::Value>],
    numbers: &mut Numbers,
    steps: &mut Steps<L>,
) -> Result<Option<Pair<D::Value>>, CompareFail>
    requires called { IsPair (D.plain domain.now) D.value_of called.now }
    requires values { All (IsPair (D.plain domain.now) D.value_of) values.now }
    ensures { IfOk result (λ answer. IfSome answer (IsPair (D.plain domain.now) D.value_of)) }
{
    let variables = numbers.below(5);
    let head = terms(alloc, numbers, called.known.arity, variables)?;
    let head = head.as_slice();
    let mut at = match enter(alloc, domain, second, called, head, variables, steps)? {
        None => return Ok(None),
        Some(at) => at,
    };
    check_place(alloc, domain, second, &at, head, steps)?;
    'literals: for _ in 0..numbers.below(4) {
        match check_literal(alloc, domain, second, &at, head, values, numbers, steps)? {
            None => return Ok(None),
            Some(next) => at = next,
        }
    }
    Ok(Some(exit(alloc, domain, second, &at, head, steps)?))
}

/// Compares an answer with one of the values, and what both give together, which is put behind the values as the answer is.
fn check_answer<D: Domain, P: SecondProgram, L: Ledger>(
    alloc: Global,
    domain: &D,
    second: &P,
    answer: Pair<D::Value>,
    values: &mut Vec<Pair<D::Value>>,
    numbers: &mut Numbers,
    steps: &mut Steps<L>,
) -> Result<(), CompareFail>
    requires answer { IsPair (D.plain domain.now) D.value_of answer }
    requires values { All (IsPair (D.plain domain.now) D.value_of) values.old.items }
    ensures { OnOk result (All (IsPair (D.plain domain.now) D.value_of) values.new.items) }
{
    let both = match pick(domain, values.as_slice(), numbers, answer.known.arity) {
        None => return Err(CompareFail::Unfit(Operation::Join)),
        Some(earlier) => joined(alloc, domain, second, &answer, earlier, steps)?,
    };
    check_properties(alloc, domain, second, &answer)?;
    check_properties(alloc, domain, second, &both)?;
    add(domain, values, answer)?;
    add(domain, values, both)
}

/// Compares the order of two values, and gives what they give together.
fn joined<D: Domain, P: SecondProgram, L: Ledger>(
    alloc: Global,
    domain: &D,
    second: &P,
    a: &Pair<D::Value>,
    b: &Pair<D::Value>,
    steps: &mut Steps<L>,
) -> Result<Pair<D::Value>, CompareFail>
    requires first { IsPair (D.plain domain.now) D.value_of a.now }
    requires second { IsPair (D.plain domain.now) D.value_of b.now }
    ensures { IfOk result (IsPair (D.plain domain.now) D.value_of) }
{
    let both = join(alloc, domain, second, a, b, steps)?;
    check_order(domain, second, a, b)?;
    check_order(domain, second, b, a)?;
    check_order(domain, second, a, &both)?;
    check_order(domain, second, &both, b)?;
    Ok(both)
}

/// Compares one more clause, whose answer, if there is one, is put behind the values.
fn check_next<D: Domain, P: SecondProgram, L: Ledger>(
    alloc: Global,
    domain: &D,
    second: &P,
    values: &mut Vec<Pair<D::Value>>,
    numbers: &mut Numbers,
    steps: &mut Steps<L>,
) -> Result<(), CompareFail>
    requires { All (IsPair (D.plain domain.now) D.value_of) values.old.items }
    ensures { OnOk result (All (IsPair (D.plain domain.now) D.value_of) values.new.items) }
{
    let arity = numbers.below(8).min(3);
    let answer = match pick(domain, values.as_slice(), numbers, arity) {
        None => return Err(CompareFail::Unfit(Operation::Enter)),
        Some(called) => check_clause(
            alloc,
            domain,
            second,
            called,
            values.as_slice(),
            numbers,
            steps,
        )?,
    };
    match answer {
        None => Ok(()),
        Some(answer) => check_answer(alloc, domain, second, answer, values, numbers, steps),
    }
}

/// Puts what each property of so many arguments says by itself behind the values.
fn add_properties<D: Domain, P: SecondProgram>(
    alloc: Global,
    domain: &D,
    second: &P,
    arity: u32,
    values: &mut Vec<Pair<D::Value>>,
) -> Result<(), CompareFail>
    requires { All (IsPair (D.plain domain.now) D.value_of) values.old.items }
    ensures { OnOk result (All (IsPair (D.plain domain.now) D.value_of) values.new.items) }
{
    for property in &properties(alloc, arity)? {
        let pre = [*property];
        let value = describe(alloc, domain, second, arity, pre.as_slice())?;
        add(domain, values, value)?;
    }
    Ok(())
}

/// What nothing says, and what each property says, of up to three arguments.
fn first_values<D: Domain, P: SecondProgram>(
    alloc: Global,
    domain: &D,
    second: &P,
) -> Result<Vec<Pair<D::Value>>, CompareFail>
    ensures { IfOk result (λ values. All (IsPair (D.plain domain.now) D.value_of) values.items) }
{
    let mut values = Vec::new(alloc);
    for arity in 0..4 {
        let value = describe(alloc, domain, second, arity, &[])?;
        add(domain, &mut values, value)?;
        add_properties(alloc, domain, second, arity, &mut values)?;
    }
    Ok(values)
}

/// Compares the domain with the second program at so many generated clauses of up to three arguments and four variables, in
/// which what earlier ones answered is called and answered. Each number to begin with gives other clauses.
///
/// Gives the number of different values that came up, of which at most 500 are kept.
///
/// # Errors
/// The first operation that differs, and want of memory.
pub fn compare_clauses<D: Domain, P: SecondProgram, L: Ledger>(
    alloc: Global,
    domain: &D,
    second: &P,
    clauses: u32,
    first: u64,
    blank: Blank,
) -> Result<usize, CompareFail>
    requires name { blank.name ≡ L.name }
    requires parts { blank.parts ≡ L.parts }
    requires some { 0 < blank.parts }
{
    let mut steps = Steps::<L>::new(blank);
    let mut numbers = Numbers::new(first);
    let mut values = first_values(alloc, domain, second)?;
    'each_clause: for _ in 0..clauses {
        check_next(alloc, domain, second, &mut values, &mut numbers, &mut steps)?;
    }
    Ok(values.len())
}

/// Compares what each pair of this property and one of these says of so many arguments.
fn compare_pairs<D: Domain, P: SecondProgram>(
    alloc: Global,
    domain: &D,
    second: &P,
    arity: u32,
    property: Prop,
    all: &[Prop],
) -> Result<(), CompareFail> {
    for other in all {
        let both = [property, *other];
        let value = describe(alloc, domain, second, arity, both.as_slice())?;
        check_properties(alloc, domain, second, &value)?;
    }
    Ok(())
}

/// Compares what each pair of properties says of so many arguments, and what that entails and excludes.
///
/// # Errors
/// The first operation that differs, and want of memory.
pub fn compare_properties<D: Domain, P: SecondProgram>(
    alloc: Global,
    domain: &D,
    second: &P,
    arity: u32,
) -> Result<(), CompareFail> {
    let all = properties(alloc, arity)?;
    for property in &all {
        compare_pairs(alloc, domain, second, arity, *property, all.as_slice())?;
    }
    Ok(())
}
