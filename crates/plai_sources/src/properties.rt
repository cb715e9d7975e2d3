//! Goals of entries and assertions, and properties of their arguments.
ghost use Rattle.std.specs.Prelude.{◌≡◌, ◌≤◌, [], ◌∷◌, length, nat_eq, position, IfOk, vec_len};
ghost use Rattle.plai_clauses.specs.ClauseOf.{is_conjunction, goals_of};
ghost use Rattle.plai_sources.specs.Shapes.{each, variable_of};
ghost use Rattle.plai_sources.specs.Properties.{are_distinct, open_goal, goal_at, goal_of, place_among, place_of, property_named, apart, property_at, property_of, properties_of, call_with, call_of, entry_of, check, calls_of, success_of, check_of};
ghost use Rattle.plai_sources.specs.Answering.{Gives, Lists, Puts};

use crate::items::{CheckItem, EntryItem};
use crate::shape::{one_argument, two_arguments, variable};
use crate::stop::Stop;
use plai_clauses::{CheckKind, is_definable};
use plai_terms::{Listed, Name, Prop, Term};
use std::alloc::Global;

/// The greatest number of arguments of a predicate.
const MOST_ARGUMENTS: usize = 16;

/// A goal whose arguments are different variables, given by their numbers.
#[derive(Debug, Drop)]
pub struct Goal {
    pub name: Name,
    pub variables: Listed<u32>,
}

/// A goal and the properties of the arguments at its calls.
#[derive(Debug, Drop)]
pub struct Call {
    pub goal: Goal,
    pub pre: Listed<Prop>,
}

fn are_distinct(numbers: &[u32]) -> bool
    ensures { result ≡ are_distinct numbers.now }
{
    match numbers.split_first() {
        None => true,
        Some((first, others)) => !others.contains(first) && are_distinct(others),
    }
}

fn variables(alloc: Global, args: &[Term]) -> Result<Vec<u32>, Stop>
    ensures numbers { Lists (each variable_of args.now) result }
    ensures few { IfOk result (λ numbers. vec_len numbers ≤ length args.now) }
{
    let mut numbers = Vec::new(alloc);
    for arg in args {
        numbers.push(variable(arg).ok_or(Stop::Unfit)?)?;
    }
    Ok(numbers)
}

fn open_goal(alloc: Global, name: &Name, variables: Vec<u32>) -> Result<Goal, Stop>
    ensures goal { Gives (open_goal name.now variables.items) result }
    ensures variables { IfOk result (λ goal. goal.variables ≡ variables.items) }
{
    if are_distinct(&variables) {
        Ok(Goal {
            name: name.copy(alloc)?,
            variables: Listed::new(variables),
        })
    } else {
        Err(Stop::Unfit)
    }
}

fn goal_at(alloc: Global, name: &Name, args: &[Term]) -> Result<Goal, Stop>
    ensures goal { Gives (goal_at name.now args.now) result }
    ensures few { IfOk result (λ goal. length goal.variables ≤ 16) }
{
    if args.len() <= MOST_ARGUMENTS && is_definable(name, args.len() as u32) {
        open_goal(alloc, name, variables(alloc, args)?)
    } else {
        Err(Stop::Unfit)
    }
}

/// The goal of an entry or assertion: an atom, or a compound of different variables, that a program may define.
fn make_goal(alloc: Global, term: &Term) -> Result<Goal, Stop>
    ensures goal { Gives (goal_of term.now) result }
    ensures few { IfOk result (λ goal. length goal.variables ≤ 16) }
{
    match term {
        Term::Atom(name) => goal_at(alloc, name, &[]),
        Term::Compound(name, args) => goal_at(alloc, name, args.as_slice()),
        _ => Err(Stop::Unfit),
    }
}

fn index_of(variables: &[u32], number: u32) -> Option<usize>
    ensures { result ≡ position (λ w. nat_eq w number) variables.now }
{
    variables.iter().position(|v| *v == number)
}

/// The place of a variable among others, from 1.
fn place_among(variables: &[u32], number: u32) -> Option<u32>
    requires { length variables.now ≤ 16 }
    ensures { result ≡ place_among variables.now number }
{
    match index_of(variables, number) {
        Some(index) => Some(index as u32 + 1),
        None => None,
    }
}

/// The place of an argument of the goal, from 1.
fn place(variables: &[u32], term: &Term) -> Option<u32>
    requires { length variables.now ≤ 16 }
    ensures { result ≡ place_of variables.now term.now }
{
    place_among(variables, variable(term)?)
}

fn property_named(name: &Name, place: u32) -> Option<Prop>
    ensures { result ≡ property_named name.now place }
{
    let name = name.as_slice();
    if name == b"ground".as_slice() {
        Some(Prop::Ground(place))
    } else if name == b"var".as_slice() {
        Some(Prop::Var(place))
    } else if name == b"nonvar".as_slice() {
        Some(Prop::Nonvar(place))
    } else if name == b"int".as_slice() {
        Some(Prop::Int(place))
    } else {
        None
    }
}

fn apart(first: u32, second: u32) -> Option<Prop>
    ensures { result ≡ apart first second }
{
    if first == second {
        None
    } else {
        Some(Prop::Indep(first, second))
    }
}

fn property_at(variables: &[u32], name: &Name, args: &[Term]) -> Option<Prop>
    requires { length variables.now ≤ 16 }
    ensures { result ≡ property_at variables.now name.now args.now }
{
    match args {
        [arg] => property_named(name, place(variables, arg)?),
        [first, second] => {
            if name.as_slice() != b"indep".as_slice() {
                return None;
            }
            apart(place(variables, first)?, place(variables, second)?)
        }
        _ => None,
    }
}

/// A property of the arguments of a goal with these variables.
fn property(variables: &[u32], term: &Term) -> Option<Prop>
    requires { length variables.now ≤ 16 }
    ensures { result ≡ property_of variables.now term.now }
{
    match term {
        Term::Compound(name, args) => property_at(variables, name, args.as_slice()),
        _ => None,
    }
}

fn is_conjunction(name: &Name, args: &[Term]) -> bool
    ensures { result ≡ is_conjunction name.now (length args.now) }
{
    name.as_slice() == b",".as_slice() && args.len() == 2
}

fn push_property(variables: &[u32], term: &Term, props: &mut Vec<Prop>) -> Result<(), Stop>
    requires { length variables.now ≤ 16 }
    ensures { Puts (each (property_of variables.now) (term.now ∷ [])) props.old.items props.new.items result }
{
    props.push(property(variables, term).ok_or(Stop::Unfit)?)?;
    Ok(())
}

/// Puts the properties that the term joins behind the others.
fn push_properties(variables: &[u32], term: &Term, props: &mut Vec<Prop>) -> Result<(), Stop>
    requires { length variables.now ≤ 16 }
    ensures { Puts (properties_of variables.now term.now) props.old.items props.new.items result }
{
    match term {
        Term::Var(_) => push_property(variables, term, props),
        Term::Int(_) => push_property(variables, term, props),
        Term::Atom(_) => push_property(variables, term, props),
        Term::Compound(name, args) => {
            if !is_conjunction(name, args.as_slice()) {
                return push_property(variables, term, props);
            }
            for part in args.as_slice() {
                push_properties(variables, part, props)?;
            }
            Ok(())
        }
    }
}

/// Properties of a goal's arguments, joined by `,`.
fn properties(alloc: Global, goal: &Goal, term: &Term) -> Result<Listed<Prop>, Stop>
    requires { length goal.now.variables ≤ 16 }
    ensures { Gives (properties_of goal.now.variables term.now) result }
{
    let mut props = Vec::new(alloc);
    push_properties(goal.variables.as_slice(), term, &mut props)?;
    Ok(Listed::new(props))
}

/// The goal of `G : Pre` and its properties.
fn call_with(alloc: Global, left: &Term, pre: &Term) -> Result<Call, Stop>
    ensures call { Gives (call_with (left.now, pre.now)) result }
    ensures few { IfOk result (λ call. length call.goal.variables ≤ 16) }
{
    let goal = make_goal(alloc, left)?;
    let pre = properties(alloc, &goal, pre)?;
    Ok(Call { goal, pre })
}

/// A goal, with properties where it stands before `:`.
fn make_call(alloc: Global, term: &Term) -> Result<Call, Stop>
    ensures call { Gives (call_of term.now) result }
    ensures few { IfOk result (λ call. length call.goal.variables ≤ 16) }
{
    match two_arguments(b":", term) {
        Some((left, pre)) => call_with(alloc, left, pre),
        None => Ok(Call {
            goal: make_goal(alloc, term)?,
            pre: Listed::new(Vec::new(alloc)),
        }),
    }
}

/// The entry of what stands behind `entry`.
pub fn entry(alloc: Global, term: &Term) -> Result<EntryItem, Stop>
    ensures { Gives (entry_of term.now) result }
{
    let Call { goal, pre } = make_call(alloc, term)?;
    let Goal { name, variables } = goal;
    let arity = variables.as_slice().len() as u32;
    Ok(EntryItem { name, arity, pre })
}

fn make_check(kind: CheckKind, call: Call, post: Listed<Prop>) -> CheckItem
    requires { length call.goal.variables ≤ 16 }
    ensures { result ≡ check kind call post }
{
    let Call { goal, pre } = call;
    let Goal { name, variables } = goal;
    CheckItem {
        kind,
        name,
        arity: variables.as_slice().len() as u32,
        pre,
        post,
    }
}

/// The assertion of what stands behind `calls`.
fn calls(alloc: Global, term: &Term) -> Result<CheckItem, Stop>
    ensures { Gives (calls_of term.now) result }
{
    let (left, pre) = two_arguments(b":", term).ok_or(Stop::Unfit)?;
    let call = call_with(alloc, left, pre)?;
    Ok(make_check(CheckKind::Calls, call, Listed::new(Vec::new(alloc))))
}

/// The assertion of what stands behind `success`.
fn success(alloc: Global, term: &Term) -> Result<CheckItem, Stop>
    ensures { Gives (success_of term.now) result }
{
    let (before, after) = two_arguments(b"=>", term).ok_or(Stop::Unfit)?;
    let call = make_call(alloc, before)?;
    let post = properties(alloc, &call.goal, after)?;
    Ok(make_check(CheckKind::Success, call, post))
}

/// The assertion of what stands behind `check`.
pub fn check(alloc: Global, term: &Term) -> Result<CheckItem, Stop>
    ensures { Gives (check_of term.now) result }
{
    if let Some(argument) = one_argument(b"calls", term) {
        return calls(alloc, argument);
    }
    match one_argument(b"success", term) {
        Some(argument) => success(alloc, argument),
        None => Err(Stop::Unfit),
    }
}
