ghost use Rattle.std.specs.Prelude.{◌≡◌, ◌+◌, ◌-◌, ◌≤◌, ◌<◌, ℕ, Option, true, not, length, is_some, IfOk};
ghost use Rattle.plai_base.specs.Sets.{has_all};
ghost use Rattle.std.specs.Option.{option_map};
ghost use Rattle.plai_base.specs.Mask.{has_slot};
ghost use Rattle.plai_terms.specs.Term.{has_variables_below};
ghost use Rattle.plai_terms.specs.declared.term.Term.{fold-Term};
ghost use Rattle.plai_domain.specs.Instances.{all_below, acts_within};
ghost use Rattle.plai_bdd.specs.Nodes.{IsFunction};
ghost use Rattle.plai_pos_laws.specs.Assignments.{agree, acted, holds, if_variable, variable_at, variable_step};
ghost use Rattle.plai_pos_laws.specs.Groundness.{state_with, state_from, groundness};
ghost use Rattle.plai_factors.specs.Product.{together};
ghost use Rattle.plai_pos.specs.Values.{state_of, assignments_of, models_in};

use crate::slots::{slots_from, with_variables};
use crate::value::State;
use plai_base::Mask;
use plai_bdd::Bdd;
use plai_domain::Action;
use plai_factors::{Factor, and_exists, share_all};
use plai_terms::Term;
use std::alloc::{AllocError, Global};

/// The function that all variables of the term are true, variable `v` being slot `v`.
fn truth(alloc: Global, term: &Term, variables: u32) -> Result<Bdd, AllocError>
    requires below { has_variables_below variables term.now ≡ true }
    requires room { variables ≤ 64 }
    ensures { IfOk result (λ b. IsFunction b (λ at. holds at term.now)) }
{
    Bdd::all_of(alloc, with_variables(Mask::empty(), term, variables))
}

/// The function that the two terms are both true, or neither.
fn agreeing(alloc: Global, left: &Term, right: &Term, variables: u32) -> Result<Bdd, AllocError>
    requires left { has_variables_below variables left.now ≡ true }
    requires right { has_variables_below variables right.now ≡ true }
    requires room { variables ≤ 64 }
    ensures { IfOk result (λ b. IsFunction b (λ at. agree (holds at left.now) (holds at right.now))) }
{
    let first = truth(alloc, left, variables)?;
    let second = truth(alloc, right, variables)?;
    first.iff(alloc, &second)
}

/// Keeps the assignments under which both arguments are true, or neither.
fn agreed(
    alloc: Global,
    state: &State,
    args: &[Term],
    left: u32,
    right: u32,
) -> Result<State, AllocError>
    requires below { all_below state.now.variables args.now ≡ true }
    requires left { (1 ≤ left) × (left ≤ length args.now) }
    requires right { (1 ≤ right) × (right ≤ length args.now) }
    ensures { IfOk result (λ next. let start = state.now.arity + state.now.variables in
        state_of next ≡ state_with state.now.arity state.now.variables
        (acted state.now.arity state.now.variables args.now
        (λ y. agree (has_slot y (start + (left - 1))) (has_slot y (start + (right - 1)))) (assignments_of state.now))) }
{
    let first = &args[left as usize - 1];
    let second = &args[right as usize - 1];
    let same = agreeing(alloc, first, second, state.variables)?;
    state.with_function(alloc, same)
}

/// Keeps the assignments under which the argument is true.
fn satisfied(
    alloc: Global,
    state: &State,
    args: &[Term],
    argument: u32,
) -> Result<State, AllocError>
    requires below { all_below state.now.variables args.now ≡ true }
    requires argument { (1 ≤ argument) × (argument ≤ length args.now) }
    ensures { IfOk result (λ next. let start = state.now.arity + state.now.variables in
        state_of next ≡ state_with state.now.arity state.now.variables
        (acted state.now.arity state.now.variables args.now
        (λ y. has_slot y (start + (argument - 1))) (assignments_of state.now))) }
{
    let term = &args[argument as usize - 1];
    let all = truth(alloc, term, state.variables)?;
    state.with_function(alloc, all)
}

/// The function that the variable is false.
fn not_variable(alloc: Global, variable: u32) -> Result<Bdd, AllocError>
    requires { variable < 64 }
    ensures { IfOk result (λ b. IsFunction b (λ at. not (at variable))) }
{
    let never = Bdd::constant(alloc, false)?;
    let slot = Bdd::variable(alloc, variable)?;
    slot.iff(alloc, &never)
}

/// Whether some assignment of the state makes the variable false.
fn may_be_false(alloc: Global, state: &State, variable: u32) -> Result<bool, AllocError>
    requires { variable < state.now.variables }
    ensures { IfOk result (λ may. may ≡ not (has_all (models_in state.now.variables (together state.now.factors.items)) (λ y. has_slot y variable))) }
{
    let mut factors = share_all(alloc, state.factors.as_slice())?;
    let never = not_variable(alloc, variable)?;
    factors.push(Factor::new(alloc, never)?)?;
    let some = and_exists(alloc, factors, slots_from(0, state.variables))?;
    Ok(some.is_model(Mask::empty()))
}

/// Whether the term is a variable that some assignment of the state makes false.
fn may_be_variable(alloc: Global, state: &State, term: &Term) -> Result<bool, AllocError>
    requires { has_variables_below state.now.variables term.now ≡ true }
    ensures { IfOk result (λ may. may ≡ is_some (if_variable state.now.arity (assignments_of state.now)
        (fold-Term (Option ℕ) variable_step term.now))) }
{
    match term {
        Term::Var(number) => may_be_false(alloc, state, *number),
        Term::Int(_) | Term::Atom(_) | Term::Compound(_, _) => Ok(false),
    }
}

/// The state, unless the argument is no variable, or is true under all assignments.
fn kept_variable(
    alloc: Global,
    state: &State,
    args: &[Term],
    argument: u32,
) -> Result<Option<State>, AllocError>
    requires below { all_below state.now.variables args.now ≡ true }
    requires argument { (1 ≤ argument) × (argument ≤ length args.now) }
    ensures { IfOk result (λ next. option_map state_of next ≡ state_from state.now.arity state.now.variables
        (if_variable state.now.arity (assignments_of state.now) (variable_at args.now (argument - 1)))) }
{
    let term = &args[argument as usize - 1];
    if may_be_variable(alloc, state, term)? {
        Ok(Some(state.copy(alloc)?))
    } else {
        Ok(None)
    }
}

/// What the action leaves of the state, or none.
pub(crate) fn refine(
    alloc: Global,
    state: &State,
    args: &[Term],
    action: &Action,
) -> Result<Option<State>, AllocError>
    requires below { all_below (state_of state.now).variables args.now ≡ true }
    requires within { acts_within (length args.now) action.now }
    ensures { IfOk result (λ next. option_map state_of next
        ≡ (groundness.refine (state_of state.now) args.now action.now).value) }
{
    match action {
        Action::Fail => Ok(None),
        Action::Unify(left, right) | Action::Same(left, right) => {
            Ok(Some(agreed(alloc, state, args, *left, *right)?))
        }
        Action::Ground(argument) | Action::BindInt(argument) => {
            Ok(Some(satisfied(alloc, state, args, *argument)?))
        }
        Action::Var(argument) => kept_variable(alloc, state, args, *argument),
        Action::Nonvar(_) | Action::Havoc(_) => Ok(Some(state.copy(alloc)?)),
    }
}
