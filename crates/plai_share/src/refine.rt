// The actions of builtins (Muthukumar and Hermenegildo 1992).
ghost use Rattle.std.specs.Prelude.{◌≡◌, ◌+◌, ◌-◌, ◌<◌, ◌≤◌, ◌^◌, ◌∷◌, ◌++◌, [], true, length, OnOk, IfOk};
ghost use Rattle.std.specs.Option.{option_map};
ghost use Rattle.plai_base.specs.Mask.{mask_of};
ghost use Rattle.plai_domain.specs.Instances.{all_below, acts_within};
ghost use Rattle.plai_domain.specs.Conditions.{AreArguments, IsState};
ghost use Rattle.plai_domain.specs.Outcomes.{IsOutcome};
ghost use Rattle.plai_share_laws.specs.Groups.{normal, rel, missing, star};
ghost use Rattle.plai_share_laws.specs.Shares.{grounded, same, havocked, havocked_formed, var_at, nonvar_at};
ghost use Rattle.plai_share_laws.specs.Calls.{side_at, acted, acted_formed};
ghost use Rattle.plai_share_laws.specs.Sharing.{sides_of, sharing};
ghost use Rattle.plai_share.specs.Formed.{IsPart};
ghost use Rattle.plai_share.specs.Sides.{seen, IsBelow};
ghost use Rattle.plai_share.specs.Values.{shares, state_of};

use crate::admitted::{admitted, touched_unions};
use crate::filters::{alike, any_meets, missing, near};
use crate::literal::extend;
use crate::masks::{raised, without};
use crate::sharing::Sharing;
use crate::side::Side;
use crate::sorted::formed;
use crate::unify::unify;
use crate::value::State;
use plai_base::Mask;
use plai_domain::{Action, DomFail};
use plai_terms::Term;
use std::alloc::{AllocError, Global};

/// The slot becomes ground.
fn grounded(alloc: Global, state: &Sharing, slot: u32) -> Result<Sharing, AllocError>
    requires { slot < 64 }
    ensures { IfOk result (λ next. shares next ≡ grounded (mask_of slot) (shares state.now)) }
{
    let set = Mask::of(slot);
    let groups = state.groups.as_slice();
    Ok(Sharing {
        slots: state.slots,
        groups: missing(alloc, groups, set)?,
        free: without(state.free, near(groups, set)),
    })
}

/// The terms of both slots are identical.
fn same(alloc: Global, state: &Sharing, left: u32, right: u32) -> Result<Sharing, AllocError>
    requires left { left < 64 }
    requires right { right < 64 }
    ensures { IfOk result (λ next. shares next ≡ same (mask_of left) (mask_of right) (shares state.now)) }
{
    let groups = alike(
        alloc,
        state.groups.as_slice(),
        Mask::of(left),
        Mask::of(right),
    )?;
    Ok(Sharing {
        slots: state.slots,
        groups,
        free: state.free,
    })
}

/// The groups where anything may have happened to the slots of the set.
fn havocked_groups(
    alloc: Global,
    groups: &[Mask],
    set: Mask,
    sets: &mut u64,
) -> Result<Vec<Mask>, DomFail>
    requires { sets.old < 2 ^ 21 }
    ensures { let all = missing set groups.now ++ star (rel set groups.now) in
        IsPart (λ groups. groups.items) sets.old (star (rel set groups.now) ∷ normal all ∷ []) (normal all) result }
{
    let unions = touched_unions(alloc, groups, set, sets)?;
    let mut after = missing(alloc, groups, set)?;
    after.extend_from_slice(unions.as_slice())?;
    let all = admitted(formed(after), sets)?;
    Ok(all)
}

/// Anything may happen to the slots of the set.
fn havocked(alloc: Global, state: &Sharing, set: Mask, sets: &mut u64) -> Result<Sharing, DomFail>
    requires { sets.old < 2 ^ 21 }
    ensures { IsPart shares sets.old (havocked_formed set (shares state.now)) (havocked set (shares state.now)) result }
{
    let groups = havocked_groups(alloc, state.groups.as_slice(), set, sets)?;
    let lost = near(state.groups.as_slice(), set);
    Ok(Sharing {
        slots: state.slots,
        groups,
        free: without(state.free, lost),
    })
}

/// The term is a variable, or none.
fn variable(state: Sharing, side: &Side) -> Option<Sharing>
    requires { IsBelow 64 side.now }
    ensures { option_map shares result ≡ var_at (seen side.now) (shares state) }
{
    match side {
        Side::Other(_) => None,
        Side::Slot(slot) => {
            if any_meets(state.groups.as_slice(), Mask::of(*slot)) {
                let free = state.free.insert(*slot);
                let Sharing { slots, groups, .. } = state;
                Some(Sharing {
                    slots,
                    groups,
                    free,
                })
            } else {
                None
            }
        }
    }
}

/// The term is no variable, or none.
fn no_variable(state: Sharing, side: &Side) -> Option<Sharing>
    ensures { option_map shares result ≡ nonvar_at (seen side.now) (shares state) }
{
    if side.is_free(state.free) {
        None
    } else {
        Some(state)
    }
}

/// What an action leaves at the slots from `first` on of a literal with these arguments, or none.
fn acted(
    alloc: Global,
    wide: Sharing,
    state: &State,
    args: &[Term],
    action: &Action,
    sets: &mut u64,
) -> Result<Option<Sharing>, DomFail>
    requires slots { state.now.arity + state.now.variables + length args.now ≤ 64 }
    requires below { all_below state.now.variables args.now ≡ true }
    requires within { acts_within (length args.now) action.now }
    requires count { sets.old < 2 ^ 21 }
    ensures { let n = state.now.arity + state.now.variables in
        IsPart (option_map shares) sets.old (acted_formed n action.now (shares wide))
        (acted n (sides_of state.now.arity args.now) action.now (shares wide)) result }
{
    let first = state.arity + state.variables;
    match action {
        Action::Fail => Ok(None),
        Action::Unify(left, right) => {
            let left = Side::Slot(first + (*left - 1));
            let right = Side::Slot(first + (*right - 1));
            let next = unify(alloc, &wide, &left, &right, sets)?;
            Ok(Some(next))
        }
        Action::Same(left, right) => {
            let next = same(alloc, &wide, first + (*left - 1), first + (*right - 1))?;
            Ok(Some(next))
        }
        Action::Ground(argument) | Action::BindInt(argument) => {
            let next = grounded(alloc, &wide, first + (*argument - 1))?;
            Ok(Some(next))
        }
        Action::Var(argument) => {
            let side = side_at(state, args, *argument);
            Ok(variable(wide, &side))
        }
        Action::Nonvar(argument) => {
            let side = side_at(state, args, *argument);
            Ok(no_variable(wide, &side))
        }
        Action::Havoc(slots) => {
            let set = raised(*slots, first, args.len() as u32);
            let next = havocked(alloc, &wide, set, sets)?;
            Ok(Some(next))
        }
    }
}

/// What is seen of an argument, numbered from 1.
fn side_at(state: &State, args: &[Term], argument: u32) -> Side
    requires slots { state.now.arity + state.now.variables ≤ 64 }
    requires below { all_below state.now.variables args.now ≡ true }
    requires argument { (1 ≤ argument) × (argument ≤ length args.now) }
    ensures side { seen result ≡ side_at (sides_of state.now.arity args.now) (argument - 1) }
    ensures below { IsBelow 64 result }
{
    let term = &args[argument as usize - 1];
    Side::of(term, state.arity, state.variables)
}

/// What the action leaves of the state, or none.
pub(crate) fn refine(
    alloc: Global,
    state: &State,
    args: &[Term],
    action: &Action,
) -> Result<Option<State>, DomFail>
    requires state { IsState sharing (state_of state.now) }
    requires args { AreArguments state.now.arity state.now.variables args.now }
    requires action { acts_within (length args.now) action.now }
    ensures { IsOutcome (option_map state_of) (sharing.refine (state_of state.now) args.now action.now) result }
{
    let mut sets = 0;
    let wide = extend(alloc, state, args, &mut sets)?;
    let Some(after) = acted(alloc, wide, state, args, action, &mut sets)? else {
        return Ok(None);
    };
    let sharing = after.first_slots(alloc, state.arity + state.variables)?;
    Ok(Some(State {
        arity: state.arity,
        variables: state.variables,
        sharing,
    }))
}
