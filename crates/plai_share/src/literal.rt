// Calls of a clause's literals, and their answers (Muthukumar and Hermenegildo 1992).
ghost use Rattle.std.specs.Prelude.{◌≡◌, ◌+◌, ◌*◌, ◌<◌, ◌≤◌, ◌^◌, ◌/◌, ◌∷◌, ◌++◌, [], true, map, filter, length, OnOk, IfOk, bit_and};
ghost use Rattle.std.specs.Option.{option_map};
ghost use Rattle.plai_base.specs.Mask.{all_true};
ghost use Rattle.plai_base.specs.Sets.{has};
ghost use Rattle.plai_domain.specs.Conditions.{IsHead, AreArguments, IsValue, IsState};
ghost use Rattle.plai_domain.specs.Outcomes.{IsOutcome};
ghost use Rattle.plai_share_laws.specs.Groups.{normal, rel, missing, star};
ghost use Rattle.plai_share_laws.specs.Shares.{answered, answered_formed};
ghost use Rattle.plai_share_laws.specs.Calls.{raise, exit, extend, extend_formed};
ghost use Rattle.plai_share_laws.specs.Sharing.{abs_of, sides_of, sharing};
ghost use Rattle.plai_share.specs.Formed.{IsPart};
ghost use Rattle.plai_share.specs.Values.{shares, value_of, state_of};

use crate::admitted::{admitted, touched_unions};
use crate::filters::{missing, near};
use crate::masks::{first_slots, raised, slots_after, without};
use crate::sharing::Sharing;
use crate::sorted::{formed, has};
use crate::unify::unify_each;
use crate::value::{State, Value};
use plai_base::Mask;
use plai_domain::DomFail;
use plai_terms::Term;
use std::alloc::{AllocError, Global};

/// The state in which a clause begins: the call, and each argument unified with the head's.
pub(crate) fn enter(
    alloc: Global,
    call: &Value,
    head: &[Term],
    variables: u32,
) -> Result<Option<State>, DomFail>
    requires call { IsValue sharing (length head.now) (value_of call.now) }
    requires head { IsHead (length head.now) variables head.now }
    ensures { IsOutcome (option_map state_of) (sharing.enter (value_of call.now) head.now variables) result }
{
    let arity = head.len() as u32;
    let copy = call.sharing.copy(alloc)?;
    let wide = copy.widened_by(variables)?;
    let mut sets = 0;
    let sharing = unify_each(alloc, wide, 0, head, arity, variables, &mut sets)?;
    Ok(Some(State {
        arity,
        variables,
        sharing,
    }))
}

/// With slots behind the clause's for the literal's arguments.
pub(crate) fn extend(
    alloc: Global,
    state: &State,
    args: &[Term],
    sets: &mut u64,
) -> Result<Sharing, DomFail>
    requires state { IsState sharing (state_of state.now) }
    requires args { AreArguments state.now.arity state.now.variables args.now }
    requires count { sets.old ≡ 0 }
    ensures part { let n = state.now.arity + state.now.variables in let sides = sides_of state.now.arity args.now in
        IsPart shares 0 (extend_formed n sides (shares state.now.sharing)) (extend n sides (shares state.now.sharing)) result }
    ensures count { let n = state.now.arity + state.now.variables in let sides = sides_of state.now.arity args.now in
        OnOk result (sets.new ≡ length (extend_formed n sides (shares state.now.sharing))) }
    ensures few { OnOk result (sets.new < 2 ^ 20) }
{
    let copy = state.sharing.copy(alloc)?;
    let wide = copy.widened_by(args.len() as u32)?;
    let first = state.arity + state.variables;
    let next = unify_each(alloc, wide, first, args, state.arity, state.variables, sets)?;
    Ok(next)
}

/// The part on the literal's slots.
pub(crate) fn call(alloc: Global, state: &State, args: &[Term]) -> Result<Value, DomFail>
    requires state { IsState sharing (state_of state.now) }
    requires args { AreArguments state.now.arity state.now.variables args.now }
    ensures { IsOutcome value_of (sharing.call (state_of state.now) args.now) result }
{
    let mut sets = 0;
    let wide = extend(alloc, state, args, &mut sets)?;
    let first = state.arity + state.variables;
    let sharing = wide.last_slots(alloc, first, args.len() as u32)?;
    Ok(Value { sharing })
}

/// The unions whose part on the set, the slots from `first` on, is a group of the answer.
fn answering(
    alloc: Global,
    unions: &[Mask],
    answer: &[Mask],
    set: Mask,
    first: u32,
) -> Result<Vec<Mask>, AllocError>
    requires first { first ≤ 64 }
    requires answer { normal answer.now ≡ answer.now }
    ensures { IfOk result (λ kept. kept.items ≡ filter (λ g. has answer.now (bit_and set g / 2 ^ first)) unions.now) }
{
    unions
        .iter()
        .copied()
        .filter(|union| has(answer, slots_after(set.project(*union), first)))
        .collect(alloc)
}

/// The groups behind an answer at the set, the slots from `first` on.
fn answered_groups(
    alloc: Global,
    groups: &[Mask],
    set: Mask,
    answer: &[Mask],
    first: u32,
    sets: &mut u64,
) -> Result<Vec<Mask>, DomFail>
    requires first { first ≤ 64 }
    requires answer { normal answer.now ≡ answer.now }
    requires count { sets.old < 2 ^ 21 }
    ensures { let after = missing set groups.now ++ filter (λ g. has answer.now (bit_and set g / 2 ^ first)) (star (rel set groups.now)) in
        IsPart (λ groups. groups.items) sets.old (star (rel set groups.now) ∷ after ∷ []) (normal after) result }
{
    let unions = touched_unions(alloc, groups, set, sets)?;
    let mut after = missing(alloc, groups, set)?;
    let kept = answering(alloc, unions.as_slice(), answer, set, first)?;
    after.extend_from_slice(kept.as_slice())?;
    let all = admitted(formed(after), sets)?;
    Ok(all)
}

/// An answer at the slots from `first` on.
fn answered(
    alloc: Global,
    wide: &Sharing,
    first: u32,
    answer: &Sharing,
    sets: &mut u64,
) -> Result<Sharing, DomFail>
    requires slots { first + answer.now.slots ≤ 64 }
    requires groups { normal answer.now.groups.items ≡ answer.now.groups.items }
    requires free { answer.now.free < 2 ^ answer.now.slots }
    requires count { sets.old < 2 ^ 21 }
    ensures { let a = raise first (all_true answer.now.slots) in let groups = map (raise first) answer.now.groups.items in
        IsPart shares sets.old (answered_formed a groups (shares wide.now)) (answered a groups (raise first answer.now.free) (shares wide.now)) result }
{
    let set = raised(first_slots(answer.slots), first, answer.slots);
    let bound = without(set, raised(answer.free, first, answer.slots));
    let groups = answered_groups(
        alloc,
        wide.groups.as_slice(),
        set,
        answer.groups.as_slice(),
        first,
        sets,
    )?;
    let lost = near(wide.groups.as_slice(), bound);
    Ok(Sharing {
        slots: wide.slots,
        groups,
        free: without(wide.free, lost),
    })
}

/// The state behind a literal with this answer.
pub(crate) fn back(
    alloc: Global,
    state: &State,
    args: &[Term],
    answer: &Value,
) -> Result<Option<State>, DomFail>
    requires state { IsState sharing (state_of state.now) }
    requires args { AreArguments state.now.arity state.now.variables args.now }
    requires answer { IsValue sharing (length args.now) (value_of answer.now) }
    ensures { IsOutcome (option_map state_of) (sharing.back (state_of state.now) args.now (value_of answer.now)) result }
{
    let mut sets = 0;
    let wide = extend(alloc, state, args, &mut sets)?;
    let first = state.arity + state.variables;
    let after = answered(alloc, &wide, first, &answer.sharing, &mut sets)?;
    let sharing = after.first_slots(alloc, first)?;
    Ok(Some(State {
        arity: state.arity,
        variables: state.variables,
        sharing,
    }))
}

/// The part on the slots of the head's arguments.
pub(crate) fn exit(alloc: Global, state: &State) -> Result<Value, AllocError>
    requires { state.now.arity ≤ 64 }
    ensures { IfOk result (λ value. value_of value ≡ abs_of (exit state.now.arity (shares state.now.sharing))) }
{
    let sharing = state.sharing.first_slots(alloc, state.arity)?;
    Ok(Value { sharing })
}
