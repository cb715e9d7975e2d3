// Unification of sharing and freeness (Jacobs and Langen 1992; Muthukumar and Hermenegildo 1992).
ghost use Rattle.std.specs.Prelude.{◌≡◌, ◌+◌, ◌*◌, ◌<◌, ◌≤◌, ◌^◌, ◌||◌, ◌∷◌, [], true, false, length, OnOk, IfOk, not};
ghost use Rattle.plai_domain.specs.Instances.{all_below};
ghost use Rattle.plai_share_laws.specs.Groups.{normal, star, bin};
ghost use Rattle.plai_share_laws.specs.Shares.{slots_of, is_free, lost, united, unify_groups, unify, unify_formed};
ghost use Rattle.plai_share_laws.specs.Calls.{unify_each, each_formed};
ghost use Rattle.plai_share_laws.specs.Sharing.{sides_of};
ghost use Rattle.plai_share.specs.Formed.{IsPart, united_formed, groups_formed};
ghost use Rattle.plai_share.specs.Sides.{seen, IsBelow};
ghost use Rattle.plai_share.specs.Values.{shares};

use crate::admitted::{admitted, admitted_unions};
use crate::filters::{missing, near, related};
use crate::masks::without;
use crate::sharing::Sharing;
use crate::side::Side;
use crate::sorted::formed;
use crate::splitting::bin;
use crate::unions::{bin_star, star};
use plai_base::Mask;
use plai_domain::DomFail;
use plai_terms::Term;
use std::alloc::Global;

/// The unions of groups of two sides, of which neither is a free variable.
fn united_bound(
    alloc: Global,
    left: &[Mask],
    right: &[Mask],
    sets: &mut u64,
) -> Result<Vec<Mask>, DomFail>
    requires { sets.old < 2 ^ 31 }
    ensures part { IsPart (λ set. set.items) sets.old (star left.now ∷ star right.now ∷ bin (star left.now) (star right.now) ∷ [])
        (normal (bin (star left.now) (star right.now))) result }
    ensures count { OnOk result (sets.new ≡ sets.old + 3) }
{
    let made = star(alloc, left)?;
    let first = admitted_unions(made, sets)?;
    let also = star(alloc, right)?;
    let second = admitted_unions(also, sets)?;
    let both = bin_star(alloc, first.all.as_slice(), second.base.as_slice())?;
    let united = admitted(both, sets)?;
    Ok(united)
}

/// The unions of groups of two sides, whether one is a free variable or neither.
fn united(
    alloc: Global,
    one_free: bool,
    left: &[Mask],
    right: &[Mask],
    sets: &mut u64,
) -> Result<Vec<Mask>, DomFail>
    requires { sets.old < 2 ^ 31 }
    ensures part { IsPart (λ set. set.items) sets.old (united_formed one_free left.now right.now)
        (normal (united one_free left.now right.now)) result }
    ensures count { OnOk result (sets.new ≡ sets.old + length (united_formed one_free left.now right.now)) }
{
    if one_free {
        let set = bin(alloc, left, right)?;
        let united = admitted(set, sets)?;
        Ok(united)
    } else {
        let united = united_bound(alloc, left, right, sets)?;
        Ok(united)
    }
}

/// The groups behind a unification of sides with the slots of two sets.
fn united_groups(
    alloc: Global,
    one_free: bool,
    groups: &[Mask],
    left: Mask,
    right: Mask,
    sets: &mut u64,
) -> Result<Vec<Mask>, DomFail>
    requires { sets.old < 2 ^ 30 }
    ensures part { IsPart (λ set. set.items) sets.old (groups_formed one_free left right groups.now) (unify_groups one_free left right groups.now) result }
    ensures count { OnOk result (sets.new ≡ sets.old + length (groups_formed one_free left right groups.now)) }
{
    let first = related(alloc, groups, left)?;
    let second = related(alloc, groups, right)?;
    let united = united(alloc, one_free, first.as_slice(), second.as_slice(), sets)?;
    let mut all = missing(alloc, groups, left.union(right))?;
    all.extend_from_slice(united.as_slice())?;
    let unified = admitted(formed(all), sets)?;
    Ok(unified)
}

/// The slots that are no longer free behind a unification of two sides.
fn lost(groups: &[Mask], free: Mask, left: &Side, right: &Side) -> Mask
    requires left { IsBelow 64 left.now }
    requires right { IsBelow 64 right.now }
    ensures { result ≡ lost (is_free free (seen left.now)) (is_free free (seen right.now)) (slots_of (seen left.now)) (slots_of (seen right.now)) groups.now }
{
    let left_free = left.is_free(free);
    let right_free = right.is_free(free);
    if left_free && right_free {
        Mask::empty()
    } else if left_free {
        near(groups, left.slots())
    } else if right_free {
        near(groups, right.slots())
    } else {
        near(groups, left.slots().union(right.slots()))
    }
}

/// Whether one of two sides is a free variable.
fn either_is_free(left: &Side, right: &Side, free: Mask) -> bool
    ensures { result ≡ (is_free free (seen left.now) || is_free free (seen right.now)) }
{
    left.is_free(free) || right.is_free(free)
}

/// Makes two terms equal. `Over` names the first set that is too large, where so many were formed before.
pub(crate) fn unify(
    alloc: Global,
    state: &Sharing,
    left: &Side,
    right: &Side,
    sets: &mut u64,
) -> Result<Sharing, DomFail>
    requires left { IsBelow 64 left.now }
    requires right { IsBelow 64 right.now }
    requires count { sets.old < 2 ^ 30 }
    ensures part { IsPart shares sets.old (unify_formed (seen left.now) (seen right.now) (shares state.now)) (unify (seen left.now) (seen right.now) (shares state.now)) result }
    ensures count { OnOk result (sets.new ≡ sets.old + length (unify_formed (seen left.now) (seen right.now) (shares state.now))) }
{
    let one_free = either_is_free(left, right, state.free);
    let left_slots = left.slots();
    let right_slots = right.slots();
    let groups = united_groups(
        alloc,
        one_free,
        state.groups.as_slice(),
        left_slots,
        right_slots,
        sets,
    )?;
    let bound = lost(state.groups.as_slice(), state.free, left, right);
    let free = without(state.free, bound);
    Ok(Sharing {
        slots: state.slots,
        groups,
        free,
    })
}

/// Makes the slots from a first one on equal to the terms, in turn, whose variable `v` has slot `base + v`.
pub(crate) fn unify_each(
    alloc: Global,
    state: Sharing,
    first: u32,
    terms: &[Term],
    base: u32,
    variables: u32,
    sets: &mut u64,
) -> Result<Sharing, DomFail>
    requires slots { first + length terms.now ≤ 64 }
    requires terms { all_below variables terms.now ≡ true }
    requires room { base + variables ≤ 64 }
    requires count { sets.old + 4 * length terms.now < 2 ^ 30 }
    ensures part { IsPart shares sets.old (each_formed first (sides_of base terms.now) (shares state)) (unify_each first (sides_of base terms.now) (shares state)) result }
    ensures count { OnOk result (sets.new ≡ sets.old + length (each_formed first (sides_of base terms.now) (shares state))) }
{
    match terms.split_first() {
        None => Ok(state),
        Some((term, rest)) => {
            let slot = Side::Slot(first);
            let side = Side::of(term, base, variables);
            let next = unify(alloc, &state, &slot, &side, sets)?;
            let last = unify_each(alloc, next, first + 1, rest, base, variables, sets)?;
            Ok(last)
        }
    }
}
