// Groups that meet a set of slots, or miss it, and the slots of those that meet it.
ghost use Rattle.std.specs.Prelude.{◌≡◌, IfOk, filter, cond, bit_or};
ghost use Rattle.plai_share_laws.specs.Groups.{meets, rel, missing, near};
ghost use Rattle.plai_share_laws.specs.Shares.{any_meets, alike};
ghost use Rattle.plai_share_laws.specs.Properties.{apart, any_both};

use crate::masks::meets;
use plai_base::Mask;
use std::alloc::{AllocError, Global};

/// The groups that meet the set.
pub(crate) fn related(alloc: Global, groups: &[Mask], set: Mask) -> Result<Vec<Mask>, AllocError>
    ensures { IfOk result (λ kept. kept.items ≡ rel set groups.now) }
{
    groups
        .iter()
        .copied()
        .filter(|group| meets(set, *group))
        .collect(alloc)
}

/// The groups that miss the set.
pub(crate) fn missing(alloc: Global, groups: &[Mask], set: Mask) -> Result<Vec<Mask>, AllocError>
    ensures { IfOk result (λ kept. kept.items ≡ missing set groups.now) }
{
    groups
        .iter()
        .copied()
        .filter(|group| !meets(set, *group))
        .collect(alloc)
}

/// The groups that meet both sets, or neither.
pub(crate) fn alike(
    alloc: Global,
    groups: &[Mask],
    left: Mask,
    right: Mask,
) -> Result<Vec<Mask>, AllocError>
    ensures { IfOk result (λ kept. kept.items ≡ filter (alike left right) groups.now) }
{
    groups
        .iter()
        .copied()
        .filter(|group| meets(left, *group) == meets(right, *group))
        .collect(alloc)
}

/// Whether some group meets the set.
pub(crate) fn any_meets(groups: &[Mask], set: Mask) -> bool
    ensures { result ≡ any_meets set groups.now }
{
    for group in groups {
        if meets(set, *group) {
            return true;
        }
    }
    false
}

/// The slots, and those of the group if it meets the set.
fn with_near(slots: Mask, group: Mask, set: Mask) -> Mask
    ensures { result ≡ cond (meets set group) (bit_or slots group) slots }
{
    if meets(set, group) {
        slots.union(group)
    } else {
        slots
    }
}

/// The slots of the groups that meet the set.
pub(crate) fn near(groups: &[Mask], set: Mask) -> Mask
    ensures { result ≡ near set groups.now }
{
    let mut slots = Mask::empty();
    for group in groups {
        slots = with_near(slots, *group, set);
    }
    slots
}
