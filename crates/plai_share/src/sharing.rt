// Sets of groups of slots with sets of free slots.
ghost use Rattle.std.specs.Prelude.{◌≡◌, ◌+◌, ◌^◌, ◌<◌, ◌≤◌, ◌%◌, ◌/◌, IfOk};
ghost use Rattle.plai_share_laws.specs.Shares.{widen_by, parts, first_slots, last_slots};

use crate::masks::{has_slots, slots_after, slots_before};
use crate::sorted::normal;
use plai_base::Mask;
use std::alloc::{AllocError, Global};

/// The groups of slots that may have a variable in common, as ascending masks, and the slots that are free variables.
#[derive(PartialEq, Eq, Hash, Drop)]
pub(crate) struct Sharing {
    pub(crate) slots: u32,
    pub(crate) groups: Vec<Mask>,
    pub(crate) free: Mask,
    pub ghost room: { slots ≤ 64 },
}

/// The parts of groups on the slots before a number that are not empty, in order.
fn parts_before(alloc: Global, groups: &[Mask], end: u32) -> Result<Vec<Mask>, AllocError>
    requires { end ≤ 64 }
    ensures { IfOk result (λ kept. kept.items ≡ parts (λ g. g % 2 ^ end) groups.now) }
{
    let kept: Vec<Mask> = groups
        .iter()
        .map(|group| slots_before(*group, end))
        .filter(|part| has_slots(*part))
        .collect(alloc)?;
    Ok(normal(kept))
}

/// The parts of groups on the slots from a number on that are not empty, renumbered from 0, in order.
fn parts_after(alloc: Global, groups: &[Mask], first: u32) -> Result<Vec<Mask>, AllocError>
    requires { first ≤ 64 }
    ensures { IfOk result (λ kept. kept.items ≡ parts (λ g. g / 2 ^ first) groups.now) }
{
    let kept: Vec<Mask> = groups
        .iter()
        .map(|group| slots_after(*group, first))
        .filter(|part| has_slots(*part))
        .collect(alloc)?;
    Ok(normal(kept))
}

impl Sharing {
    ghost use Rattle.plai_share.specs.Values.{shares};

    /// An equal one.
    pub(crate) fn copy(&self, alloc: Global) -> Result<Sharing, AllocError>
        ensures { IfOk result (λ next. shares next ≡ shares self.now) }
    {
        Ok(Sharing {
            slots: self.slots,
            groups: Vec::from_slice(alloc, self.groups.as_slice())?,
            free: self.free,
        })
    }

    /// One with so many new slots, each of which is free and in a group of its own.
    pub(crate) fn widened_by(self, count: u32) -> Result<Sharing, AllocError>
        requires { self.slots + count ≤ 64 }
        ensures { IfOk result (λ next. shares next ≡ widen_by count (shares self)) }
    {
        let Sharing {
            slots,
            mut groups,
            mut free,
        } = self;
        let end = slots + count;
        for slot in slots..end {
            groups.push(Mask::of(slot))?;
            free = free.insert(slot);
        }
        Ok(Sharing {
            slots: end,
            groups,
            free,
        })
    }

    /// The part on the first slots.
    pub(crate) fn first_slots(&self, alloc: Global, count: u32) -> Result<Sharing, AllocError>
        requires { count ≤ 64 }
        ensures { IfOk result (λ next. shares next ≡ first_slots count (shares self.now)) }
    {
        let groups = parts_before(alloc, self.groups.as_slice(), count)?;
        let free = slots_before(self.free, count);
        Ok(Sharing {
            slots: count,
            groups,
            free,
        })
    }

    /// The part on the slots from a number on, renumbered from 0.
    pub(crate) fn last_slots(
        &self,
        alloc: Global,
        first: u32,
        count: u32,
    ) -> Result<Sharing, AllocError>
        requires first { first ≤ 64 }
        requires count { count ≤ 64 }
        ensures { IfOk result (λ next. shares next ≡ last_slots first count (shares self.now)) }
    {
        let groups = parts_after(alloc, self.groups.as_slice(), first)?;
        let free = slots_after(self.free, first);
        Ok(Sharing {
            slots: count,
            groups,
            free,
        })
    }
}
