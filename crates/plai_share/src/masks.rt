// Sets of slots in one word.
ghost use Rattle.std.specs.Prelude.{not, nat_eq, ◌≡◌, ◌+◌, ◌*◌, ◌^◌, ◌/◌, ◌%◌, ◌<◌, ◌≤◌};
ghost use Rattle.plai_base.specs.Mask.{all_true};
ghost use Rattle.plai_share_laws.specs.Groups.{meets, without};
ghost use Rattle.plai_share_laws.specs.Calls.{raise};

use plai_base::Mask;

/// Whether the sets have a slot in common.
pub(crate) fn meets(left: Mask, right: Mask) -> bool
    ensures { result ≡ meets left right }
{
    !left.project(right).is_empty()
}

/// Whether the set has a slot.
pub(crate) fn has_slots(mask: Mask) -> bool
    ensures { result ≡ not (nat_eq mask 0) }
{
    !mask.is_empty()
}

/// The slots of the first set that the second doesn't have.
pub(crate) fn without(left: Mask, right: Mask) -> Mask
    ensures { result ≡ without left right }
{
    Mask::from_bits(left.bits() ^ left.project(right).bits())
}

/// The first slots, at most 64.
pub(crate) fn first_slots(count: u32) -> Mask
    requires { count ≤ 64 }
    ensures { result ≡ all_true count }
{
    if count == 64 {
        Mask::from_bits(u64::MAX)
    } else {
        Mask::from_bits((1 << count) - 1)
    }
}

/// The slots of the set below a number, which is at most 64.
pub(crate) fn slots_before(mask: Mask, end: u32) -> Mask
    requires { end ≤ 64 }
    ensures { result ≡ mask % 2 ^ end }
{
    mask.project(first_slots(end))
}

/// The slots from a number on, which is at most 64, renumbered from 0.
pub(crate) fn slots_after(mask: Mask, first: u32) -> Mask
    requires { first ≤ 64 }
    ensures { result ≡ mask / 2 ^ first }
{
    if first == 64 {
        Mask::empty()
    } else {
        mask.after(first)
    }
}

/// The set of slots below `count`, each slot as many higher as there are slots below.
pub(crate) fn raised(mask: Mask, below: u32, count: u32) -> Mask
    requires mask { mask < 2 ^ count }
    requires room { below + count ≤ 64 }
    ensures { result ≡ raise below mask }
{
    if below == 64 {
        Mask::empty()
    } else {
        Mask::from_bits(mask.bits() << below)
    }
}
