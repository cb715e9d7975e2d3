// Sets of slots in one word.
ghost use Rattle.std.specs.Prelude.{◌≡◌, ◌<◌, ◌/◌, ◌^◌, ◌↔◌, ℕ, IsTrue, MatchOption, bit_or, bit_and, IfOk};
ghost use Rattle.plai_base.specs.Mask.{has_slot, mask_of, meet, slots_of};

use std::alloc::{AllocError, Global};
use std::marker::Model;

/// A set of slots, each from 0 to 63, that contracts see as the number below 2^64 with those bits.
///
/// Its calls take no memory, but for [`Mask::slots`], and refuse nothing.
#[derive(Clone, Copy, Debug, PartialEq, Eq, Hash)]
pub struct Mask {
    bits: u64,
}

impl Model for Mask {
    ghost use Rattle.std.specs.Prelude.{ℕ, ◌<◌, ◌^◌};

    ghost Value = { ℕ };

    ghost view = { λ m. m.bits };

    ghost invariant = { λ m. m.bits < 2 ^ 64 };

    ghost inverse = { λ n. record { bits = n } };
}

impl Mask {
    /// The set without slots.
    pub fn empty() -> Mask
        ensures { result ≡ 0 }
    {
        Mask { bits: 0 }
    }

    /// The set of the slots whose bits are 1.
    pub fn from_bits(bits: u64) -> Mask
        ensures { result ≡ bits }
    {
        Mask { bits }
    }

    /// The number whose bits are 1 at the slots.
    pub fn bits(self) -> u64
        ensures { result ≡ self }
    {
        self.bits
    }

    /// The set of one slot, below 64.
    pub fn of(slot: u32) -> Mask
        requires { slot < 64 }
        ensures { result ≡ mask_of slot }
    {
        Mask { bits: 1 << slot }
    }

    /// Whether a slot below 64 is in the set.
    pub fn contains(self, slot: u32) -> bool
        requires { slot < 64 }
        ensures { result ≡ has_slot self slot }
    {
        self.bits >> slot & 1 == 1
    }

    /// Whether a slot, which may be any number, is in the set. No slot from 64 on is.
    pub fn has(self, slot: u32) -> bool
        ensures { result ≡ has_slot self slot }
    {
        slot < 64 && self.bits >> slot & 1 == 1
    }

    /// The set with one slot more, below 64.
    pub fn insert(self, slot: u32) -> Mask
        requires { slot < 64 }
        ensures { result ≡ bit_or self (mask_of slot) }
    {
        Mask {
            bits: self.bits | 1 << slot,
        }
    }

    /// The slots of either set.
    pub fn union(self, other: Mask) -> Mask
        ensures { result ≡ bit_or self other }
    {
        Mask {
            bits: self.bits | other.bits,
        }
    }

    /// The slots that both sets have.
    pub fn project(self, onto: Mask) -> Mask
        ensures { result ≡ bit_and self onto }
    {
        Mask {
            bits: self.bits & onto.bits,
        }
    }

    /// The slots from a first one on, which is below 64, renumbered from 0.
    pub fn after(self, first: u32) -> Mask
        requires { first < 64 }
        ensures { result ≡ self / 2 ^ first }
    {
        Mask {
            bits: self.bits >> first,
        }
    }

    /// Whether the sets have a slot in common.
    pub fn meets(self, other: Mask) -> bool
        ensures { IsTrue result ↔ meet self other }
    {
        self.bits & other.bits != 0
    }

    /// Whether the set has no slot.
    pub fn is_empty(self) -> bool
        ensures { IsTrue result ↔ (self ≡ 0) }
    {
        self.bits == 0
    }

    /// The least slot, or none exactly where the set is empty.
    pub fn lowest(self) -> Option<u32>
        ensures { MatchOption result (self ≡ 0)
            (λ slot. IsTrue (has_slot self slot) × (slot < 64) × ((k : ℕ) → k < slot → ¬ (IsTrue (has_slot self k)))) }
    {
        if self.bits == 0 {
            None
        } else {
            Some(self.bits.trailing_zeros())
        }
    }

    /// The slots in ascending order.
    pub fn slots(self, alloc: Global) -> Result<Vec<u32>, AllocError>
        ensures { IfOk result (λ slots. slots.items ≡ slots_of self) }
    {
        let mut slots = Vec::new(alloc);
        for slot in 0..64 {
            if self.contains(slot) {
                slots.push(slot)?;
            }
        }
        Ok(slots)
    }
}
