// Functions whose slots hang together in ways that a fixed order of quantification doesn't end on: a slot that is equivalent
// to each of many pairs (a hub), a grid, and many functions that say nothing new. No clause speaks of time.
ghost use Rattle.std.specs.Prelude.{◌<◌, ◌≤◌};

use plai_base::Mask;
use plai_bdd::Bdd;
use plai_factors::{Factor, and_exists, share_all, with_function};
use std::alloc::{AllocError, Global};
use std::test::Fail;

/// The two slots.
fn pair(first: u32, second: u32) -> Mask
    requires first { first < 64 }
    requires second { second < 64 }
{
    Mask::of(first).insert(second)
}

/// The functions, and that the slot is true if and only if both others are.
fn with_equivalence(
    alloc: Global,
    factors: Vec<Factor>,
    slot: u32,
    others: Mask,
) -> Result<Vec<Factor>, AllocError>
    requires { slot < 64 }
{
    let equivalence = Bdd::iff_all(alloc, slot, others)?;
    with_function(alloc, factors, equivalence)
}

/// The slot of this place among all but the hub, for places below 63.
fn beside(hub: u32, place: u32) -> u32
    requires { place < 63 }
    ensures { result < 64 }
{
    if place < hub { place } else { place + 1 }
}

/// That the hub is equivalent to each of 31 pairs, of which one has the slots of the places k and k + 31.
fn hub_and_pairs(alloc: Global, hub: u32) -> Result<Vec<Factor>, AllocError>
    requires { hub < 64 }
{
    let mut factors = Vec::new(alloc);
    for place in 0..31u32 {
        let others = pair(beside(hub, place), beside(hub, place + 31));
        factors.push(Factor::new(alloc, Bdd::iff_all(alloc, hub, others)?)?)?;
    }
    Ok(factors)
}

#[test]
fn a_hub_in_each_place(rt: HostRuntime) -> Result<(), Fail> {
    let alloc = rt.alloc();
    for hub in [0, 1, 31, 61, 62] {
        let kept = pair(beside(hub, 7), beside(hub, 38));
        let gone = Mask::from_bits(!(kept.bits() | Mask::of(hub).bits()));
        let factors = hub_and_pairs(alloc, hub)?;
        let left = and_exists(alloc, factors, gone)?;
        assert_eq!(rt; left, Bdd::iff_all(alloc, hub, kept)?, "{hub}");
    }
    Ok(())
}

/// That each of two hubs, the slots 0 and 63, is equivalent to each of 30 pairs.
fn hubs_and_pairs(alloc: Global) -> Result<Vec<Factor>, AllocError> {
    let mut factors = Vec::new(alloc);
    for place in 1..31u32 {
        let others = pair(place, place + 30);
        factors = with_equivalence(alloc, factors, 0, others)?;
        factors = with_equivalence(alloc, factors, 63, others)?;
    }
    Ok(factors)
}

#[test]
fn two_hubs_are_equivalent(rt: HostRuntime) -> Result<(), Fail> {
    let alloc = rt.alloc();
    let factors = hubs_and_pairs(alloc)?;
    let gone = Mask::from_bits(!pair(0, 63).bits());
    let left = and_exists(alloc, factors, gone)?;
    assert_eq!(rt; left, Bdd::iff_all(alloc, 0, Mask::of(63))?);
    Ok(())
}

/// A grid of 6 by 6 slots, in which each one that isn't at the edge is equivalent to that above it and that to its left.
fn grid(alloc: Global) -> Result<Vec<Factor>, AllocError> {
    let mut factors = Vec::new(alloc);
    for row in 1..6u32 {
        for column in 1..6u32 {
            let slot = 6 * row + column;
            let equivalence = Bdd::iff_all(alloc, slot, pair(slot - 6, slot - 1))?;
            factors.push(Factor::new(alloc, equivalence)?)?;
        }
    }
    Ok(factors)
}

#[test]
fn the_end_of_a_grid_implies_its_edge(rt: HostRuntime) -> Result<(), Fail> {
    let alloc = rt.alloc();
    let factors = grid(alloc)?;
    let left = and_exists(alloc, factors, Mask::from_bits(!pair(1, 35).bits()))?;
    let edge = Bdd::variable(alloc, 1)?;
    let end = Bdd::variable(alloc, 35)?;
    assert!(rt; left.and(alloc, &end)?.implies(&edge));
    assert!(rt; !left.implies(&edge) && !left.implies(&end));
    Ok(())
}

/// So many functions of 40 slots that say no more than the first of each slot does.
fn repeated(alloc: Global, count: u32) -> Result<Vec<Factor>, AllocError> {
    let mut factors = Vec::new(alloc);
    for number in 0..count {
        factors = with_function(alloc, factors, Bdd::variable(alloc, number % 40)?)?;
        factors = with_function(alloc, factors, Bdd::constant(alloc, true)?)?;
    }
    Ok(factors)
}

#[test]
fn what_says_nothing_new_is_not_kept(rt: HostRuntime) -> Result<(), Fail> {
    let alloc = rt.alloc();
    let factors = repeated(alloc, 10_000)?;
    assert_eq!(rt; factors.len(), 40);
    let shared = share_all(alloc, factors.as_slice())?;
    assert_eq!(rt; shared.len(), 40);
    let all = and_exists(alloc, shared, Mask::empty())?;
    assert_eq!(rt; all, Bdd::all_of(alloc, Mask::from_bits((1 << 40) - 1))?);
    let none = with_function(alloc, factors, Bdd::constant(alloc, false)?)?;
    let nothing = and_exists(alloc, none, Mask::empty())?;
    assert_eq!(rt; nothing, Bdd::constant(alloc, false)?);
    Ok(())
}
