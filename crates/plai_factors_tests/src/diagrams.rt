// Diagrams where there is ample memory: each call gives its result, equal functions are equal and have one hash, and a chain of
// equivalences has as few nodes as it can.
ghost use Rattle.std.specs.Prelude.{◌≤◌};

use plai_base::Mask;
use plai_bdd::Bdd;
use std::alloc::{AllocError, Global};
use std::hash::{DefaultHasher, Hash, Hasher};
use std::test::Fail;

/// The slots from `first` to the one before `end`.
fn slots(first: u32, end: u32) -> Mask
    requires { end ≤ 64 }
{
    let mut all = Mask::empty();
    for slot in first..end {
        all = all.insert(slot);
    }
    all
}

fn hash_of(bdd: &Bdd) -> u64 {
    let mut state = DefaultHasher::new();
    bdd.hash(&mut state);
    state.finish()
}

/// That the first two slots are true.
fn both(alloc: Global) -> Result<Bdd, AllocError> {
    Bdd::all_of(alloc, slots(0, 2))
}

/// That one of the first two slots is true.
fn either(alloc: Global) -> Result<Bdd, AllocError> {
    Bdd::variable(alloc, 0)?.or(alloc, &Bdd::variable(alloc, 1)?)
}

#[test]
fn equal_functions_are_equal(rt: HostRuntime) -> Result<(), Fail> {
    let alloc = rt.alloc();
    let made = Bdd::variable(alloc, 1)?.and(alloc, &Bdd::variable(alloc, 0)?)?;
    let wanted = both(alloc)?;
    assert_eq!(rt; made, wanted);
    assert_eq!(rt; hash_of(&made), hash_of(&wanted));
    Ok(())
}

#[test]
fn slots_are_fixed_and_taken_away(rt: HostRuntime) -> Result<(), Fail> {
    let alloc = rt.alloc();
    let second = Bdd::variable(alloc, 1)?;
    assert_eq!(rt; both(alloc)?.restrict(alloc, 0, true)?, second);
    assert_eq!(rt; both(alloc)?.exists(alloc, Mask::of(0))?, second);
    Ok(())
}

#[test]
fn a_stronger_function_implies_a_weaker_one(rt: HostRuntime) -> Result<(), Fail> {
    let alloc = rt.alloc();
    assert!(rt; both(alloc)?.implies(&either(alloc)?));
    assert!(rt; !either(alloc)?.implies(&both(alloc)?));
    Ok(())
}

#[test]
fn a_function_is_printed(rt: HostRuntime) -> Result<(), Fail> {
    let alloc = rt.alloc();
    let mut text = Vec::new(alloc);
    either(alloc)?.print(alloc, &mut text)?;
    assert_eq!(rt; text.as_slice(), b"(1 t (2 t f))".as_slice());
    Ok(())
}

#[test]
fn shifts_move_a_slot_there_and_back(rt: HostRuntime) -> Result<(), Fail> {
    let alloc = rt.alloc();
    let low = Bdd::variable(alloc, 1)?;
    let high = low.shift_up(alloc, 62)?;
    assert_eq!(rt; high, Bdd::variable(alloc, 63)?);
    assert_eq!(rt; high.shift_down(alloc, 62)?, low);
    Ok(())
}

#[test]
fn an_equivalence_has_few_nodes(rt: HostRuntime) -> Result<(), Fail> {
    let alloc = rt.alloc();
    // Two leaves, two nodes on each slot of the conjunction, and the root.
    let thirty = Bdd::iff_all(alloc, 0, slots(1, 31))?;
    assert_eq!(rt; thirty.node_count(), 63);
    assert_eq!(rt; thirty.restrict(alloc, 0, true)?.node_count(), 32);
    Ok(())
}

#[test]
fn an_equivalence_can_be_met(rt: HostRuntime) -> Result<(), Fail> {
    let alloc = rt.alloc();
    let thirty = Bdd::iff_all(alloc, 0, slots(1, 31))?;
    let always = Bdd::constant(alloc, true)?;
    assert_eq!(rt; thirty.exists(alloc, slots(1, 31))?, always);
    assert_eq!(rt; thirty.exists(alloc, Mask::of(0))?, always);
    Ok(())
}
