ghost use Rattle.std.specs.Prelude.{◌≡◌, ◌<◌, ◌&&◌, ◌↔◌, ℕ, IfOk, IsTrue};
ghost use Rattle.plai_base.specs.Mask.{has_slot};
ghost use Rattle.plai_bdd.specs.Assignment.{Assignment, IsFree};
ghost use Rattle.plai_bdd.specs.Nodes.{IsFunction, holds};
ghost use Rattle.plai_bdd.specs.Slots.{Somewhere, quantified, some_slot};
ghost use Rattle.plai_factors.specs.Product.{joined_holds, together};

use crate::cost::{cheapest, is_unused, without_slot};
use crate::factor::Factor;
use plai_base::Mask;
use plai_bdd::Bdd;
use std::alloc::{AllocError, Global};

/// The function that both are true; where there is no first one, the second.
fn and_first(alloc: Global, first: Option<Factor>, second: Factor) -> Result<Factor, AllocError>
    ensures { IfOk result (λ f. (at : Assignment) → holds f at ≡ (joined_holds first at && holds second at)) }
{
    match first {
        None => Ok(second),
        Some(first) => {
            let both = first.diagram().and(alloc, second.diagram())?;
            Factor::new(alloc, both)
        }
    }
}

/// The factors with a slot of the set quantified. Only those that depend on it are joined.
fn without(
    alloc: Global,
    mut factors: Vec<Factor>,
    slots: Mask,
    slot: u32,
) -> Result<Vec<Factor>, AllocError>
    requires slot_fits { slot < 64 }
    requires there { IsTrue (has_slot slots slot) }
    ensures { IfOk result (λ rest. (at : Assignment) → together rest.items at ≡ some_slot slots slot (together factors.items) at) }
{
    if is_unused(factors.as_slice(), slot) {
        return Ok(factors);
    }
    let mut rest = Vec::new(alloc);
    let mut joined = None;
    while let Some(factor) = factors.pop() {
        if factor.depends_on(slot) {
            joined = Some(and_first(alloc, joined, factor)?);
        } else {
            rest.push(factor)?;
        }
    }
    if let Some(factor) = joined {
        let less = factor.diagram().exists_one(alloc, slot)?;
        rest.push(Factor::new(alloc, less)?)?;
    }
    Ok(rest)
}

/// The function that all of these are true.
fn conjunction(alloc: Global, factors: &[Factor]) -> Result<Bdd, AllocError>
    ensures { IfOk result (λ b. IsFunction b (together factors.now)) }
{
    let mut all = Bdd::constant(alloc, true)?;
    for factor in factors {
        all = all.and(alloc, factor.diagram())?;
    }
    Ok(all)
}

/// The function that is true where all of these are, at some answers of the slots of the set: the relational product. The factors are
/// joined only where a slot that goes asks for it, and the next slot to go is always the one that costs least, so that no function is
/// over more slots than it must be. In which order slots go changes nothing of the result.
pub fn and_exists(alloc: Global, factors: Vec<Factor>, slots: Mask) -> Result<Bdd, AllocError>
    ensures function { IfOk result (λ b. IsFunction b (quantified slots (together factors.items))) }
    ensures meaning { IfOk result (λ b. (at : Assignment) → IsTrue (holds b at) ↔ Somewhere slots (together factors.items) at) }
    ensures free { IfOk result (λ b. (slot : ℕ) → slot < 64 → IsTrue (has_slot slots slot) → IsFree (holds b) slot) }
{
    let mut rest = factors;
    let mut left = slots;
    while let Some(slot) = cheapest(rest.as_slice(), left) {
        rest = without(alloc, rest, left, slot)?;
        left = without_slot(left, slot);
    }
    conjunction(alloc, rest.as_slice())
}
