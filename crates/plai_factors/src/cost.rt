ghost use Rattle.std.specs.Prelude.{◌≡◌, ◌≢◌, ◌<◌, ◌≤◌, ℕ, true, IsTrue, MatchOption};
ghost use Rattle.plai_base.specs.Mask.{has_slot};
ghost use Rattle.plai_bdd.specs.Assignment.{IsFree};
ghost use Rattle.plai_factors.specs.Product.{together};

use crate::factor::Factor;
use plai_base::Mask;

/// What it costs to quantify a slot: how many factors depend on it, and how many nodes these have. Fewer factors are cheaper, then
/// fewer nodes.
#[derive(Clone, Copy, PartialEq, Eq, PartialOrd, Ord)]
struct Cost {
    factors: usize,
    nodes: usize,
}

/// The set without the slot.
pub(crate) fn without_slot(slots: Mask, slot: u32) -> Mask
    requires slot_fits { slot < 64 }
    requires there { IsTrue (has_slot slots slot) }
    ensures less { result < slots }
    ensures others { (k : ℕ) → k < 64 → k ≢ slot → has_slot result k ≡ has_slot slots k }
{
    Mask::from_bits(slots.bits() & !(1 << slot))
}

/// Whether no factor depends on the slot.
pub(crate) fn is_unused(factors: &[Factor], slot: u32) -> bool
    requires { slot < 64 }
    ensures { IsTrue result → IsFree (together factors.now) slot }
{
    for factor in factors {
        if factor.depends_on(slot) {
            return false;
        }
    }
    true
}

/// What it costs to quantify the slot.
fn cost_of(factors: &[Factor], slot: u32) -> Cost
    requires { slot < 64 }
{
    let mut cost = Cost {
        factors: 0,
        nodes: 0,
    };
    for factor in factors {
        if factor.depends_on(slot) {
            cost.factors = cost.factors.saturating_add(1);
            cost.nodes = cost.nodes.saturating_add(factor.nodes());
        }
    }
    cost
}

/// The slot of the set that costs least, the lowest of those that cost the same, or none exactly where the set is empty.
pub(crate) fn cheapest(factors: &[Factor], slots: Mask) -> Option<u32>
    ensures { MatchOption result (slots ≡ 0) (λ slot. (slot < 64) × IsTrue (has_slot slots slot)) }
{
    let mut best = slots.lowest()?;
    let mut least = cost_of(factors, best);
    let mut rest = without_slot(slots, best);
    while let Some(slot) = rest.lowest() {
        let own = cost_of(factors, slot);
        if own < least {
            best = slot;
            least = own;
        }
        rest = without_slot(rest, slot);
    }
    Some(best)
}
