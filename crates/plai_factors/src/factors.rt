ghost use Rattle.std.specs.Prelude.{◌≡◌, ◌&&◌, ℕ, IfOk, IfSome};
ghost use Rattle.plai_bdd.specs.Assignment.{Assignment};
ghost use Rattle.plai_bdd.specs.Nodes.{holds};
ghost use Rattle.plai_factors.specs.Product.{together};

use crate::factor::Factor;
use plai_bdd::Bdd;
use std::alloc::{AllocError, Global};

/// The same factors, for one more owner each. No diagram is copied.
pub fn share_all(alloc: Global, factors: &[Factor]) -> Result<Vec<Factor>, AllocError>
    ensures { IfOk result (λ all. all.items ≡ factors.now) }
{
    let mut all = Vec::new(alloc);
    for factor in factors {
        all.push(factor.share()?)?;
    }
    Ok(all)
}

/// Whether it is worth the time to look whether the two are smaller in one: they have a slot in common, and what they could make at
/// most isn't large.
fn may_be_joined(first: &Factor, second: &Factor) -> bool {
    let nodes = first.nodes().saturating_mul(second.nodes());
    first.slots().meets(second.slots()) && nodes <= 16384
}

/// The function that both are true, if it has no more nodes than the two have together, and else none.
fn joined(alloc: Global, first: &Factor, second: &Factor) -> Result<Option<Factor>, AllocError>
    ensures { IfOk result (λ both. IfSome both (λ f. (at : Assignment) → holds f at ≡ (holds first.now at && holds second.now at))) }
{
    if !may_be_joined(first, second) {
        return Ok(None);
    }
    let both = first.diagram().and(alloc, second.diagram())?;
    if both.node_count() <= first.nodes().saturating_add(second.nodes()) {
        Ok(Some(Factor::new(alloc, both)?))
    } else {
        Ok(None)
    }
}

/// The factors and one function more, joined with those with which it is no larger in one. So a function that is there already, or
/// that is true at all assignments, isn't kept.
pub fn with_function(
    alloc: Global,
    mut factors: Vec<Factor>,
    function: Bdd,
) -> Result<Vec<Factor>, AllocError>
    ensures { IfOk result (λ all. (at : Assignment) → together all.items at ≡ (together factors.items at && holds function at)) }
{
    let mut kept = Vec::new(alloc);
    let mut new = Factor::new(alloc, function)?;
    while let Some(factor) = factors.pop() {
        match joined(alloc, &new, &factor)? {
            Some(both) => new = both,
            None => kept.push(factor)?,
        }
    }
    if !new.diagram().is_always() {
        kept.push(new)?;
    }
    Ok(kept)
}
