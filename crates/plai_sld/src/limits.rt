// Numbers above the variables of terms and of bindings.
ghost use Rattle.std.specs.Prelude.{◌≡◌, IfOk};
ghost use Rattle.plai_sld.specs.Limits.{own_limit, limit_of, limit_in, past};

use plai_terms::{Subst, Term};
use std::alloc::{AllocError, Global};

// One more than the variable, where the term itself is one, and else 0.
fn own_limit(term: &Term) -> u64
    ensures { result ≡ own_limit term.now }
{
    match term {
        Term::Var(number) => *number as u64 + 1,
        _ => 0,
    }
}

// One more than the greatest variable of the term, which may be of any depth, or 0.
fn limit_of(alloc: Global, term: &Term) -> Result<u64, AllocError>
    ensures { IfOk result (λ limit. limit ≡ limit_of term.now) }
{
    let nodes = term.nodes(alloc)?;
    let mut limit: u64 = 0;
    for node in nodes.as_slice() {
        limit = limit.max(own_limit(node));
    }
    Ok(limit)
}

// The same of several terms.
pub(crate) fn limit_in(alloc: Global, terms: &[Term]) -> Result<u64, AllocError>
    ensures { IfOk result (λ limit. limit ≡ limit_in terms.now) }
{
    let mut limit: u64 = 0;
    for term in terms {
        limit = limit.max(limit_of(alloc, term)?);
    }
    Ok(limit)
}

// The number, or one more than the greatest variable of the bindings' terms, where that is more.
pub(crate) fn past(alloc: Global, number: u64, bindings: &[(u32, Term)]) -> Result<u64, AllocError>
    ensures { IfOk result (λ limit. limit ≡ past number bindings.now) }
{
    let mut limit = number;
    for binding in bindings {
        limit = limit.max(limit_of(alloc, &binding.1)?);
    }
    Ok(limit)
}
