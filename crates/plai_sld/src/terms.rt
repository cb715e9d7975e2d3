// Lists of terms: copies, and what substitutions make of them.
ghost use Rattle.std.specs.Prelude.{◌≡◌, ◌+◌, ◌≤◌, ◌^◌, IfOk, map};
ghost use Rattle.plai_terms.specs.Subst.{bound_to};
ghost use Rattle.plai_terms.specs.Substitution.{under};
ghost use Rattle.plai_sld.specs.Renaming.{raising};

use plai_terms::{Subst, Term};
use std::alloc::{AllocError, Global};

pub(crate) fn copy_terms(alloc: Global, terms: &[Term]) -> Result<Vec<Term>, AllocError>
    ensures { IfOk result (λ copies. copies.items ≡ terms.now) }
{
    let mut copies = Vec::new(alloc);
    for term in terms {
        copies.push(term.copy(alloc)?)?;
    }
    Ok(copies)
}

// The terms under a substitution.
pub(crate) fn terms_under(
    alloc: Global,
    terms: &[Term],
    bindings: &Subst,
) -> Result<Vec<Term>, AllocError>
    ensures { IfOk result (λ changed. changed.items ≡ map (under (bound_to bindings.now)) terms.now) }
{
    let mut changed = Vec::new(alloc);
    for term in terms {
        changed.push(bindings.apply(alloc, term)?)?;
    }
    Ok(changed)
}

// Binds the variables below the limit to those that are that much more.
pub(crate) fn raising(alloc: Global, number: u32, limit: u32) -> Result<Subst, AllocError>
    requires { number + limit ≤ 2 ^ 32 }
    ensures { IfOk result (λ bindings. bindings ≡ raising number limit) }
{
    let mut pairs = Vec::new(alloc);
    for variable in 0..limit {
        pairs.push((variable, Term::Var(variable + number)))?;
    }
    Ok(Subst::new(pairs))
}
