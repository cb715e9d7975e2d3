// What meets a demand: a substitution, or nothing.
ghost use Rattle.std.specs.Prelude.{◌≡◌, [], ◌∷◌, IfOk, length};
ghost use Rattle.plai_builtins.specs.Meaning.{Solve, Apart, Meets, tested};

use plai_terms::{Outcome, Subst, Term, unify};
use std::alloc::{AllocError, Global};
use std::slice;

// A test that holds binds nothing.
pub(crate) fn tested(alloc: Global, holds: bool) -> Option<Subst>
    ensures { result ≡ tested holds }
{
    if holds {
        Some(Subst::new(Vec::new(alloc)))
    } else {
        None
    }
}

// The first terms are unified with the second, in turn.
pub(crate) fn solve(
    alloc: Global,
    left: &[Term],
    right: &[Term],
) -> Result<Option<Subst>, AllocError>
    requires { length left.now ≡ length right.now }
    ensures { IfOk result (λ found. Meets (Solve left.now right.now) found) }
{
    match unify(alloc, left, right)? {
        Outcome::Unified(bindings) => Ok(Some(bindings)),
        Outcome::Clash | Outcome::Occurs => Ok(None),
    }
}

// The first term is unified with the second.
pub(crate) fn solve_one(
    alloc: Global,
    left: &Term,
    right: &Term,
) -> Result<Option<Subst>, AllocError>
    ensures { IfOk result (λ found. Meets (Solve (left.now ∷ []) (right.now ∷ [])) found) }
{
    solve(alloc, slice::from_ref(left), slice::from_ref(right))
}

// The terms don't unify.
pub(crate) fn refute(alloc: Global, left: &Term, right: &Term) -> Result<Option<Subst>, AllocError>
    ensures { IfOk result (λ found. Meets (Apart left.now right.now) found) }
{
    match unify(alloc, slice::from_ref(left), slice::from_ref(right))? {
        Outcome::Unified(_) => Ok(None),
        Outcome::Clash | Outcome::Occurs => Ok(tested(alloc, true)),
    }
}
