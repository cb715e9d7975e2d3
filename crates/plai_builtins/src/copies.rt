// Copies of terms with new variables, and substitutions kept to some variables.
ghost use Rattle.std.specs.Prelude.{◌≡◌, ◌<◌, ◌+◌, ◌^◌, [], ◌∷◌, IfOk, IfSome, length, map, nat_eq, option_map};
ghost use Rattle.std.specs.List.{IsDistinct};
ghost use Rattle.plai_terms.specs.Preorder.{referred};
ghost use Rattle.plai_terms.specs.Substitution.{IsBelow};
ghost use Rattle.plai_builtins.specs.Copies.{variables_of, renaming, copy_of};
ghost use Rattle.plai_builtins.specs.Walks.{noted};
ghost use Rattle.plai_builtins.specs.Meaning.{SolveWithin, Meets, kept_to};

use plai_terms::{Outcome, Subst, Term, unify};
use std::alloc::{AllocError, Global};
use std::slice;

// Puts the term's number behind those so far, where it is a variable that is not among them.
fn note(found: &mut Vec<u32>, node: &Term) -> Result<(), AllocError>
    ensures { IfOk result (λ _. found.new.items ≡ noted found.old.items node.now) }
{
    if let Term::Var(number) = node {
        if !found.contains(number) {
            found.push(*number)?;
        }
    }
    Ok(())
}

// The variables of a term, in the order of their first appearance.
pub(crate) fn variables(alloc: Global, term: &Term) -> Result<Vec<u32>, AllocError>
    ensures { IfOk result (λ found. found.items ≡ variables_of term.now) }
{
    let nodes = term.nodes(alloc)?;
    let mut found = Vec::new(alloc);
    for node in nodes.as_slice() {
        note(&mut found, node)?;
    }
    Ok(found)
}

// Binds the variables to new ones, numbered from a first one on.
fn renaming(alloc: Global, first: u32, variables: &[u32]) -> Result<Subst, AllocError>
    requires distinct { IsDistinct nat_eq variables.now }
    requires few { first + length variables.now < 2 ^ 32 }
    ensures { IfOk result (λ s. s ≡ renaming first variables.now) }
{
    let mut pairs = Vec::new(alloc);
    for i in 0..variables.len() {
        pairs.push((variables[i], Term::Var(first + i as u32)))?;
    }
    Ok(Subst::new(pairs))
}

// The term with new variables, numbered from a first one on.
pub(crate) fn copy(alloc: Global, first: u32, term: &Term) -> Result<Term, AllocError>
    requires few { first < 2 ^ 31 }
    requires below { IsBelow first term.now }
    ensures { IfOk result (λ copy. copy ≡ copy_of first term.now) }
{
    let found = variables(alloc, term)?;
    renaming(alloc, first, &found)?.apply(alloc, term)
}

// The first term is unified with the second, and the substitution is kept to the variables of the first.
pub(crate) fn solve_within(
    alloc: Global,
    left: &Term,
    right: &Term,
) -> Result<Option<Subst>, AllocError>
    ensures { IfOk result (λ found. Meets (SolveWithin left.now right.now) found) }
{
    match unify(alloc, slice::from_ref(left), slice::from_ref(right))? {
        Outcome::Unified(bindings) => {
            let found = variables(alloc, left)?;
            Ok(Some(bindings.restrict(alloc, &found)?))
        }
        Outcome::Clash | Outcome::Occurs => Ok(None),
    }
}
