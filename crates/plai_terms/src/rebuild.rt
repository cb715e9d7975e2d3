// Terms made anew from their subterms in preorder, the last one first.
ghost use Rattle.std.specs.Prelude.{◌≡◌, ◌≤◌, ◌<◌, ◌++◌, ◌∷◌, [], IfOk, length, reverse, take, drop};
ghost use Rattle.plai_terms.specs.Preorder.{arguments_of, with_arguments};

use crate::non_empty::NonEmpty;
use crate::term::Term;
use std::alloc::{AllocError, Global};

// The last item, taken away.
pub(crate) fn take_last<T>(items: &mut Vec<T>) -> T
    requires { 0 < length items.old.items }
    ensures { items.old.items ≡ items.new.items ++ result ∷ [] }
{
    items.remove(items.len() - 1)
}

// That many terms from the end, the last one first.
fn take_many(alloc: Global, count: usize, done: &mut Vec<Term>) -> Result<Vec<Term>, AllocError>
    requires { count ≤ length done.old.items }
    ensures terms { IfOk result (λ terms. terms.items ++ reverse done.new.items ≡ reverse done.old.items) }
    ensures count { IfOk result (λ terms. length terms.items ≡ count) }
{
    let mut terms = Vec::new(alloc);
    for _ in 0..count {
        terms.push(take_last(done))?;
    }
    Ok(terms)
}

// A subterm anew, whose arguments are the last terms that are done, the first of them last.
pub(crate) fn renewed(alloc: Global, node: &Term, done: &mut Vec<Term>) -> Result<Term, AllocError>
    requires { length (arguments_of node.now) ≤ length done.old.items }
    ensures term { IfOk result (λ t. t ≡ with_arguments node.now (take (length (arguments_of node.now)) (reverse done.old.items))) }
    ensures others { IfOk result (λ _. reverse done.new.items ≡ drop (length (arguments_of node.now)) (reverse done.old.items)) }
{
    match node {
        Term::Var(number) => Ok(Term::Var(*number)),
        Term::Int(value) => Ok(Term::Int(*value)),
        Term::Atom(name) => Ok(Term::Atom(name.copy(alloc)?)),
        Term::Compound(name, args) => {
            let terms = take_many(alloc, args.as_slice().len(), done)?;
            Ok(Term::Compound(name.copy(alloc)?, NonEmpty::new(terms)))
        }
    }
}
