// Walks over terms with a stack on the heap, for terms of any depth.
ghost use Rattle.std.specs.Prelude.{◌≡◌, ◌++◌, true, IfOk, reverse};
ghost use Rattle.plai_terms.specs.Term.{has_variables_below, is_variable, is_within, occurs};
ghost use Rattle.plai_terms.specs.Preorder.{arguments_of, preorder, referred};
ghost use Rattle.plai_terms.specs.Substitution.{IsBelow};

use crate::term::Term;
use std::alloc::{AllocError, Global};

// Terms that wait, the next one last, get others behind them, so that the first of these is next.
fn put_all<'a>(terms: &'a [Term], waiting: &mut Vec<&'a Term>) -> Result<(), AllocError>
    ensures { IfOk result (λ _. referred waiting.new.items ≡ referred waiting.old.items ++ reverse terms.entry.now) }
{
    let mut left = terms;
    while let Some((last, before)) = left.split_last() {
        waiting.push(last)?;
        left = before;
    }
    Ok(())
}

fn is_variable(term: &Term, variable: u32) -> bool
    ensures { result ≡ is_variable variable term.now }
{
    match term {
        Term::Var(number) => variable == *number,
        _ => false,
    }
}

// Whether the term is no variable from the limit on.
fn is_within(term: &Term, limit: u32) -> bool
    ensures { result ≡ is_within limit term.now }
{
    match term {
        Term::Var(number) => *number < limit,
        _ => true,
    }
}

// Whether the variable occurs in a term of any depth.
pub(crate) fn contains(alloc: Global, term: &Term, variable: u32) -> Result<bool, AllocError>
    ensures { IfOk result (λ found. found ≡ occurs variable term.now) }
{
    let nodes = term.nodes(alloc)?;
    for node in &nodes {
        if is_variable(node, variable) {
            return Ok(true);
        }
    }
    Ok(false)
}

impl Term {
    /// The arguments of a compound, and of a variable, an integer or an atom none.
    pub fn arguments(&self) -> &[Term]
        ensures { result.now ≡ arguments_of self.now }
    {
        match self {
            Term::Compound(_, args) => args.as_slice(),
            _ => &[],
        }
    }

    /// The subterms in preorder: the term, and then the subterms of its arguments, from the first. A loop over them,
    /// or over them from the last, takes the place of a recursion, whose depth would be the term's.
    pub fn nodes(&self, alloc: Global) -> Result<Vec<&Term>, AllocError>
        ensures { IfOk result (λ nodes. referred nodes.items ≡ preorder self.entry.now) }
    {
        let mut nodes = Vec::new(alloc);
        let mut waiting = vec![in alloc; self]?;
        while let Some(term) = waiting.pop() {
            nodes.push(term)?;
            put_all(term.arguments(), &mut waiting)?;
        }
        Ok(nodes)
    }

    /// Whether each variable of the term, which may be of any depth, is numbered below `limit`.
    pub fn has_variables_below(&self, alloc: Global, limit: u32) -> Result<bool, AllocError>
        ensures answer { IfOk result (λ below. below ≡ has_variables_below limit self.now) }
        ensures below { IfOk result (λ below. below ≡ true → IsBelow limit self.now) }
    {
        let nodes = self.nodes(alloc)?;
        for node in &nodes {
            if !is_within(node, limit) {
                return Ok(false);
            }
        }
        Ok(true)
    }
}
