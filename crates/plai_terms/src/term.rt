ghost use Rattle.std.specs.Prelude.{◌≡◌, IfOk, List, ◌∷◌};
ghost use Rattle.plai_terms.specs.declared.term.Term.{Term, Compound};
ghost use Rattle.plai_terms.specs.Preorder.{arguments_of};

use crate::name::Name;
use crate::non_empty::NonEmpty;
use crate::rebuild::{renewed, take_last};
use std::alloc::{AllocError, Global};
use std::mem;

/// The arguments of a compound: at least one.
pub type Args = NonEmpty<Term>;

/// A term (ISO/IEC 13211-1:1995, 6.1.2 and 7.1). Contracts see it as data, with a name as its bytes and
/// arguments as a list.
///
/// A term may be of any depth: what walks it here keeps a stack of its own, and so does letting go of it. `==` and
/// `Debug` alone call themselves once for each level: they are for terms that were read, which are 2,000 levels deep at
/// most.
#[derive(Debug, PartialEq, Eq)]
pub enum Term {
    /// A variable, by its number from 0.
    Var(u32),
    /// An integer.
    Int(i128),
    /// An atom.
    Atom(Name),
    /// A compound: its name and its arguments.
    Compound(Name, Args),
}

// The first argument of a compound, whose place other terms take, and the arguments with these.
fn turn(name: Name, args: Args, others: Args) -> (Term, Args)
    ensures { (first : Term) × (rest : List Term) × (args ≡ first ∷ rest) × (result ≡ (first, Compound name others ∷ rest)) }
{
    let mut items = args.into_vec();
    let first = mem::replace(&mut items[0], Term::Compound(name, others));
    (first, NonEmpty::new(items))
}

// A loop, so that a term of any depth runs out of no stack, and without memory of its own. Beside the term that is
// let go some others wait. A compound that is met meanwhile gives the place of its first argument to a compound of
// those, which so comes up last, when no others wait: each compound is met twice at most.
impl Drop for Term {
    fn drop(mut self) {
        let mut waiting: Option<Args> = None;
        loop {
            match self {
                Term::Var(_) | Term::Int(_) | Term::Atom(_) => match waiting {
                    None => return,
                    Some(args) => (self, waiting) = args.split_last(),
                },
                Term::Compound(name, args) => match waiting {
                    None => (self, waiting) = args.split_last(),
                    Some(others) => {
                        let (first, rest) = turn(name, args, others);
                        self = first;
                        waiting = Some(rest);
                    }
                },
            }
        }
    }
}

impl Term {
    // The arguments of a compound, given up, and of a variable, an integer or an atom none. Only here can a term,
    // which has a `drop` of its own, be taken apart.
    pub(crate) fn into_arguments(self, alloc: Global) -> Vec<Term>
        ensures { result.items ≡ arguments_of self }
    {
        match self {
            Term::Compound(_, args) => args.into_vec(),
            _ => Vec::new(alloc),
        }
    }

    /// An equal term, of any depth.
    pub fn copy(&self, alloc: Global) -> Result<Term, AllocError>
        ensures { IfOk result (λ t. t ≡ self.now) }
    {
        let mut nodes = self.nodes(alloc)?;
        let mut done = Vec::new(alloc);
        while let Some(node) = nodes.pop() {
            let term = renewed(alloc, node, &mut done)?;
            done.push(term)?;
        }
        Ok(take_last(&mut done))
    }
}

impl NonEmpty<Term> {
    /// Equal arguments.
    pub fn copy(&self, alloc: Global) -> Result<Args, AllocError>
        ensures { IfOk result (λ args. args ≡ self.now) }
    {
        let mut items = Vec::new(alloc);
        for item in self.as_slice() {
            items.push(item.copy(alloc)?)?;
        }
        Ok(Args::new(items))
    }
}
