ghost use Rattle.std.specs.Prelude.{◌≡◌, IfOk};

use plai_terms::{Listed, Name, PredKey, Term};
use std::alloc::{AllocError, Global};

/// What a literal calls.
#[derive(Debug, Drop)]
pub enum Target {
    /// A predicate of a module.
    Pred(PredKey),
    /// The builtin of the literal's name and number of arguments.
    Builtin,
}

/// A goal of a clause's body.
#[derive(Debug, Drop)]
pub struct Literal {
    pub name: Name,
    pub args: Listed<Term>,
    pub target: Target,
}

/// A clause: its head's name and arguments, its number of variables, which are numbered from 0, and its body.
#[derive(Debug, Drop)]
pub struct Clause {
    pub name: Name,
    pub head: Listed<Term>,
    pub variables: u32,
    pub body: Listed<Literal>,
}

pub(crate) fn copy_terms(alloc: Global, terms: &[Term]) -> Result<Vec<Term>, AllocError>
    ensures { IfOk result (λ copies. copies.items ≡ terms.now) }
{
    let mut copies = Vec::new(alloc);
    for term in terms {
        copies.push(term.copy(alloc)?)?;
    }
    Ok(copies)
}

impl Target {
    /// An equal target.
    pub fn copy(&self, alloc: Global) -> Result<Target, AllocError>
        ensures { IfOk result (λ target. target ≡ self.now) }
    {
        match self {
            Target::Pred(pred) => Ok(Target::Pred(pred.copy(alloc)?)),
            Target::Builtin => Ok(Target::Builtin),
        }
    }
}

impl Literal {
    /// An equal literal.
    pub fn copy(&self, alloc: Global) -> Result<Literal, AllocError>
        ensures { IfOk result (λ literal. literal ≡ self.now) }
    {
        Ok(Literal {
            name: self.name.copy(alloc)?,
            args: Listed::new(copy_terms(alloc, self.args.as_slice())?),
            target: self.target.copy(alloc)?,
        })
    }
}

fn copy_literals(alloc: Global, literals: &[Literal]) -> Result<Vec<Literal>, AllocError>
    ensures { IfOk result (λ copies. copies.items ≡ literals.now) }
{
    let mut copies = Vec::new(alloc);
    for literal in literals {
        copies.push(literal.copy(alloc)?)?;
    }
    Ok(copies)
}

impl Clause {
    /// An equal clause.
    pub fn copy(&self, alloc: Global) -> Result<Clause, AllocError>
        ensures { IfOk result (λ clause. clause ≡ self.now) }
    {
        Ok(Clause {
            name: self.name.copy(alloc)?,
            head: Listed::new(copy_terms(alloc, self.head.as_slice())?),
            variables: self.variables,
            body: Listed::new(copy_literals(alloc, self.body.as_slice())?),
        })
    }
}
