//! The clauses and the entry.
ghost use Rattle.std.specs.Prelude.{◌≡◌, IfOk, [], ◌∷◌, codes};
ghost use Rattle.plai_terms.specs.declared.term.Term.{Var, Compound};
ghost use Rattle.plai_make.specs.Clauses.{home_name, home, pred_name, key_of, fact_args, fact, goal, rule, entry};

use itoa::Buffer;
use plai_clauses::{Clause, Entry, Imports, Literal, Module, Target};
use plai_terms::{Listed, Name, NonEmpty, PredKey, Prop, Term};
use std::alloc::{AllocError, Global};

pub(crate) fn home_name(alloc: Global) -> Result<Name, AllocError>
    ensures { IfOk result (λ name. name ≡ home_name) }
{
    Ok(Name::new(Vec::from_slice(alloc, b"g")?))
}

pub(crate) fn home(alloc: Global) -> Result<Module, AllocError>
    ensures { IfOk result (λ made. made ≡ home) }
{
    Ok(Module {
        name: home_name(alloc)?,
        exports: Listed::new(Vec::new(alloc)),
        imports: Imports::new(Vec::new(alloc)),
    })
}

pub(crate) fn pred_name(alloc: Global, number: u32) -> Result<Name, AllocError>
    ensures { IfOk result (λ name. name ≡ pred_name number) }
{
    let mut bytes = Vec::from_slice(alloc, b"p")?;
    let mut buffer = Buffer::new();
    bytes.extend_from_slice(buffer.format(number).as_bytes())?;
    Ok(Name::new(bytes))
}

fn key_of(alloc: Global, number: u32) -> Result<PredKey, AllocError>
    ensures { IfOk result (λ pred. pred ≡ key_of number) }
{
    Ok(PredKey {
        module: home_name(alloc)?,
        name: pred_name(alloc, number)?,
        arity: 2,
    })
}

fn two(alloc: Global, first: Term, second: Term) -> Result<Vec<Term>, AllocError>
    ensures { IfOk result (λ terms. terms.items ≡ first ∷ second ∷ []) }
{
    let mut terms = Vec::new(alloc);
    terms.push(first)?;
    terms.push(second)?;
    Ok(terms)
}

/// The term `f(X)`.
fn wrapped(alloc: Global) -> Result<Term, AllocError>
    ensures { IfOk result (λ term. term ≡ Compound (codes "f") (Var 0 ∷ [])) }
{
    let mut args = Vec::new(alloc);
    args.push(Term::Var(0))?;
    let name = Name::new(Vec::from_slice(alloc, b"f")?);
    Ok(Term::Compound(name, NonEmpty::new(args)))
}

pub(crate) fn fact_args(alloc: Global) -> Result<Vec<Term>, AllocError>
    ensures { IfOk result (λ args. args.items ≡ fact_args) }
{
    two(alloc, wrapped(alloc)?, Term::Var(0))
}

pub(crate) fn fact(alloc: Global, number: u32) -> Result<Clause, AllocError>
    ensures { IfOk result (λ clause. clause ≡ fact number) }
{
    Ok(Clause {
        name: pred_name(alloc, number)?,
        head: Listed::new(fact_args(alloc)?),
        variables: 1,
        body: Listed::new(Vec::new(alloc)),
    })
}

fn goal(alloc: Global, number: u32, first: u32, second: u32) -> Result<Literal, AllocError>
    ensures { IfOk result (λ literal. literal ≡ goal number first second) }
{
    Ok(Literal {
        name: pred_name(alloc, number)?,
        args: Listed::new(two(alloc, Term::Var(first), Term::Var(second))?),
        target: Target::Pred(key_of(alloc, number)?),
    })
}

fn goals(alloc: Global, first: u32, second: u32) -> Result<Vec<Literal>, AllocError>
    ensures { IfOk result (λ goals. goals.items ≡ goal first 0 2 ∷ goal second 2 1 ∷ []) }
{
    let mut goals = Vec::new(alloc);
    goals.push(goal(alloc, first, 0, 2)?)?;
    goals.push(goal(alloc, second, 2, 1)?)?;
    Ok(goals)
}

pub(crate) fn rule(
    alloc: Global,
    number: u32,
    first: u32,
    second: u32,
) -> Result<Clause, AllocError>
    ensures { IfOk result (λ clause. clause ≡ rule number first second) }
{
    Ok(Clause {
        name: pred_name(alloc, number)?,
        head: Listed::new(two(alloc, Term::Var(0), Term::Var(1))?),
        variables: 3,
        body: Listed::new(goals(alloc, first, second)?),
    })
}

pub(crate) fn entry(alloc: Global) -> Result<Entry, AllocError>
    ensures { IfOk result (λ made. made ≡ entry) }
{
    Ok(Entry {
        module: home_name(alloc)?,
        pred: key_of(alloc, 0)?,
        pre: Listed::new(Vec::from_slice(alloc, &[Prop::Ground(1)])?),
    })
}
