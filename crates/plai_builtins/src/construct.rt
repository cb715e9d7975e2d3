// Terms taken apart and put together: `functor`, `arg` and `=..` (ISO/IEC 13211-1:1995, 8.5.1 to 8.5.3).
ghost use Rattle.std.specs.Prelude.{◌≡◌, ◌≤◌, ◌<◌, ◌+◌, ◌^◌, [], ◌∷◌, ◌++◌, IfOk, length, pos, map};
ghost use Rattle.std.specs.Option.{option_copied};
ghost use Rattle.plai_terms.specs.declared.term.Term.{out-Term, Int, Atom};
ghost use Rattle.plai_terms.specs.declared.term.Term.TheOpen.{Term-F};
ghost use Rattle.plai_terms.specs.Preorder.{referred};
ghost use Rattle.plai_builtins.specs.Lists.{list_of};
ghost use Rattle.plai_builtins.specs.Meaning.{Solve, Meets, number_up_to, new_variables, construct, functor_at, nth, arg_at, made_by, made_of, univ_at};

use crate::found::{solve, solve_one};
use crate::kind::{is_atom, is_integer, number_up_to};
use crate::lists::{list_items, list_of};
use plai_terms::{Args, Name, Subst, Term};
use std::alloc::{AllocError, Global};

// So many new variables, numbered from a first one on.
fn new_variables(alloc: Global, first: u32, count: u32) -> Result<Vec<Term>, AllocError>
    requires { first + count < 2 ^ 32 }
    ensures { IfOk result (λ variables. variables.items ≡ new_variables first count) }
{
    let mut variables = Vec::new(alloc);
    for i in 0..count {
        variables.push(Term::Var(first + i))?;
    }
    Ok(variables)
}

// Unifies a term with the one of this name and so many new variables, or with the name alone.
fn construct(
    alloc: Global,
    term: &Term,
    name: &Term,
    arity: &Term,
    fresh: u32,
) -> Result<Option<Subst>, AllocError>
    requires { fresh < 2 ^ 31 }
    ensures { IfOk result (λ found. Meets (construct fresh term.now name.now (out-Term name.now) (number_up_to 255 arity.now)) found) }
{
    match number_up_to(255, arity) {
        None => Ok(None),
        Some(0) => {
            if is_atom(name) || is_integer(name) {
                solve_one(alloc, term, name)
            } else {
                Ok(None)
            }
        }
        Some(count) => match name {
            Term::Atom(atom) => {
                let variables = new_variables(alloc, fresh, count as u32)?;
                let made = Term::Compound(atom.copy(alloc)?, Args::new(variables));
                solve_one(alloc, term, &made)
            }
            _ => Ok(None),
        },
    }
}

// Unifies two terms with a name and a number of arguments.
fn take_apart(
    alloc: Global,
    name: &Term,
    arity: &Term,
    own_name: Term,
    own_arity: usize,
) -> Result<Option<Subst>, AllocError>
    ensures { IfOk result (λ found. Meets (Solve (name.now ∷ arity.now ∷ []) (own_name ∷ Int (pos own_arity) ∷ [])) found) }
{
    let wanted = vec![in alloc; name.copy(alloc)?, arity.copy(alloc)?]?;
    let own = vec![in alloc; own_name, Term::Int(own_arity as i128)]?;
    solve(alloc, &wanted, &own)
}

// `functor(T,N,A)`.
pub(crate) fn functor(
    alloc: Global,
    term: &Term,
    name: &Term,
    arity: &Term,
    fresh: u32,
) -> Result<Option<Subst>, AllocError>
    requires { fresh < 2 ^ 31 }
    ensures { IfOk result (λ found. Meets (functor_at fresh term.now name.now arity.now (out-Term term.now)) found) }
{
    match term {
        Term::Var(_) => construct(alloc, term, name, arity, fresh),
        Term::Int(_) | Term::Atom(_) => take_apart(alloc, name, arity, term.copy(alloc)?, 0),
        Term::Compound(own, args) => {
            let own_name = Term::Atom(own.copy(alloc)?);
            take_apart(alloc, name, arity, own_name, args.as_slice().len())
        }
    }
}

// The argument of this number, from 1.
fn nth<'a>(args: &'a [Term], number: &Term) -> Option<&'a Term>
    ensures { option_copied result ≡ nth args.entry.now (number_up_to (length args.entry.now) number.now) }
{
    match number_up_to(args.len(), number) {
        Some(n) => { if n > 0 { Some(&args[n - 1]) } else { None } }
        None => None,
    }
}

// `arg(N,T,A)`.
pub(crate) fn argument(
    alloc: Global,
    number: &Term,
    term: &Term,
    wanted: &Term,
) -> Result<Option<Subst>, AllocError>
    ensures { IfOk result (λ found. Meets (arg_at number.now wanted.now (out-Term term.now)) found) }
{
    match term {
        Term::Compound(_, args) => match nth(args.as_slice(), number) {
            Some(arg) => solve_one(alloc, arg, wanted),
            None => Ok(None),
        },
        _ => Ok(None),
    }
}

// The terms that these references point to.
fn copies(alloc: Global, items: &[&Term]) -> Result<Vec<Term>, AllocError>
    ensures { IfOk result (λ terms. terms.items ≡ referred items.now) }
{
    let mut terms = Vec::new(alloc);
    for item in items {
        terms.push(item.copy(alloc)?)?;
    }
    Ok(terms)
}

// Unifies a term with the one of this name and these arguments, at most 255.
fn made_of_name(
    alloc: Global,
    term: &Term,
    first: &Term,
    name: &Name,
    others: &[&Term],
) -> Result<Option<Subst>, AllocError>
    requires { first.now ≡ Atom name.now }
    ensures { IfOk result (λ found. Meets (made_by term.now first.now (Term-F.Atom name.now) (referred others.now)) found) }
{
    if others.is_empty() {
        solve_one(alloc, term, first)
    } else if others.len() <= 255 {
        let args = Args::new(copies(alloc, others)?);
        solve_one(alloc, term, &Term::Compound(name.copy(alloc)?, args))
    } else {
        Ok(None)
    }
}

// Unifies a term with the one that these items make: a name with arguments, or one integer.
fn made_of(alloc: Global, term: &Term, items: &[&Term]) -> Result<Option<Subst>, AllocError>
    ensures { IfOk result (λ found. Meets (made_of term.now (referred items.now)) found) }
{
    match items.split_first() {
        None => Ok(None),
        Some((first, others)) => match first {
            Term::Atom(name) => made_of_name(alloc, term, first, name, others),
            Term::Int(_) => {
                if others.is_empty() {
                    solve_one(alloc, term, first)
                } else {
                    Ok(None)
                }
            }
            _ => Ok(None),
        },
    }
}

// A name and then the arguments.
fn parts(alloc: Global, name: &Name, args: &[Term]) -> Result<Vec<Term>, AllocError>
    ensures { IfOk result (λ parts. parts.items ≡ Atom name.now ∷ args.now) }
{
    let mut parts = vec![in alloc; Term::Atom(name.copy(alloc)?)]?;
    for arg in args {
        parts.push(arg.copy(alloc)?)?;
    }
    Ok(parts)
}

// `T =.. L`.
pub(crate) fn univ(alloc: Global, term: &Term, list: &Term) -> Result<Option<Subst>, AllocError>
    ensures { IfOk result (λ found. Meets (univ_at term.now list.now (out-Term term.now)) found) }
{
    match term {
        Term::Var(_) => match list_items(alloc, list)? {
            Some(items) => made_of(alloc, term, &items),
            None => Ok(None),
        },
        Term::Int(_) | Term::Atom(_) => {
            let alone = vec![in alloc; term.copy(alloc)?]?;
            solve_one(alloc, list, &list_of(alloc, alone)?)
        }
        Term::Compound(name, args) => {
            let parts = parts(alloc, name, args.as_slice())?;
            solve_one(alloc, list, &list_of(alloc, parts)?)
        }
    }
}
