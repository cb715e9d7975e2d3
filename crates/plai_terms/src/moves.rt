ghost use Rattle.std.specs.Prelude.{◌≡◌, ◌&&◌, nat_eq, IfOk, length};
ghost use Rattle.plai_terms.specs.declared.moves.Move.TheVariants.{Split};
ghost use Rattle.plai_terms.specs.Preorder.{arguments_of};
ghost use Rattle.plai_terms.specs.Unification.{equations, bind_of, skip_if, move_of};
ghost use Rattle.std.specs.Ordering.{int_eq};
ghost use Rattle.std.specs.Cmp.Lexicographic.{pointwise};

use crate::listed::Listed;
use crate::name::Name;
use crate::rebuild::take_last;
use crate::term::Term;
use crate::walk::contains;
use std::alloc::{AllocError, Global};

// What is done with one equation.
#[derive(Drop)]
pub(crate) enum Move {
    // It is dropped: the sides are equal.
    Skip,
    // The variable is bound to the term.
    Bind(u32, Term),
    // It gives way to the equations of the arguments.
    Split(Listed<(Term, Term)>),
    // The sides can't be made equal.
    Differ,
    // The variable is to be a term that contains it.
    Contain,
}

// The equations of the first terms with the second, which are copied.
pub(crate) fn pair_up(
    alloc: Global,
    left: &[Term],
    right: &[Term],
) -> Result<Listed<(Term, Term)>, AllocError>
    requires { length left.now ≡ length right.now }
    ensures { IfOk result (λ pairs. pairs ≡ equations left.now right.now) }
{
    let mut pairs = Vec::new(alloc);
    for i in 0..left.len() {
        pairs.push((left[i].copy(alloc)?, right[i].copy(alloc)?))?;
    }
    Ok(Listed::new(pairs))
}

// The same of terms that are given up.
fn pair_owned(
    alloc: Global,
    mut left: Vec<Term>,
    mut right: Vec<Term>,
) -> Result<Listed<(Term, Term)>, AllocError>
    requires { length left.items ≡ length right.items }
    ensures { IfOk result (λ pairs. pairs ≡ equations left.items right.items) }
{
    let mut pairs = Vec::new(alloc);
    while !left.is_empty() {
        pairs.push((take_last(&mut left), take_last(&mut right)))?;
    }
    pairs.reverse();
    Ok(Listed::new(pairs))
}

// A variable, on whichever side, with a term that is another.
fn bind(alloc: Global, variable: u32, term: Term) -> Result<Move, AllocError>
    ensures { IfOk result (λ m. m ≡ bind_of variable term) }
{
    if contains(alloc, &term, variable)? {
        Ok(Move::Contain)
    } else {
        Ok(Move::Bind(variable, term))
    }
}

fn same_integer(left: &i128, right: &i128) -> bool
    ensures { result ≡ int_eq left.now right.now }
{
    *left == *right
}

fn skip_if(same: bool) -> Move
    ensures { result ≡ skip_if same }
{
    if same { Move::Skip } else { Move::Differ }
}

// Whether two compounds have one name and as many arguments.
fn are_alike(left: &Name, left_args: &[Term], right: &Name, right_args: &[Term]) -> bool
    ensures { result ≡ (pointwise nat_eq left.now right.now && nat_eq (length left_args.now) (length right_args.now)) }
{
    *left == *right && left_args.len() == right_args.len()
}

// Two compounds that are alike: the equations of their arguments.
fn split(alloc: Global, left: Term, right: Term) -> Result<Move, AllocError>
    requires { length (arguments_of left) ≡ length (arguments_of right) }
    ensures { IfOk result (λ m. m ≡ Split (equations (arguments_of left) (arguments_of right))) }
{
    let (left, right) = (left.into_arguments(alloc), right.into_arguments(alloc));
    Ok(Move::Split(pair_owned(alloc, left, right)?))
}

// What is done with the equation of two terms, which are moved.
pub(crate) fn next_move(alloc: Global, left: Term, right: Term) -> Result<Move, AllocError>
    ensures { IfOk result (λ m. m ≡ move_of left right) }
{
    match &left {
        Term::Var(v) => match &right {
            Term::Var(w) => {
                if *v == *w {
                    Ok(Move::Skip)
                } else {
                    Ok(Move::Bind(*v, right))
                }
            }
            Term::Int(_) | Term::Atom(_) | Term::Compound(_, _) => bind(alloc, *v, right),
        },
        Term::Int(m) => match &right {
            Term::Var(w) => bind(alloc, *w, left),
            Term::Int(n) => Ok(skip_if(same_integer(m, n))),
            Term::Atom(_) | Term::Compound(_, _) => Ok(Move::Differ),
        },
        Term::Atom(a) => match &right {
            Term::Var(w) => bind(alloc, *w, left),
            Term::Atom(b) => Ok(skip_if(*a == *b)),
            Term::Int(_) | Term::Compound(_, _) => Ok(Move::Differ),
        },
        Term::Compound(a, xs) => match &right {
            Term::Var(w) => bind(alloc, *w, left),
            Term::Compound(b, ys) => {
                if are_alike(a, xs.as_slice(), b, ys.as_slice()) {
                    split(alloc, left, right)
                } else {
                    Ok(Move::Differ)
                }
            }
            Term::Int(_) | Term::Atom(_) => Ok(Move::Differ),
        },
    }
}
