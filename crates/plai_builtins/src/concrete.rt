ghost use Rattle.std.specs.Prelude.{◌≡◌, ℕ, ◌<◌, ◌≤◌, ◌^◌, ◌-◌, [], ◌∷◌, IfOk};
ghost use Rattle.plai_theory.specs.Words.{given};
ghost use Rattle.plai_terms.specs.declared.term.Term.{Int};
ghost use Rattle.plai_terms.specs.Substitution.{AreBelow, IsBelow};
ghost use Rattle.plai_values.specs.Values.{value_of};
ghost use Rattle.plai_builtins.specs.Copies.{copy_of};
ghost use Rattle.plai_builtins.specs.Meaning.{Never, Solve, SolveWithin, Meets, Means, tested, term_test, value_test, asked_by};

use crate::construct::{argument, functor, univ};
use crate::copies::{copy, solve_within};
use crate::found::{refute, solve_one, tested};
use crate::kind::{is_atom, is_compound, is_integer, is_variable};
use plai_clauses::Builtin;
use plai_terms::{Name, Subst, Term};
use plai_values::{Comparison, compare, is_ground_term, value};
use std::alloc::{AllocError, Global};

// Whether a builtin of no argument succeeds.
fn nullary(builtin: Option<Builtin>) -> bool
    ensures { (fresh : ℕ) → Meets (asked_by builtin [] fresh) (tested result) }
{
    match builtin {
        Some(Builtin::True | Builtin::Cut | Builtin::NewLine) => true,
        _ => false,
    }
}

// Whether a builtin of one argument succeeds.
fn unary(alloc: Global, builtin: Option<Builtin>, term: &Term) -> Result<bool, AllocError>
    ensures { IfOk result (λ holds. (fresh : ℕ) → Meets (asked_by builtin (term.now ∷ []) fresh) (tested holds)) }
{
    match builtin {
        Some(Builtin::Write) => Ok(true),
        Some(Builtin::Var) => Ok(is_variable(term)),
        Some(Builtin::Nonvar) => Ok(!is_variable(term)),
        Some(Builtin::Atom) => Ok(is_atom(term)),
        Some(Builtin::Atomic) => Ok(is_atom(term) || is_integer(term)),
        Some(Builtin::Ground) => is_ground_term(alloc, term),
        Some(Builtin::Integer) => Ok(is_integer(term)),
        Some(Builtin::Compound) => Ok(is_compound(term)),
        _ => Ok(false),
    }
}

// A comparison of two terms.
fn compare_terms(
    alloc: Global,
    comparison: Comparison,
    left: &Term,
    right: &Term,
) -> Result<Option<Subst>, AllocError>
    ensures { IfOk result (λ found. Meets (term_test comparison left.now right.now) found) }
{
    let order = compare(alloc, left, right)?;
    Ok(tested(alloc, comparison.holds_of(order)))
}

// A comparison of two terms' values.
fn compare_values(
    alloc: Global,
    comparison: Comparison,
    left: &Term,
    right: &Term,
) -> Result<Option<Subst>, AllocError>
    ensures { IfOk result (λ found. Meets (value_test comparison left.now right.now) found) }
{
    match value(alloc, left)? {
        None => Ok(None),
        Some(first) => match value(alloc, right)? {
            None => Ok(None),
            Some(second) => Ok(tested(alloc, comparison.compares(first, second))),
        },
    }
}

// `X is E`.
fn evaluate(alloc: Global, left: &Term, right: &Term) -> Result<Option<Subst>, AllocError>
    ensures { IfOk result (λ found. Meets (given Never (λ n. Solve (Int n ∷ []) (left.now ∷ [])) (value_of right.now)) found) }
{
    match value(alloc, right)? {
        None => Ok(None),
        Some(number) => solve_one(alloc, &Term::Int(number), left),
    }
}

// `copy_term(T,C)`.
fn copy_term(
    alloc: Global,
    term: &Term,
    wanted: &Term,
    fresh: u32,
) -> Result<Option<Subst>, AllocError>
    requires few { fresh < 2 ^ 31 }
    requires below { IsBelow fresh term.now }
    ensures { IfOk result (λ found. Meets (SolveWithin wanted.now (copy_of fresh term.now)) found) }
{
    let renamed = copy(alloc, fresh, term)?;
    solve_within(alloc, wanted, &renamed)
}

// A builtin of two arguments.
fn binary(
    alloc: Global,
    builtin: Option<Builtin>,
    left: &Term,
    right: &Term,
    fresh: u32,
) -> Result<Option<Subst>, AllocError>
    requires few { fresh < 2 ^ 31 }
    requires below { IsBelow fresh left.now }
    ensures { IfOk result (λ found. Meets (asked_by builtin (left.now ∷ right.now ∷ []) fresh) found) }
{
    match builtin {
        Some(Builtin::Unify) => solve_one(alloc, left, right),
        Some(Builtin::NotUnify) => refute(alloc, left, right),
        Some(Builtin::Same) => compare_terms(alloc, Comparison::Eq, left, right),
        Some(Builtin::NotSame) => compare_terms(alloc, Comparison::Ne, left, right),
        Some(Builtin::TermLess) => compare_terms(alloc, Comparison::Lt, left, right),
        Some(Builtin::TermLessOrSame) => compare_terms(alloc, Comparison::Le, left, right),
        Some(Builtin::TermGreater) => compare_terms(alloc, Comparison::Gt, left, right),
        Some(Builtin::TermGreaterOrSame) => compare_terms(alloc, Comparison::Ge, left, right),
        Some(Builtin::Is) => evaluate(alloc, left, right),
        Some(Builtin::ValuesEqual) => compare_values(alloc, Comparison::Eq, left, right),
        Some(Builtin::ValuesDiffer) => compare_values(alloc, Comparison::Ne, left, right),
        Some(Builtin::ValueLess) => compare_values(alloc, Comparison::Lt, left, right),
        Some(Builtin::ValueLessOrEqual) => compare_values(alloc, Comparison::Le, left, right),
        Some(Builtin::ValueGreater) => compare_values(alloc, Comparison::Gt, left, right),
        Some(Builtin::ValueGreaterOrEqual) => compare_values(alloc, Comparison::Ge, left, right),
        Some(Builtin::Univ) => univ(alloc, left, right),
        Some(Builtin::CopyTerm) => copy_term(alloc, left, right, fresh),
        _ => Ok(None),
    }
}

// A builtin of three arguments.
fn ternary(
    alloc: Global,
    builtin: Option<Builtin>,
    first: &Term,
    second: &Term,
    third: &Term,
    fresh: u32,
) -> Result<Option<Subst>, AllocError>
    requires { fresh < 2 ^ 31 }
    ensures { IfOk result (λ found. Meets (asked_by builtin (first.now ∷ second.now ∷ third.now ∷ []) fresh) found) }
{
    match builtin {
        Some(Builtin::Functor) => functor(alloc, first, second, third, fresh),
        Some(Builtin::Arg) => argument(alloc, first, second, third),
        _ => Ok(None),
    }
}

/// The concrete meaning of a builtin at these arguments (ISO/IEC 13211-1:1995, 8 and 9): the substitution with which it
/// succeeds, or `None` where it fails or would raise an error. A name that with so many arguments is no builtin has none.
///
/// New variables are numbered from `fresh` on, which is above each variable of the arguments and at most 2,147,483,647.
/// The arguments may be of any depth.
pub fn meaning(
    alloc: Global,
    name: &Name,
    args: &[Term],
    fresh: u32,
) -> Result<Option<Subst>, AllocError>
    requires few { fresh ≤ 2 ^ 31 - 1 }
    requires below { AreBelow fresh args.now }
    ensures { IfOk result (λ found. Means name.now args.now fresh found) }
{
    match args {
        [] => Ok(tested(alloc, nullary(Builtin::named(name, 0)))),
        [term] => {
            let holds = unary(alloc, Builtin::named(name, 1), term)?;
            Ok(tested(alloc, holds))
        }
        [left, right] => binary(alloc, Builtin::named(name, 2), left, right, fresh),
        [first, second, third] => {
            let builtin = Builtin::named(name, 3);
            ternary(alloc, builtin, first, second, third, fresh)
        }
        _ => Ok(None),
    }
}
