ghost use Rattle.std.specs.Prelude.{◌≡◌, ◌++◌, ◌∷◌, [], IfOk, length, map, reverse};
ghost use Rattle.plai_terms.specs.Subst.{apply_of, composed};
ghost use Rattle.plai_terms.specs.Unification.{move_of, put, UnifiesTo};
ghost use Rattle.plai_terms.specs.Progress.{IsProgress};

use crate::moves::{Move, next_move, pair_up};
use crate::outcome::Outcome;
use crate::subst::Subst;
use crate::term::Term;
use std::alloc::{AllocError, Global};

// How one equation was dealt with.
#[derive(Drop)]
pub(crate) enum Progress {
    Done,
    Clash,
    Occurs,
}

// A binding put into equations.
fn put_in(
    alloc: Global,
    binding: &Subst,
    pairs: &[(Term, Term)],
) -> Result<Vec<(Term, Term)>, AllocError>
    ensures { IfOk result (λ v. v.items ≡ map (λ e. (apply_of binding.now e.0, apply_of binding.now e.1)) pairs.now) }
{
    let mut changed = Vec::new(alloc);
    for pair in pairs {
        changed.push((
            binding.apply(alloc, &pair.0)?,
            binding.apply(alloc, &pair.1)?,
        ))?;
    }
    Ok(changed)
}

// A binding put into earlier bindings.
fn put_earlier(
    alloc: Global,
    binding: &Subst,
    pairs: &[(u32, Term)],
) -> Result<Vec<(u32, Term)>, AllocError>
    ensures { IfOk result (λ v. v.items ≡ map (λ p. (p.0, apply_of binding.now p.1)) pairs.now) }
{
    let mut changed = Vec::new(alloc);
    for pair in pairs {
        changed.push((pair.0, binding.apply(alloc, &pair.1)?))?;
    }
    Ok(changed)
}

// Equations that stand behind, the first last, get others at the front.
fn put_front(
    mut parts: Vec<(Term, Term)>,
    waiting: &mut Vec<(Term, Term)>,
) -> Result<(), AllocError>
    ensures { IfOk result (λ _. reverse waiting.new.items ≡ parts.items ++ reverse waiting.old.items) }
{
    while let Some(part) = parts.pop() {
        waiting.push(part)?;
    }
    Ok(())
}

// Deals with the first equation.
fn advance(
    alloc: Global,
    left: Term,
    right: Term,
    waiting: &mut Vec<(Term, Term)>,
    bindings: &mut Vec<(u32, Term)>,
) -> Result<Progress, AllocError>
    ensures { IfOk result (λ done. IsProgress (move_of left right) done (reverse waiting.old.items) bindings.old.items (reverse waiting.new.items) bindings.new.items) }
{
    match next_move(alloc, left, right)? {
        Move::Skip => Ok(Progress::Done),
        Move::Bind(variable, term) => {
            let binding = Subst::single(alloc, variable, term.copy(alloc)?)?;
            let changed = put_in(alloc, &binding, waiting.as_slice())?;
            let mut earlier = put_earlier(alloc, &binding, bindings.as_slice())?;
            earlier.push((variable, term))?;
            *waiting = changed;
            *bindings = earlier;
            Ok(Progress::Done)
        }
        Move::Split(parts) => {
            put_front(parts.into_vec(), waiting)?;
            Ok(Progress::Done)
        }
        Move::Differ => Ok(Progress::Clash),
        Move::Contain => Ok(Progress::Occurs),
    }
}

// The same of an equation that is owned.
fn advance_pair(
    alloc: Global,
    pair: (Term, Term),
    waiting: &mut Vec<(Term, Term)>,
    bindings: &mut Vec<(u32, Term)>,
) -> Result<Progress, AllocError>
    ensures { IfOk result (λ done. IsProgress (move_of pair.0 pair.1) done (reverse waiting.old.items) bindings.old.items (reverse waiting.new.items) bindings.new.items) }
{
    let (left, right) = pair;
    advance(alloc, left, right, waiting, bindings)
}

/// Unifies two lists of terms of equal length, with the occurs check: the equations are solved one by one,
/// from the first (ISO/IEC 13211-1:1995, 7.3).
///
/// `Clash` and `Occurs` come exactly where the first equation that can't be solved is of terms that
/// can't be made equal, or of a variable and a term that properly contains it.
pub fn unify(alloc: Global, left: &[Term], right: &[Term]) -> Result<Outcome, AllocError>
    requires { length left.now ≡ length right.now }
    ensures { IfOk result (λ outcome. UnifiesTo left.now right.now outcome) }
{
    let mut waiting = Vec::new(alloc);
    put_front(pair_up(alloc, left, right)?.into_vec(), &mut waiting)?;
    let mut bindings = Vec::new(alloc);
    while let Some(pair) = waiting.pop() {
        match advance_pair(alloc, pair, &mut waiting, &mut bindings)? {
            Progress::Done => {}
            Progress::Clash => return Ok(Outcome::Clash),
            Progress::Occurs => return Ok(Outcome::Occurs),
        }
    }
    Ok(Outcome::Unified(Subst::new(bindings)))
}
