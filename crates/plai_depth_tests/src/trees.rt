//! Terms cut at a depth as trees that are copied whole, and the operations on them (Sato and Tamaki 1984).
use plai_terms::{Listed, Skeleton, Term};
use std::alloc::{AllocError, Global};

/// The least tree above both.
pub fn join(alloc: Global, a: &Skeleton, b: &Skeleton) -> Result<Skeleton, AllocError> {
    if a == b {
        return a.copy(alloc);
    }
    match (a, b) {
        (Skeleton::Integer | Skeleton::Int(_), Skeleton::Integer | Skeleton::Int(_)) => {
            Ok(Skeleton::Integer)
        }
        (Skeleton::Compound(name, args), Skeleton::Compound(other, others)) => {
            if name != other || args.as_slice().len() != others.as_slice().len() {
                return Ok(Skeleton::Any);
            }
            let mut all = Vec::new(alloc);
            for (arg, fellow) in args.as_slice().iter().zip(others.as_slice()) {
                all.push(join(alloc, arg, fellow)?)?;
            }
            Ok(Skeleton::Compound(name.copy(alloc)?, Listed::new(all)))
        }
        _ => Ok(Skeleton::Any),
    }
}

/// Whether the first tree stands for terms of the second alone.
pub fn is_below(a: &Skeleton, b: &Skeleton) -> bool {
    match (a, b) {
        (_, Skeleton::Any) => true,
        (Skeleton::Int(_), Skeleton::Integer) => true,
        (Skeleton::Compound(name, args), Skeleton::Compound(other, others)) => {
            if name != other || args.as_slice().len() != others.as_slice().len() {
                return false;
            }
            for (arg, fellow) in args.as_slice().iter().zip(others.as_slice()) {
                if !is_below(arg, fellow) {
                    return false;
                }
            }
            true
        }
        _ => a == b,
    }
}

/// The greatest tree below both, or none.
pub fn meet(alloc: Global, a: &Skeleton, b: &Skeleton) -> Result<Option<Skeleton>, AllocError> {
    match (a, b) {
        (Skeleton::Any, _) => Ok(Some(b.copy(alloc)?)),
        (_, Skeleton::Any) => Ok(Some(a.copy(alloc)?)),
        (Skeleton::Integer, Skeleton::Int(_)) => Ok(Some(b.copy(alloc)?)),
        (Skeleton::Int(_), Skeleton::Integer) => Ok(Some(a.copy(alloc)?)),
        (Skeleton::Compound(name, args), Skeleton::Compound(other, others)) => {
            if name != other || args.as_slice().len() != others.as_slice().len() {
                return Ok(None);
            }
            let mut all = Vec::new(alloc);
            for (arg, fellow) in args.as_slice().iter().zip(others.as_slice()) {
                match meet(alloc, arg, fellow)? {
                    None => return Ok(None),
                    Some(met) => all.push(met)?,
                }
            }
            Ok(Some(Skeleton::Compound(name.copy(alloc)?, Listed::new(all))))
        }
        _ => {
            if a == b {
                return Ok(Some(a.copy(alloc)?));
            }
            Ok(None)
        }
    }
}

/// The tree in which each subtree at a depth over the limit is `any`, the root being at depth 1.
pub fn cut(alloc: Global, limit: u32, tree: &Skeleton) -> Result<Skeleton, AllocError> {
    if limit == 0 {
        return Ok(Skeleton::Any);
    }
    match tree {
        Skeleton::Compound(name, args) => {
            let mut all = Vec::new(alloc);
            for arg in args.as_slice() {
                all.push(cut(alloc, limit - 1, arg)?)?;
            }
            Ok(Skeleton::Compound(name.copy(alloc)?, Listed::new(all)))
        }
        _ => tree.copy(alloc),
    }
}

/// Whether some subtree is `any`.
pub fn has_any(tree: &Skeleton) -> bool {
    match tree {
        Skeleton::Any => true,
        Skeleton::Compound(_, args) => {
            for arg in args.as_slice() {
                if has_any(arg) {
                    return true;
                }
            }
            false
        }
        _ => false,
    }
}

/// The term with the trees of its variables put for them.
pub fn pull(alloc: Global, known: &[Skeleton], term: &Term) -> Result<Skeleton, AllocError> {
    match term {
        Term::Var(variable) => match known.get(*variable as usize) {
            Some(tree) => tree.copy(alloc),
            None => Ok(Skeleton::Any),
        },
        Term::Int(value) => Ok(Skeleton::Int(*value)),
        Term::Atom(name) => Ok(Skeleton::Atom(name.copy(alloc)?)),
        Term::Compound(name, args) => {
            let mut all = Vec::new(alloc);
            for arg in args.as_slice() {
                all.push(pull(alloc, known, arg)?)?;
            }
            Ok(Skeleton::Compound(name.copy(alloc)?, Listed::new(all)))
        }
    }
}

/// The trees of the variables, in which this one's meets the tree, or none.
fn with_met(
    alloc: Global,
    known: &[Skeleton],
    variable: u32,
    tree: &Skeleton,
) -> Result<Option<Vec<Skeleton>>, AllocError> {
    let mut all = Vec::new(alloc);
    for (number, own) in known.iter().enumerate() {
        if number == variable as usize {
            match meet(alloc, own, tree)? {
                None => return Ok(None),
                Some(met) => all.push(met)?,
            }
        } else {
            all.push(own.copy(alloc)?)?;
        }
    }
    Ok(Some(all))
}

/// The trees of the variables where the term is below the tree, or none.
#[cycle(push)]
pub fn push(
    alloc: Global,
    term: &Term,
    known: &[Skeleton],
    tree: &Skeleton,
) -> Result<Option<Vec<Skeleton>>, AllocError> {
    match (term, tree) {
        (Term::Var(variable), _) => with_met(alloc, known, *variable, tree),
        (Term::Compound(name, args), Skeleton::Compound(other, others)) => {
            if name != other || args.as_slice().len() != others.as_slice().len() {
                return Ok(None);
            }
            push_all(alloc, args.as_slice(), known, others.as_slice())
        }
        _ => {
            let own = pull(alloc, known, term)?;
            match meet(alloc, &own, tree)? {
                None => Ok(None),
                Some(_) => Ok(Some(Skeleton::copy_all(alloc, known)?)),
            }
        }
    }
}

/// The trees of the variables where each of the terms is below the tree of the same place, or none.
#[cycle(push)]
pub fn push_all(
    alloc: Global,
    terms: &[Term],
    known: &[Skeleton],
    trees: &[Skeleton],
) -> Result<Option<Vec<Skeleton>>, AllocError> {
    let mut all = Skeleton::copy_all(alloc, known)?;
    for (term, tree) in terms.iter().zip(trees) {
        match push(alloc, term, all.as_slice(), tree)? {
            None => return Ok(None),
            Some(next) => all = next,
        }
    }
    Ok(Some(all))
}

/// All trees, cut.
pub fn cut_all(alloc: Global, limit: u32, trees: &[Skeleton]) -> Result<Vec<Skeleton>, AllocError> {
    let mut all = Vec::new(alloc);
    for tree in trees {
        all.push(cut(alloc, limit, tree)?)?;
    }
    Ok(all)
}
