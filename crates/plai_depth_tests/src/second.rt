//! The second program for terms cut at a depth.
use crate::trees::{cut_all, has_any, is_below, join, meet, pull, push, push_all};
use plai_compare::SecondProgram;
use plai_domain::Action;
use plai_terms::{Abs, Listed, Prop, Skeleton, Term};
use std::alloc::{AllocError, Global};

/// The second program for one depth.
#[derive(Drop)]
pub struct Trees {
    /// The depth.
    pub depth: u32,
}

/// The trees of a clause's variables.
#[derive(Drop)]
pub struct Place {
    trees: Vec<Skeleton>,
}

/// The trees of a pattern.
fn trees_of(pattern: &Abs) -> &[Skeleton] {
    match pattern {
        Abs::Terms(trees) => trees.as_slice(),
        _ => &[],
    }
}

/// The tree of an argument, numbered from 1.
fn tree_of(pattern: &Abs, argument: u32) -> Option<&Skeleton> {
    trees_of(pattern).get(argument.saturating_sub(1) as usize)
}

/// So many trees `any`, but for the arguments that are integers.
fn described(alloc: Global, arity: u32, pre: &[Prop]) -> Result<Vec<Skeleton>, AllocError> {
    let mut trees = Vec::new(alloc);
    for argument in 1..=arity {
        if pre.iter().any(|property| *property == Prop::Int(argument)) {
            trees.push(Skeleton::Integer)?;
        } else {
            trees.push(Skeleton::Any)?;
        }
    }
    Ok(trees)
}

/// Whether the argument has no subtree `any`.
fn is_whole(pattern: &Abs, argument: u32) -> bool {
    match tree_of(pattern, argument) {
        Some(tree) => !has_any(tree),
        None => false,
    }
}

/// Whether the argument is `any`.
fn is_any(pattern: &Abs, argument: u32) -> bool {
    matches!(tree_of(pattern, argument), Some(Skeleton::Any))
}

/// Whether the argument is an integer, one or any of them.
fn is_integer(pattern: &Abs, argument: u32) -> bool {
    matches!(
        tree_of(pattern, argument),
        Some(Skeleton::Integer | Skeleton::Int(_))
    )
}

/// The place, if there is one.
fn place_of(trees: Option<Vec<Skeleton>>) -> Option<Place> {
    match trees {
        None => None,
        Some(trees) => Some(Place { trees }),
    }
}

impl Trees {
    /// The cut trees of the terms.
    fn pulled(&self, alloc: Global, known: &[Skeleton], terms: &[Term]) -> Result<Abs, AllocError> {
        let mut trees = Vec::new(alloc);
        for term in terms {
            trees.push(pull(alloc, known, term)?)?;
        }
        let cut = cut_all(alloc, self.depth, trees.as_slice())?;
        Ok(Abs::Terms(Listed::new(cut)))
    }

    /// The cut trees of the variables where both terms are below what both are, or none.
    fn unified(
        &self,
        alloc: Global,
        known: &[Skeleton],
        first: &Term,
        second: &Term,
    ) -> Result<Option<Place>, AllocError> {
        let one = pull(alloc, known, first)?;
        let other = pull(alloc, known, second)?;
        let met = match meet(alloc, &one, &other)? {
            None => return Ok(None),
            Some(met) => met,
        };
        let behind = match push(alloc, first, known, &met)? {
            None => return Ok(None),
            Some(behind) => behind,
        };
        match push(alloc, second, behind.as_slice(), &met)? {
            None => Ok(None),
            Some(trees) => Ok(Some(Place {
                trees: cut_all(alloc, self.depth, trees.as_slice())?,
            })),
        }
    }
}

/// The place where the term is a variable that is `any`, or none.
fn free(alloc: Global, known: &[Skeleton], term: &Term) -> Result<Option<Place>, AllocError> {
    match term {
        Term::Var(variable) => match known.get(*variable as usize) {
            Some(Skeleton::Any) => Ok(Some(Place {
                trees: Skeleton::copy_all(alloc, known)?,
            })),
            _ => Ok(None),
        },
        _ => Ok(None),
    }
}

impl SecondProgram for Trees {
    type State = Place;

    fn describe(&self, alloc: Global, arity: u32, pre: &[Prop]) -> Result<Abs, AllocError> {
        Ok(Abs::Terms(Listed::new(described(alloc, arity, pre)?)))
    }

    fn enter(
        &self,
        alloc: Global,
        call: &Abs,
        head: &[Term],
        variables: u32,
    ) -> Result<Option<Place>, AllocError> {
        let known = described(alloc, variables, &[])?;
        Ok(place_of(push_all(alloc, head, known.as_slice(), trees_of(call))?))
    }

    fn call(&self, alloc: Global, state: &Place, args: &[Term]) -> Result<Abs, AllocError> {
        self.pulled(alloc, state.trees.as_slice(), args)
    }

    fn back(
        &self,
        alloc: Global,
        state: &Place,
        args: &[Term],
        answer: &Abs,
    ) -> Result<Option<Place>, AllocError> {
        Ok(place_of(push_all(alloc, args, state.trees.as_slice(), trees_of(answer))?))
    }

    fn refine(
        &self,
        alloc: Global,
        state: &Place,
        args: &[Term],
        action: &Action,
    ) -> Result<Option<Place>, AllocError> {
        let known = state.trees.as_slice();
        let at = |argument: u32| args.get(argument.saturating_sub(1) as usize);
        match action {
            Action::Fail => Ok(None),
            Action::Unify(i, j) | Action::Same(i, j) => match (at(*i), at(*j)) {
                (Some(first), Some(second)) => self.unified(alloc, known, first, second),
                _ => Ok(None),
            },
            Action::BindInt(i) => match at(*i) {
                Some(term) => Ok(place_of(push(alloc, term, known, &Skeleton::Integer)?)),
                None => Ok(None),
            },
            Action::Var(i) => match at(*i) {
                Some(term) => free(alloc, known, term),
                None => Ok(None),
            },
            Action::Ground(_) | Action::Nonvar(_) | Action::Havoc(_) => Ok(Some(Place {
                trees: Skeleton::copy_all(alloc, known)?,
            })),
        }
    }

    fn exit(&self, alloc: Global, state: &Place, head: &[Term]) -> Result<Abs, AllocError> {
        self.pulled(alloc, state.trees.as_slice(), head)
    }

    fn join(&self, alloc: Global, a: &Abs, b: &Abs) -> Result<Abs, AllocError> {
        let mut trees = Vec::new(alloc);
        for (tree, other) in trees_of(a).iter().zip(trees_of(b)) {
            trees.push(join(alloc, tree, other)?)?;
        }
        Ok(Abs::Terms(Listed::new(trees)))
    }

    fn leq(&self, a: &Abs, b: &Abs) -> bool {
        trees_of(a)
            .iter()
            .zip(trees_of(b))
            .all(|pair| is_below(pair.0, pair.1))
    }

    fn entails(&self, a: &Abs, property: &Prop) -> bool {
        match property {
            Prop::Ground(i) => is_whole(a, *i),
            Prop::Var(_) => false,
            Prop::Nonvar(i) => !is_any(a, *i),
            Prop::Int(i) => is_integer(a, *i),
            Prop::Indep(i, j) => is_whole(a, *i) || is_whole(a, *j),
        }
    }

    fn excludes(&self, a: &Abs, property: &Prop) -> bool {
        match property {
            Prop::Var(i) => !is_any(a, *i),
            Prop::Int(i) => !is_any(a, *i) && !is_integer(a, *i),
            Prop::Ground(_) | Prop::Nonvar(_) | Prop::Indep(_, _) => false,
        }
    }
}
