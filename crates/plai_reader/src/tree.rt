//! What is kept of a tree.
ghost use Rattle.std.specs.Prelude.{◌≡◌, ◌<◌, length, IfOk};
ghost use Rattle.std.specs.List.{flat_map};
ghost use Rattle.plai_reader.specs.Limits.{deepest, is_wide_over, terms_in, kept_trees};

use plai_terms::{Args, Name, Term};
use std::alloc::{AllocError, Global};

/// How deep a term that is read may be. An atom, an integer or a variable is 1 deep.
const LONGEST_DEPTH: u32 = 2000;

/// How many arguments a compound that is read may have.
const MOST_ARGUMENTS: usize = 255;

/// What is kept of a tree while its level is read. Trees that are refused in the end are not built, so that none is too deep
/// to be let go.
#[derive(Debug, Drop)]
pub enum Tree {
    /// A term within the limits, and its depth.
    Whole(Term, u32),
    /// A tree that is not too deep, with a compound of too many arguments, and its depth.
    Wide(u32),
    /// A tree that is too deep.
    Deep,
}

/// What is kept of trees together.
#[derive(Debug, Drop)]
struct Gathered {
    /// The terms of the whole trees.
    terms: Vec<Term>,
    /// The greatest depth, where 2,001 stands for more than 2,000.
    deepest: u32,
    /// Whether there are too many, or one has a compound of too many arguments.
    wide: bool,
}

fn gather(alloc: Global, trees: Vec<Tree>) -> Result<Gathered, AllocError>
    ensures terms { IfOk result (λ g. g.terms.items ≡ flat_map terms_in trees.items) }
    ensures deepest { IfOk result (λ g. g.deepest ≡ deepest trees.items) }
    ensures wide { IfOk result (λ g. g.wide ≡ is_wide_over trees.items) }
{
    let mut terms = Vec::new(alloc);
    let mut deepest: u32 = 0;
    let mut wide = trees.len() > MOST_ARGUMENTS;
    for tree in trees {
        match tree {
            Tree::Whole(term, depth) => {
                terms.push(term)?;
                deepest = deepest.max(depth);
            }
            Tree::Wide(depth) => {
                wide = true;
                deepest = deepest.max(depth);
            }
            Tree::Deep => deepest = deepest.max(LONGEST_DEPTH + 1),
        }
    }
    Ok(Gathered {
        terms,
        deepest,
        wide,
    })
}

/// What is kept of the compound of a name and these arguments.
pub fn compound(alloc: Global, name: Name, trees: Vec<Tree>) -> Result<Tree, AllocError>
    requires { 0 < length trees.items }
    ensures { IfOk result (λ tree. tree ≡ kept_trees.compound name trees.items) }
{
    let Gathered {
        terms,
        deepest,
        wide,
    } = gather(alloc, trees)?;
    if deepest >= LONGEST_DEPTH {
        return Ok(Tree::Deep);
    }
    if wide {
        return Ok(Tree::Wide(deepest + 1));
    }
    Ok(Tree::Whole(Term::Compound(name, Args::new(terms)), deepest + 1))
}
