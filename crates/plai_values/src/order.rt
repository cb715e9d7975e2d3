ghost use Rattle.std.specs.Prelude.{◌≡◌, ◌↔◌, IfOk, true};
ghost use Rattle.std.specs.Cmp.Lexicographic.{slice_cmp};
ghost use Rattle.plai_terms.specs.declared.term.Term.{Var, Int, Atom, Compound};
ghost use Rattle.plai_terms.specs.Preorder.{referred};
ghost use Rattle.plai_values.specs.Nodes.{node_order};
ghost use Rattle.plai_values.specs.TermOrder.{term_order};

use plai_terms::{Args, Name, Term};
use std::alloc::{AllocError, Global};
use std::cmp::Ordering;

fn variable_order(number: u32, other: &Term) -> Ordering
    ensures { result ≡ node_order (Var number) other.now }
{
    match other {
        Term::Var(second) => number.cmp(second),
        Term::Int(_) | Term::Atom(_) | Term::Compound(_, _) => Ordering::Less,
    }
}

fn integer_order(value: i128, other: &Term) -> Ordering
    ensures { result ≡ node_order (Int value) other.now }
{
    match other {
        Term::Var(_) => Ordering::Greater,
        Term::Int(second) => value.cmp(second),
        Term::Atom(_) | Term::Compound(_, _) => Ordering::Less,
    }
}

fn atom_order(name: &Name, other: &Term) -> Ordering
    ensures { result ≡ node_order (Atom name.now) other.now }
{
    match other {
        Term::Var(_) | Term::Int(_) => Ordering::Greater,
        Term::Atom(second) => name.cmp(second),
        Term::Compound(_, _) => Ordering::Less,
    }
}

fn compound_order(name: &Name, args: &Args, other: &Term) -> Ordering
    ensures { result ≡ node_order (Compound name.now args.now) other.now }
{
    match other {
        Term::Var(_) | Term::Int(_) | Term::Atom(_) => Ordering::Greater,
        Term::Compound(second, others) => {
            let count = others.as_slice().len();
            args.as_slice().len().cmp(&count).then(name.cmp(second))
        }
    }
}

// Two subterms without their arguments.
fn node_order(node: &Term, other: &Term) -> Ordering
    ensures { result ≡ node_order node.now other.now }
{
    match node {
        Term::Var(number) => variable_order(*number, other),
        Term::Int(value) => integer_order(*value, other),
        Term::Atom(name) => atom_order(name, other),
        Term::Compound(name, args) => compound_order(name, args, other),
    }
}

// The first two subterms that differ decide.
fn nodes_order(nodes: &[&Term], others: &[&Term]) -> Ordering
    ensures { result ≡ slice_cmp node_order (referred nodes.now) (referred others.now) }
{
    let count = nodes.len().min(others.len());
    for i in 0..count {
        let order = node_order(nodes[i], others[i]);
        if order.is_ne() {
            return order;
        }
    }
    nodes.len().cmp(&others.len())
}

/// How a term stands to another in the standard order (ISO/IEC 13211-1:1995, 7.2): variables by number, then integers by
/// value, then atoms by their bytes, then compounds by number of arguments, name and arguments from the left.
///
/// The terms may be of any depth: their subterms are listed on the heap.
pub fn compare(alloc: Global, left: &Term, right: &Term) -> Result<Ordering, AllocError>
    ensures { IfOk result (λ order. order ≡ term_order left.now right.now) }
{
    let nodes = left.nodes(alloc)?;
    let others = right.nodes(alloc)?;
    Ok(nodes_order(&nodes, &others))
}

/// Whether two terms are identical (ISO/IEC 13211-1:1995, 8.4.1). They may be of any depth.
pub fn same_term(alloc: Global, left: &Term, right: &Term) -> Result<bool, AllocError>
    ensures { IfOk result (λ same. (same ≡ true) ↔ (left.now ≡ right.now)) }
{
    Ok(compare(alloc, left, right)?.is_eq())
}
