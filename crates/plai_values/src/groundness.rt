ghost use Rattle.std.specs.Prelude.{◌≡◌, IfOk};
ghost use Rattle.std.specs.List.{list_all};
ghost use Rattle.plai_terms.specs.Preorder.{referred};
ghost use Rattle.plai_terms.specs.Term.{is_ground};
ghost use Rattle.plai_values.specs.Nodes.{is_no_variable};

use plai_terms::Term;
use std::alloc::{AllocError, Global};

fn is_no_variable(node: &Term) -> bool
    ensures { result ≡ is_no_variable node.now }
{
    match node {
        Term::Var(_) => false,
        Term::Int(_) | Term::Atom(_) | Term::Compound(_, _) => true,
    }
}

fn are_no_variables(nodes: &[&Term]) -> bool
    ensures { result ≡ list_all is_no_variable (referred nodes.now) }
{
    for node in nodes {
        if !is_no_variable(node) {
            return false;
        }
    }
    true
}

/// Whether no variable occurs in the term. It may be of any depth.
pub fn is_ground_term(alloc: Global, term: &Term) -> Result<bool, AllocError>
    ensures { IfOk result (λ answer. answer ≡ is_ground term.now) }
{
    let nodes = term.nodes(alloc)?;
    Ok(are_no_variables(&nodes))
}
