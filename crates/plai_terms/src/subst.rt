ghost use Rattle.std.specs.Prelude.{◌≡◌, ◌≤◌, [], ◌∷◌, ◌++◌, IfOk, length, map, reverse, take, drop, nat_eq};
ghost use Rattle.std.specs.List.{IsDistinct};
ghost use Rattle.plai_terms.specs.Preorder.{arguments_of};
ghost use Rattle.plai_terms.specs.Subst.{bound_to, apply_of, restricted_to};

use crate::rebuild::{renewed, take_last};
use crate::term::Term;
use std::alloc::{AllocError, Global};
use std::marker::Model;

/// A substitution: bindings of distinct variables, that contracts see as the list of pairs.
#[derive(Drop)]
pub struct Subst {
    pairs: Vec<(u32, Term)>,
}

impl Model for Subst {
    ghost use Rattle.std.specs.Prelude.{ℕ, List, map, nat_eq};
    ghost use Rattle.std.specs.List.{IsDistinct};
    ghost use Rattle.std.specs.Coded.{coded_list, coded×, coded_ℕ};
    ghost use Rattle.plai_terms.specs.declared.term.Term.{Term};
    ghost use Rattle.plai_terms.specs.contracts.term.Term as term;

    ghost Value = { List (ℕ × Term) };

    ghost coded = { coded_list (coded× coded_ℕ term.the_row.coded) };

    ghost view = { λ s. s.pairs.items };

    ghost invariant = { λ s. IsDistinct nat_eq (map (λ p. p.0) s.pairs.items) };
}

// Puts a binding of one of these variables behind those kept so far.
fn keep(
    alloc: Global,
    variables: &[u32],
    pair: &(u32, Term),
    kept: &mut Vec<(u32, Term)>,
) -> Result<(), AllocError>
    ensures { IfOk result (λ _. kept.new.items ≡ kept.old.items ++ restricted_to variables.now (pair.now ∷ [])) }
{
    if variables.contains(&pair.0) {
        kept.push((pair.0, pair.1.copy(alloc)?))?;
    }
    Ok(())
}

impl Subst {
    /// The substitution with these bindings.
    pub fn new(pairs: Vec<(u32, Term)>) -> Subst
        requires { IsDistinct nat_eq (map (λ p. p.0) pairs.items) }
        ensures { result ≡ pairs.items }
    {
        Subst { pairs }
    }

    /// One binding.
    pub fn single(alloc: Global, variable: u32, term: Term) -> Result<Subst, AllocError>
        ensures { IfOk result (λ s. s ≡ (variable, term) ∷ []) }
    {
        Ok(Subst::new(vec![in alloc; (variable, term)]?))
    }

    /// The bindings of these variables alone.
    pub fn restrict(&self, alloc: Global, variables: &[u32]) -> Result<Subst, AllocError>
        ensures { IfOk result (λ s. s ≡ restricted_to variables.now self.now) }
    {
        let mut kept = Vec::new(alloc);
        for pair in self.pairs.as_slice() {
            keep(alloc, variables, pair, &mut kept)?;
        }
        Ok(Subst::new(kept))
    }

    /// The bindings.
    pub fn as_slice(&self) -> &[(u32, Term)]
        ensures pairs { result.now ≡ self.now }
        ensures distinct { IsDistinct nat_eq (map (λ p. p.0) self.now) }
    {
        self.pairs.as_slice()
    }

    fn look_up(&self, alloc: Global, variable: u32) -> Result<Term, AllocError>
        ensures { IfOk result (λ t. t ≡ bound_to self.now variable) }
    {
        for pair in self.as_slice() {
            if pair.0 == variable {
                return pair.1.copy(alloc);
            }
        }
        Ok(Term::Var(variable))
    }

    // A subterm with its variables replaced, whose arguments, replaced, are the last terms that are done, the
    // first of them last.
    fn replaced(&self, alloc: Global, node: &Term, done: &mut Vec<Term>) -> Result<Term, AllocError>
        requires enough { length (arguments_of node.now) ≤ length done.old.items }
        requires replaced { take (length (arguments_of node.now)) (reverse done.old.items) ≡ map (apply_of self.now) (arguments_of node.now) }
        ensures term { IfOk result (λ t. t ≡ apply_of self.now node.now) }
        ensures others { IfOk result (λ _. reverse done.new.items ≡ drop (length (arguments_of node.now)) (reverse done.old.items)) }
    {
        match node {
            Term::Var(number) => self.look_up(alloc, *number),
            _ => renewed(alloc, node, done),
        }
    }

    /// The term, of any depth, with each bound variable replaced, all at once.
    pub fn apply(&self, alloc: Global, term: &Term) -> Result<Term, AllocError>
        ensures { IfOk result (λ t. t ≡ apply_of self.now term.now) }
    {
        let mut nodes = term.nodes(alloc)?;
        let mut done = Vec::new(alloc);
        while let Some(node) = nodes.pop() {
            let changed = self.replaced(alloc, node, &mut done)?;
            done.push(changed)?;
        }
        Ok(take_last(&mut done))
    }
}
