ghost use Rattle.std.specs.Prelude.{◌≡◌, ◌≤◌, ◌<◌, ◌&&◌, ◌↔◌, ℕ, IsTrue, true, length, IfOk};
ghost use Rattle.plai_domain.specs.Instances.{all_below};
ghost use Rattle.plai_base.specs.Mask.{has_slot};
ghost use Rattle.plai_terms.specs.Term.{has_variables_below};
ghost use Rattle.plai_bdd.specs.Assignment.{Assignment};
ghost use Rattle.plai_bdd.specs.Slots.{conjunction};
ghost use Rattle.plai_pos_laws.specs.Assignments.{holds};
ghost use Rattle.plai_pos.specs.TermSlots.{IsBelow, AreSlotsOf};

use plai_base::Mask;
use plai_terms::Term;
use std::alloc::{AllocError, Global};

/// The slots from `first` to the one before `end`.
pub(crate) fn slots_from(first: u32, end: u32) -> Mask
    requires order { first ≤ end }
    requires room { end ≤ 64 }
    ensures { (slot : ℕ) → IsTrue (has_slot result slot) ↔ ((first ≤ slot) × (slot < end)) }
{
    let mut slots = Mask::empty();
    for slot in first..end {
        slots = slots.insert(slot);
    }
    slots
}

/// The set with the slots of the term's variables, variable `v` being slot `v`.
pub(crate) fn with_variables(slots: Mask, term: &Term, variables: u32) -> Mask
    requires term { has_variables_below variables term.now ≡ true }
    requires slots { IsBelow variables slots }
    requires room { variables ≤ 64 }
    ensures below { IsBelow variables result }
    ensures truth { (at : Assignment) → conjunction result at ≡ (conjunction slots at && holds at term.now) }
{
    match term {
        Term::Var(number) => slots.insert(*number),
        Term::Int(_) | Term::Atom(_) => slots,
        Term::Compound(_, args) => {
            let mut all = slots;
            for arg in args.as_slice() {
                all = with_variables(all, arg, variables);
            }
            all
        }
    }
}

/// For each term, the slots of its variables.
pub(crate) fn slots_of(
    alloc: Global,
    terms: &[Term],
    variables: u32,
) -> Result<Vec<Mask>, AllocError>
    requires below { all_below variables terms.now ≡ true }
    requires room { variables ≤ 64 }
    ensures { IfOk result (λ sets. AreSlotsOf variables (length terms.now) terms.now sets.items) }
{
    let mut sets = Vec::new(alloc);
    for term in terms {
        sets.push(with_variables(Mask::empty(), term, variables))?;
    }
    Ok(sets)
}
