// What unification sees of a term (Muthukumar and Hermenegildo 1992).
ghost use Rattle.std.specs.Prelude.{◌≡◌, ◌+◌, ◌≤◌, true};
ghost use Rattle.plai_terms.specs.Term.{has_variables_below};
ghost use Rattle.plai_share_laws.specs.Shares.{slots_of, is_free};
ghost use Rattle.plai_share_laws.specs.Sides.{term_slots, side_of};

use plai_base::Mask;
use plai_terms::Term;

/// The slot of a variable, or the slots of the variables of any other term.
#[derive(Clone, Copy)]
pub(crate) enum Side {
    Slot(u32),
    Other(Mask),
}

impl Side {
    ghost use Rattle.plai_share.specs.Sides.{seen, IsBelow};

    /// The slots of the variables.
    pub(crate) fn slots(&self) -> Mask
        requires { IsBelow 64 self.now }
        ensures { result ≡ slots_of (seen self.now) }
    {
        match self {
            Side::Slot(slot) => Mask::of(*slot),
            Side::Other(slots) => *slots,
        }
    }

    /// Whether the term is a variable of which the set of free slots says that it is free.
    pub(crate) fn is_free(&self, free: Mask) -> bool
        ensures { result ≡ is_free free (seen self.now) }
    {
        match self {
            Side::Slot(slot) => free.has(*slot),
            Side::Other(_) => false,
        }
    }

    /// What is seen of a term whose variable `v` has slot `base + v`.
    pub(crate) fn of(term: &Term, base: u32, variables: u32) -> Side
        requires term { has_variables_below variables term.now ≡ true }
        requires room { base + variables ≤ 64 }
        ensures side { seen result ≡ side_of base term.now }
        ensures below { IsBelow 64 result }
    {
        match term {
            Term::Var(number) => Side::Slot(base + *number),
            Term::Int(_) | Term::Atom(_) | Term::Compound(_, _) => {
                Side::Other(term_slots(term, base, variables))
            }
        }
    }
}

/// The slots of a term's variables, variable `v` having slot `base + v`.
fn term_slots(term: &Term, base: u32, variables: u32) -> Mask
    requires term { has_variables_below variables term.now ≡ true }
    requires room { base + variables ≤ 64 }
    ensures { result ≡ term_slots base term.now }
{
    match term {
        Term::Var(number) => Mask::of(base + *number),
        Term::Int(_) | Term::Atom(_) => Mask::empty(),
        Term::Compound(_, args) => {
            let mut slots = Mask::empty();
            for arg in args.as_slice() {
                slots = slots.union(term_slots(arg, base, variables));
            }
            slots
        }
    }
}
