//! What is known of slots: the groups that may share a variable and the slots that are free variables, and what unification,
//! answers and actions make of it (Jacobs and Langen 1992; Muthukumar and Hermenegildo 1992).
use crate::groups::{below, bin, bit, meeting, missing, near, put, star};
use plai_base::Mask;
use plai_domain::Action;
use plai_terms::{Abs, Listed, Term};
use std::alloc::{AllocError, Global};

/// The groups, in no order, and the free slots.
#[derive(Drop)]
pub struct Shares {
    /// The groups.
    pub groups: Vec<u64>,
    /// The free slots.
    pub free: u64,
}

/// One side of an equation: the slots of its variables, and whether it is a variable.
#[derive(Clone, Copy)]
pub struct Side {
    slots: u64,
    is_variable: bool,
}

/// The side of a slot.
pub fn slot(number: u32) -> Side {
    Side {
        slots: bit(number),
        is_variable: true,
    }
}

/// The slots of the term's variables, where variable `k` is slot `first + k`.
fn slots_of(first: u32, term: &Term) -> u64 {
    match term {
        Term::Var(variable) => bit(first.saturating_add(*variable)),
        Term::Int(_) | Term::Atom(_) => 0,
        Term::Compound(_, args) => {
            let mut slots = 0;
            for arg in args.as_slice() {
                slots |= slots_of(first, arg);
            }
            slots
        }
    }
}

/// The side of a term.
pub fn side_of(first: u32, term: &Term) -> Side {
    Side {
        slots: slots_of(first, term),
        is_variable: matches!(term, Term::Var(_)),
    }
}

/// What a pattern of sharing says.
pub fn shares_of(alloc: Global, pattern: &Abs) -> Result<Shares, AllocError> {
    let mut shares = Shares {
        groups: Vec::new(alloc),
        free: 0,
    };
    if let Abs::Groups(_, groups, free) = pattern {
        for group in groups.as_slice() {
            shares.groups.push(group.bits())?;
        }
        shares.free = free.bits();
    }
    Ok(shares)
}

impl Shares {
    /// The pattern of so many arguments: the groups in ascending order, each once.
    pub fn pattern(self, alloc: Global, arity: u32) -> Result<Abs, AllocError> {
        let mut groups = self.groups;
        groups.sort_unstable();
        groups.dedup();
        let mut masks = Vec::new(alloc);
        for group in &groups {
            masks.push(Mask::from_bits(*group))?;
        }
        Ok(Abs::Groups(arity, Listed::new(masks), Mask::from_bits(self.free)))
    }

    /// The same.
    pub fn copy(&self, alloc: Global) -> Result<Shares, AllocError> {
        Ok(Shares {
            groups: Vec::from_slice(alloc, self.groups.as_slice())?,
            free: self.free,
        })
    }

    /// With so many new slots from the first on, each of which is a free variable that shares with no other.
    pub fn widened(self, first: u32, count: u32) -> Result<Shares, AllocError> {
        let mut groups = self.groups;
        let mut free = self.free;
        for number in 0..count {
            let new = bit(first.saturating_add(number));
            put(&mut groups, new)?;
            free |= new;
        }
        Ok(Shares { groups, free })
    }

    /// Whether the side is a variable that is free.
    fn is_free(&self, side: Side) -> bool {
        side.is_variable && self.free & side.slots != 0
    }

    /// The slots that are no longer free when the sides are made equal.
    fn lost(&self, x: Side, t: Side) -> u64 {
        let groups = self.groups.as_slice();
        match (self.is_free(x), self.is_free(t)) {
            (true, true) => 0,
            (true, false) => near(groups, x.slots),
            (false, true) => near(groups, t.slots),
            (false, false) => near(groups, x.slots | t.slots),
        }
    }

    /// The groups that making the sides equal puts in place of those that meet a side.
    fn united(&self, alloc: Global, x: Side, t: Side) -> Result<Vec<u64>, AllocError> {
        let first = meeting(alloc, self.groups.as_slice(), x.slots)?;
        let second = meeting(alloc, self.groups.as_slice(), t.slots)?;
        if self.is_free(x) || self.is_free(t) {
            return bin(alloc, first.as_slice(), second.as_slice());
        }
        let first = star(alloc, first.as_slice())?;
        let second = star(alloc, second.as_slice())?;
        bin(alloc, first.as_slice(), second.as_slice())
    }

    /// Where the sides are made equal.
    pub fn unified(&self, alloc: Global, x: Side, t: Side) -> Result<Shares, AllocError> {
        let mut groups = missing(alloc, self.groups.as_slice(), x.slots | t.slots)?;
        groups.extend_from_slice(self.united(alloc, x, t)?.as_slice())?;
        Ok(Shares {
            groups,
            free: self.free & !self.lost(x, t),
        })
    }

    /// Where the slots from a first one on are the terms, whose variables are the slots from another on.
    pub fn equated(
        self,
        alloc: Global,
        first: u32,
        terms: &[Term],
        variables: u32,
    ) -> Result<Shares, AllocError> {
        let mut shares = self;
        let mut number = first;
        for term in terms {
            shares = shares.unified(alloc, slot(number), side_of(variables, term))?;
            number = number.saturating_add(1);
        }
        Ok(shares)
    }

    /// What is known of the slots from a first one on, so many of them, which are renumbered from 0.
    pub fn projected(&self, alloc: Global, first: u32, count: u32) -> Result<Shares, AllocError> {
        let mut groups = Vec::new(alloc);
        for group in &self.groups {
            put(
                &mut groups,
                group.checked_shr(first).unwrap_or(0) & below(count),
            )?;
        }
        Ok(Shares {
            groups,
            free: self.free.checked_shr(first).unwrap_or(0) & below(count),
        })
    }

    /// Behind an answer at these slots, of which some stay free.
    pub fn answered(
        &self,
        alloc: Global,
        slots: u64,
        first: u32,
        answer: &Shares,
    ) -> Result<Shares, AllocError> {
        let known = self.groups.as_slice();
        let mut groups = missing(alloc, known, slots)?;
        let met = meeting(alloc, known, slots)?;
        for union in &star(alloc, met.as_slice())? {
            let part = (*union & slots).checked_shr(first).unwrap_or(0);
            if answer.groups.contains(&part) {
                groups.push(*union)?;
            }
        }
        let bound = slots & !answer.free.checked_shl(first).unwrap_or(0);
        Ok(Shares {
            groups,
            free: self.free & !near(known, bound),
        })
    }

    /// Where anything may happen to the slots.
    fn havocked(&self, alloc: Global, slots: u64) -> Result<Shares, AllocError> {
        let known = self.groups.as_slice();
        let mut groups = missing(alloc, known, slots)?;
        let met = meeting(alloc, known, slots)?;
        groups.extend_from_slice(star(alloc, met.as_slice())?.as_slice())?;
        Ok(Shares {
            groups,
            free: self.free & !near(known, slots),
        })
    }

    /// Where the slots are ground.
    fn grounded(&self, alloc: Global, slots: u64) -> Result<Shares, AllocError> {
        Ok(Shares {
            groups: missing(alloc, self.groups.as_slice(), slots)?,
            free: self.free & !near(self.groups.as_slice(), slots),
        })
    }

    /// Where the terms of both slots are the same.
    fn same(&self, alloc: Global, first: u64, second: u64) -> Result<Shares, AllocError> {
        let mut groups = Vec::new(alloc);
        for group in &self.groups {
            if (*group & first != 0) == (*group & second != 0) {
                groups.push(*group)?;
            }
        }
        Ok(Shares {
            groups,
            free: self.free,
        })
    }

    /// Where the side is a variable, or none.
    fn variable(&self, alloc: Global, side: Side) -> Result<Option<Shares>, AllocError> {
        if !side.is_variable || near(self.groups.as_slice(), side.slots) == 0 {
            return Ok(None);
        }
        let mut shares = self.copy(alloc)?;
        shares.free |= side.slots;
        Ok(Some(shares))
    }

    /// Where the side is no variable, or none.
    fn bound(&self, alloc: Global, side: Side) -> Result<Option<Shares>, AllocError> {
        if self.is_free(side) {
            return Ok(None);
        }
        Ok(Some(self.copy(alloc)?))
    }

    /// What an action leaves at arguments with these sides, which are the slots from a first one on.
    pub fn acted(
        &self,
        alloc: Global,
        first: u32,
        sides: &[Side],
        action: &Action,
    ) -> Result<Option<Shares>, AllocError> {
        let number = |argument: u32| first.saturating_add(argument.saturating_sub(1));
        match action {
            Action::Fail => Ok(None),
            Action::Unify(i, j) => Ok(Some(self.unified(
                alloc,
                slot(number(*i)),
                slot(number(*j)),
            )?)),
            Action::Same(i, j) => Ok(Some(self.same(alloc, bit(number(*i)), bit(number(*j)))?)),
            Action::Ground(i) | Action::BindInt(i) => Ok(Some(self.grounded(
                alloc,
                bit(number(*i)),
            )?)),
            Action::Havoc(slots) => Ok(Some(self.havocked(
                alloc,
                slots.bits().checked_shl(first).unwrap_or(0),
            )?)),
            Action::Var(i) => match sides.get(i.saturating_sub(1) as usize) {
                Some(side) => self.variable(alloc, *side),
                None => Ok(None),
            },
            Action::Nonvar(i) => match sides.get(i.saturating_sub(1) as usize) {
                Some(side) => self.bound(alloc, *side),
                None => Ok(None),
            },
        }
    }
}
