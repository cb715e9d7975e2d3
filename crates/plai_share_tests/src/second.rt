//! The second program for sharing with freeness.
use crate::groups::{below, bit, missing};
use crate::shares::{Shares, Side, shares_of, side_of};
use plai_base::Mask;
use plai_compare::SecondProgram;
use plai_domain::Action;
use plai_terms::{Abs, Prop, Term};
use std::alloc::{AllocError, Global};

/// The second program, which has no settings.
#[derive(Drop)]
pub struct Sharing {}

/// What is known at a place of a clause: argument `i` is slot `i - 1`, and variable `v` of a clause of `n` arguments is slot
/// `n + v`.
#[derive(Drop)]
pub struct Place {
    arity: u32,
    variables: u32,
    shares: Shares,
}

impl Place {
    /// The number of slots.
    fn slots(&self) -> u32 {
        self.arity.saturating_add(self.variables)
    }

    /// With slots for the arguments of a literal behind the others.
    fn extended(&self, alloc: Global, args: &[Term]) -> Result<Shares, AllocError> {
        let first = self.slots();
        let copy = self.shares.copy(alloc)?;
        copy.widened(first, count(args))?
            .equated(alloc, first, args, self.arity)
    }

    /// The place at which only the clause's slots are left.
    fn behind(&self, alloc: Global, shares: &Shares) -> Result<Place, AllocError> {
        Ok(Place {
            arity: self.arity,
            variables: self.variables,
            shares: shares.projected(alloc, 0, self.slots())?,
        })
    }
}

/// The number of terms.
fn count(terms: &[Term]) -> u32 {
    u32::try_from(terms.len()).unwrap_or(u32::MAX)
}

/// The slot of an argument, numbered from 1.
fn argument(number: u32) -> u64 {
    bit(number.saturating_sub(1))
}

/// The groups that do not have both.
fn apart(alloc: Global, groups: &[u64], first: u64, second: u64) -> Result<Vec<u64>, AllocError> {
    let mut found = Vec::new(alloc);
    for group in groups {
        if *group & first == 0 || *group & second == 0 {
            found.push(*group)?;
        }
    }
    Ok(found)
}

/// With a property of arguments.
fn with_property(alloc: Global, shares: Shares, property: &Prop) -> Result<Shares, AllocError> {
    let Shares { groups, free } = shares;
    match property {
        Prop::Ground(i) | Prop::Int(i) => Ok(Shares {
            groups: missing(alloc, groups.as_slice(), argument(*i))?,
            free,
        }),
        Prop::Var(i) => Ok(Shares {
            groups,
            free: free | argument(*i),
        }),
        Prop::Nonvar(_) => Ok(Shares { groups, free }),
        Prop::Indep(i, j) => Ok(Shares {
            groups: apart(alloc, groups.as_slice(), argument(*i), argument(*j))?,
            free,
        }),
    }
}

/// The groups and the free slots of a pattern.
fn parts(pattern: &Abs) -> (&[Mask], u64) {
    match pattern {
        Abs::Groups(_, groups, free) => (groups.as_slice(), free.bits()),
        _ => (&[], 0),
    }
}

impl SecondProgram for Sharing {
    type State = Place;

    fn describe(&self, alloc: Global, arity: u32, pre: &[Prop]) -> Result<Abs, AllocError> {
        let mut groups = Vec::new(alloc);
        for group in 1..=below(arity) {
            groups.push(group)?;
        }
        let mut shares = Shares { groups, free: 0 };
        for property in pre {
            shares = with_property(alloc, shares, property)?;
        }
        shares.pattern(alloc, arity)
    }

    fn enter(
        &self,
        alloc: Global,
        call: &Abs,
        head: &[Term],
        variables: u32,
    ) -> Result<Option<Place>, AllocError> {
        let arity = count(head);
        let called = shares_of(alloc, call)?;
        let shares = called
            .widened(arity, variables)?
            .equated(alloc, 0, head, arity)?;
        Ok(Some(Place {
            arity,
            variables,
            shares,
        }))
    }

    fn call(&self, alloc: Global, state: &Place, args: &[Term]) -> Result<Abs, AllocError> {
        let arity = count(args);
        let shares = state.extended(alloc, args)?;
        shares
            .projected(alloc, state.slots(), arity)?
            .pattern(alloc, arity)
    }

    fn back(
        &self,
        alloc: Global,
        state: &Place,
        args: &[Term],
        answer: &Abs,
    ) -> Result<Option<Place>, AllocError> {
        let first = state.slots();
        let slots = below(count(args)).checked_shl(first).unwrap_or(0);
        let shares = state.extended(alloc, args)?;
        let answered = shares.answered(alloc, slots, first, &shares_of(alloc, answer)?)?;
        Ok(Some(state.behind(alloc, &answered)?))
    }

    fn refine(
        &self,
        alloc: Global,
        state: &Place,
        args: &[Term],
        action: &Action,
    ) -> Result<Option<Place>, AllocError> {
        let mut sides: Vec<Side> = Vec::new(alloc);
        for arg in args {
            sides.push(side_of(state.arity, arg))?;
        }
        let shares = state.extended(alloc, args)?;
        match shares.acted(alloc, state.slots(), sides.as_slice(), action)? {
            None => Ok(None),
            Some(next) => Ok(Some(state.behind(alloc, &next)?)),
        }
    }

    fn exit(&self, alloc: Global, state: &Place, _head: &[Term]) -> Result<Abs, AllocError> {
        let shares = state.shares.projected(alloc, 0, state.arity)?;
        shares.pattern(alloc, state.arity)
    }

    fn join(&self, alloc: Global, a: &Abs, b: &Abs) -> Result<Abs, AllocError> {
        let Shares { groups, free } = shares_of(alloc, a)?;
        let other = shares_of(alloc, b)?;
        let mut groups = groups;
        groups.extend_from_slice(other.groups.as_slice())?;
        let shares = Shares {
            groups,
            free: free & other.free,
        };
        match a {
            Abs::Groups(arity, _, _) => shares.pattern(alloc, *arity),
            _ => Ok(Abs::Nothing),
        }
    }

    fn leq(&self, a: &Abs, b: &Abs) -> bool {
        let (groups, free) = parts(a);
        let (others, freer) = parts(b);
        groups.iter().all(|group| others.contains(group)) && freer & !free == 0
    }

    fn entails(&self, a: &Abs, property: &Prop) -> bool {
        let (groups, free) = parts(a);
        let has = |group: &Mask, i: u32| group.bits() & argument(i) != 0;
        match property {
            Prop::Ground(i) | Prop::Nonvar(i) => !groups.iter().any(|group| has(group, *i)),
            Prop::Var(i) => free & argument(*i) != 0,
            Prop::Int(_) => false,
            Prop::Indep(i, j) => !groups.iter().any(|group| has(group, *i) && has(group, *j)),
        }
    }

    fn excludes(&self, a: &Abs, property: &Prop) -> bool {
        let (groups, free) = parts(a);
        match property {
            Prop::Ground(i) | Prop::Nonvar(i) | Prop::Int(i) => free & argument(*i) != 0,
            Prop::Var(i) => !groups.iter().any(|group| group.bits() & argument(*i) != 0),
            Prop::Indep(_, _) => false,
        }
    }
}
