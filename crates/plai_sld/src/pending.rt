// Substitutions that wait, to be put on items later.
ghost use Rattle.std.specs.Prelude.{◌≡◌, ℕ, ◌<◌, [], ◌++◌, IfOk, map, nat_eq};
ghost use Rattle.std.specs.List.{list_any, IsDistinct};
ghost use Rattle.plai_terms.specs.Subst.{bound_to};
ghost use Rattle.plai_terms.specs.Substitution.{under};
ghost use Rattle.plai_sld.specs.Pending.{keys, AreBoth, HaveMore};

use plai_terms::{Subst, Term};
use std::alloc::{AllocError, Global};

// What is still to be put on the items below one, and a number above the variables that these have before.
#[derive(Drop)]
pub(crate) struct Pending {
    pub(crate) bindings: Subst,
    pub(crate) limit: u64,
}

impl Pending {
    // Nothing.
    pub(crate) fn nothing(alloc: Global, limit: u64) -> Pending
        ensures { result ≡ record { bindings = []; limit = limit } }
    {
        Pending {
            bindings: Subst::new(Vec::new(alloc)),
            limit,
        }
    }

    // What waits, and then the bindings.
    pub(crate) fn then(&self, alloc: Global, bindings: &Subst) -> Result<Pending, AllocError>
        ensures limit { IfOk result (λ next. next.limit ≡ self.now.limit) }
        ensures both { IfOk result (λ next. AreBoth self.now.bindings bindings.now self.now.limit next.bindings) }
    {
        Ok(Pending {
            bindings: both(alloc, &self.bindings, bindings, self.limit)?,
            limit: self.limit,
        })
    }
}

// The bindings with their terms under a substitution.
fn pairs_under(
    alloc: Global,
    pairs: &[(u32, Term)],
    bindings: &Subst,
) -> Result<Vec<(u32, Term)>, AllocError>
    ensures { IfOk result (λ changed. changed.items ≡ map (λ b. (b.0, under (bound_to bindings.now) b.1)) pairs.now) }
{
    let mut changed = Vec::new(alloc);
    for pair in pairs {
        changed.push((pair.0, bindings.apply(alloc, &pair.1)?))?;
    }
    Ok(changed)
}

// Whether the bindings bind the variable.
fn is_bound(pairs: &[(u32, Term)], variable: u32) -> bool
    ensures { result ≡ list_any (nat_eq variable) (keys pairs.now) }
{
    for pair in pairs {
        if variable == pair.0 {
            return true;
        }
    }
    false
}

// Puts a binding behind others, if its variable is below the limit and isn't bound yet.
fn keep(
    alloc: Global,
    pair: &(u32, Term),
    limit: u64,
    all: &mut Vec<(u32, Term)>,
) -> Result<(), AllocError>
    requires { IsDistinct nat_eq (keys all.old.items) }
    ensures distinct { IfOk result (λ _. IsDistinct nat_eq (keys all.new.items)) }
    ensures more { IfOk result (λ _. HaveMore limit pair.now all.old.items all.new.items) }
{
    if limit <= pair.0 as u64 {
        return Ok(());
    }
    if is_bound(all, pair.0) {
        return Ok(());
    }
    all.push((pair.0, pair.1.copy(alloc)?))?;
    Ok(())
}

// Puts such bindings behind others.
fn keep_all(
    alloc: Global,
    pairs: &[(u32, Term)],
    limit: u64,
    all: &mut Vec<(u32, Term)>,
) -> Result<(), AllocError>
    requires { IsDistinct nat_eq (keys all.old.items) }
    ensures distinct { IfOk result (λ _. IsDistinct nat_eq (keys all.new.items)) }
    ensures bound { IfOk result (λ _. (v : ℕ) → v < limit → bound_to all.new.items v ≡ bound_to (all.old.items ++ pairs.now) v) }
{
    for pair in pairs {
        keep(alloc, pair, limit, all)?;
    }
    Ok(())
}

// What one substitution and then another one bind, of variables below the limit.
pub(crate) fn both(
    alloc: Global,
    first: &Subst,
    second: &Subst,
    limit: u64,
) -> Result<Subst, AllocError>
    ensures { IfOk result (AreBoth first.now second.now limit) }
{
    let mut pairs = pairs_under(alloc, first.as_slice(), second)?;
    keep_all(alloc, second.as_slice(), limit, &mut pairs)?;
    Ok(Subst::new(pairs))
}
