//! Places in lists of entries and checks, which are in the order of their modules' names.
ghost use Rattle.std.specs.Prelude.{◌≡◌, ◌≤◌, ℕ, not, AllPairs, List, length, map};
ghost use Rattle.std.specs.Ordering.{nat_cmp, is_lt};
ghost use Rattle.std.specs.Cmp.Lexicographic.{slice_cmp};
ghost use Rattle.plai_clauses.specs.ByModule.{IsUpTo};
ghost use Rattle.plai_clauses.specs.Program.{place_behind, place_of};

use crate::check::Check;
use crate::entry::Entry;
use plai_terms::Name;
use std::cmp::Ordering;

/// What belongs to a module.
pub(crate) trait Homed {
    ghost home: { Self → List ℕ };

    /// The module's name.
    fn home(&self) -> &Name
        ensures { result.now ≡ home self.now };
}

impl Homed for Entry {
    ghost home = { λ e. e.«module» };

    fn home(&self) -> &Name {
        &self.module
    }
}

impl Homed for Check {
    ghost home = { λ c. c.«module» };

    fn home(&self) -> &Name {
        &self.module
    }
}

/// Whether the item belongs to the module of that name or to one before it.
fn is_up_to<T: Homed>(item: &T, name: &Name) -> bool
    ensures { result ≡ not (is_lt (slice_cmp nat_cmp name.now (T.home item.now))) }
{
    match name.cmp(item.home()) {
        Ordering::Less => false,
        Ordering::Equal | Ordering::Greater => true,
    }
}

/// The place before the first item of a later module, among items in the order of their modules' names.
pub(crate) fn place_behind<T: Homed>(items: &[T], name: &Name) -> usize
    requires { AllPairs (λ a b. IsUpTo (T.home a) (T.home b)) items.now }
    ensures place { result ≡ place_behind name.now (map T.home items.now) }
    ensures within { result ≤ length items.now }
{
    items.partition_point(
        |item: &T| -> bool
            ensures { result ≡ not (is_lt (slice_cmp nat_cmp name.entry.now (T.home item.now))) }
        { is_up_to(item, name) },
    )
}

/// The place of the module's item of this number, from 1, the end where there is none.
pub(crate) fn place_of<T: Homed>(items: &[T], name: &Name, number: u64) -> usize
    ensures place { result ≡ place_of name.now number (map T.home items.now) }
    ensures within { result ≤ length items.now }
{
    let mut place: usize = 0;
    let mut left = number;
    for item in items {
        if *item.home() == *name {
            if left <= 1 {
                return place;
            }
            left -= 1;
        }
        place += 1;
    }
    place
}
