//! The pairs that call a row.
ghost use Rattle.std.specs.Prelude.{◌≡◌, ◌≤◌, ◌<◌, ◌+◌, ◌&&◌, ◌++◌, ◌∷◌, ℕ, Bool, cond, nat_eq, true, false, OnOk, IsOk, [], slice_set, vec_len};
ghost use Rattle.std.specs.List.{list_any, count_by, swap_remove};
ghost use Rattle.plai_arcs.specs.Changes.{changed, IsFound, CanChange, room_taken};
ghost use Rattle.plai_arcs.specs.Links.{is_pair, callers_at, callers_room, caller_room};
ghost use Rattle.plai_arcs.specs.Moves.{swapped};
ghost use Rattle.plai_arcs.specs.Places.{at};

use crate::change::Change;
use crate::finds::place_of_pair;
use smallvec::SmallVec;
use std::alloc::{AllocError, Global};

/// The pairs of a row and a clause that call a row, each with the index of that call among the calls of the pair.
#[derive(Drop)]
pub(crate) struct Callers {
    pub(crate) pairs: SmallVec<(u64, u64), 4>,
    pub(crate) indexes: SmallVec<u64, 4>,
}

impl Callers {
    /// No pair. It takes no memory.
    fn new(alloc: Global) -> Callers
        ensures { result.pairs.items ≡ [] }
    {
        Callers {
            pairs: SmallVec::new(alloc),
            indexes: SmallVec::new(alloc),
        }
    }

    /// Makes room for one more pair.
    fn make_room(&mut self) -> Result<(), AllocError>
        ensures same { self.new.pairs.items ≡ self.old.pairs.items }
        ensures more { callers_room self.old ≤ callers_room self.new }
        ensures ok { OnOk result (0 < callers_room self.new) }
        ensures succeeds { 0 < callers_room self.old → IsOk result }
    {
        self.pairs.reserve(1)?;
        self.indexes.reserve(1)
    }

    /// Puts a pair at the end.
    fn push(&mut self, pair: (u64, u64), index: u64) -> u64
        requires { 0 < callers_room self.old }
        ensures items { self.new.pairs.items ≡ self.old.pairs.items ++ pair ∷ [] }
        ensures room { callers_room self.old ≤ callers_room self.new + 1 }
    {
        let place = self.pairs.len() as u64;
        self.pairs.push_reserved(pair);
        self.indexes.push_reserved(index);
        place
    }

    /// Takes a pair away, and gives the place where it was: the last one is there now.
    fn take(&mut self, pair: (u64, u64), guess: u64) -> u64
        requires { 0 < count_by (is_pair pair.0 pair.1) self.old.pairs.items }
        ensures items { self.new.pairs.items ≡ swap_remove self.old.pairs.items result pair }
        ensures found { at (is_pair pair.0 pair.1) false self.old.pairs.items result ≡ true }
        ensures room { callers_room self.old ≤ callers_room self.new }
    {
        let place = place_of_pair(self.pairs.as_slice(), pair, guess);
        self.pairs.swap_remove(place as usize);
        if place < self.indexes.len() as u64 {
            self.indexes.swap_remove(place as usize);
        }
        place
    }

    /// Puts another pair in the place of one.
    fn rename(&mut self, pair: (u64, u64), other: (u64, u64), guess: u64) -> u64
        requires { 0 < count_by (is_pair pair.0 pair.1) self.old.pairs.items }
        ensures items { self.new.pairs.items ≡ slice_set self.old.pairs.items result other }
        ensures found { at (is_pair pair.0 pair.1) false self.old.pairs.items result ≡ true }
        ensures room { callers_room self.old ≤ callers_room self.new }
    {
        let place = place_of_pair(self.pairs.as_slice(), pair, guess);
        if let Some(found) = self.pairs.get_mut(place as usize) {
            *found = other;
        }
        place
    }

    /// Writes the index of the pair at a place.
    fn mark(&mut self, place: u64, index: u64) -> u64
        ensures items { self.new.pairs.items ≡ self.old.pairs.items }
        ensures room { callers_room self.old ≤ callers_room self.new }
    {
        if let Some(found) = self.indexes.get_mut(place as usize) {
            *found = index;
        }
        place
    }

    /// Changes the pairs, and gives the place where one was taken or renamed.
    fn change(&mut self, change: Change<(u64, u64)>) -> u64
        requires { CanChange (λ p. is_pair p.0 p.1) change (callers_room self.old) self.old.pairs.items }
        ensures items { self.new.pairs.items ≡ changed change result self.old.pairs.items }
        ensures found { IsFound (λ p. is_pair p.0 p.1) change result self.old.pairs.items }
        ensures room { callers_room self.old ≤ callers_room self.new + room_taken change }
    {
        match change {
            Change::Push(pair, index) => self.push(pair, index),
            Change::Take(pair, guess) => self.take(pair, guess),
            Change::Rename(pair, other, guess) => self.rename(pair, other, guess),
            Change::Mark(place, index) => self.mark(place, index),
        }
    }

    /// The index that stands with the pair at a place.
    fn index(&self, place: u64) -> u64 {
        self.indexes
            .as_slice()
            .get(place as usize)
            .copied()
            .unwrap_or(0)
    }
}

/// Makes room for one more caller of a row.
fn make_one_room(alloc: Global, callers: &mut Vec<Callers>, row: u64) -> Result<(), AllocError>
    ensures same { (q : ℕ) → callers_at callers.new.items q ≡ callers_at callers.old.items q }
    ensures more { (q : ℕ) → caller_room callers.old.items q ≤ caller_room callers.new.items q }
    ensures ok { OnOk result (0 < caller_room callers.new.items row) }
    ensures succeeds { 0 < caller_room callers.old.items row → IsOk result }
{
    'grow: while callers.len() as u64 <= row {
        callers.push(Callers::new(alloc))?;
    }
    callers[row as usize].make_room()
}

/// Makes room for one more caller of each of these rows.
pub(crate) fn make_room(
    alloc: Global,
    callers: &mut Vec<Callers>,
    called: &[u64],
) -> Result<(), AllocError>
    ensures same { (q : ℕ) → callers_at callers.new.items q ≡ callers_at callers.old.items q }
    ensures more { (q : ℕ) → caller_room callers.old.items q ≤ caller_room callers.new.items q }
    ensures ok { OnOk result ((q : ℕ) → list_any (nat_eq q) called.now ≡ true → 0 < caller_room callers.new.items q) }
    ensures succeeds { ((q : ℕ) → list_any (nat_eq q) called.now ≡ true → 0 < caller_room callers.old.items q) → IsOk result }
{
    'each: for row in called {
        make_one_room(alloc, callers, *row)?;
    }
    Ok(())
}

/// Changes the callers of a row, and gives the place where one was taken or renamed.
pub(crate) fn change(callers: &mut [Callers], row: u64, change: Change<(u64, u64)>) -> u64
    requires { CanChange (λ p. is_pair p.0 p.1) change (caller_room callers.old row) (callers_at callers.old row) }
    ensures items { (q : ℕ) → callers_at callers.new q ≡ cond (nat_eq q row) (changed change result (callers_at callers.old q)) (callers_at callers.old q) }
    ensures found { IsFound (λ p. is_pair p.0 p.1) change result (callers_at callers.old row) }
    ensures room { (q : ℕ) → caller_room callers.old q ≤ caller_room callers.new q + cond (nat_eq q row) (room_taken change) 0 }
{
    if row < callers.len() as u64 {
        callers[row as usize].change(change)
    } else {
        0
    }
}

/// The callers of a row.
pub(crate) fn list(callers: &[Callers], row: u64) -> &[(u64, u64)]
    ensures { result.now ≡ callers_at callers.now row }
{
    if row < callers.len() as u64 {
        callers[row as usize].pairs.as_slice()
    } else {
        &[]
    }
}

/// The index that stands with the caller of a row at a place.
pub(crate) fn index(callers: &[Callers], row: u64, place: u64) -> u64 {
    if row < callers.len() as u64 {
        callers[row as usize].index(place)
    } else {
        0
    }
}

/// Swaps the callers of two rows, where the second has a list.
pub(crate) fn swap(callers: &mut [Callers], row: u64, last: u64)
    requires less { row < last }
    requires none { callers_at callers.old row ≡ [] }
    ensures { (q : ℕ) → callers_at callers.new q ≡ callers_at callers.old (swapped row last q) }
{
    if last < callers.len() as u64 {
        callers.swap(row as usize, last as usize);
    }
}
