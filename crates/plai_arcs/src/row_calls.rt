//! The rows that the clauses of a row call.
ghost use Rattle.std.specs.Prelude.{◌≡◌, ◌≤◌, ◌<◌, ◌+◌, ◌-◌, ◌&&◌, ◌++◌, ◌∷◌, ℕ, Bool, cond, nat_eq, true, false, OnOk, IsOk, [], slice_set, vec_len, length};
ghost use Rattle.std.specs.List.{count_by, swap_remove};
ghost use Rattle.plai_arcs.specs.Changes.{changed, IsFound, CanChange, room_taken};
ghost use Rattle.plai_arcs.specs.Links.{calls_in, calls_at, called_room, clause_room, call_room, HasCallRoom};
ghost use Rattle.plai_arcs.specs.Moves.{swapped};
ghost use Rattle.plai_arcs.specs.Places.{at};

use crate::change::Change;
use crate::finds::place_of_row;
use smallvec::SmallVec;
use std::alloc::{AllocError, Global};

/// The rows that a clause calls, each with the place of the clause among the callers of that row.
#[derive(Drop)]
pub(crate) struct Called {
    pub(crate) rows: SmallVec<u64, 4>,
    pub(crate) places: SmallVec<u64, 4>,
}

impl Called {
    /// No row. It takes no memory.
    fn new(alloc: Global) -> Called
        ensures { result.rows.items ≡ [] }
    {
        Called {
            rows: SmallVec::new(alloc),
            places: SmallVec::new(alloc),
        }
    }

    /// Makes room for so many more rows.
    fn make_room(&mut self, count: usize) -> Result<(), AllocError>
        ensures same { self.new.rows.items ≡ self.old.rows.items }
        ensures more { called_room self.old ≤ called_room self.new }
        ensures ok { OnOk result (count < called_room self.new) }
        ensures succeeds { count < called_room self.old → IsOk result }
    {
        self.rows.reserve(count)?;
        self.places.reserve(count)
    }

    /// Puts a row at the end.
    fn push(&mut self, row: u64, place: u64) -> u64
        requires { 1 < called_room self.old }
        ensures items { self.new.rows.items ≡ self.old.rows.items ++ row ∷ [] }
        ensures room { called_room self.old ≤ called_room self.new + 1 }
    {
        let index = self.rows.len() as u64;
        self.rows.push_reserved(row);
        self.places.push_reserved(place);
        index
    }

    /// Takes a row away, and gives the place where it was: the last one is there now.
    fn take(&mut self, row: u64, guess: u64) -> u64
        requires { 0 < count_by (nat_eq row) self.old.rows.items }
        ensures items { self.new.rows.items ≡ swap_remove self.old.rows.items result row }
        ensures found { at (nat_eq row) false self.old.rows.items result ≡ true }
        ensures room { called_room self.old ≤ called_room self.new }
    {
        let index = place_of_row(self.rows.as_slice(), row, guess);
        self.rows.swap_remove(index as usize);
        if index < self.places.len() as u64 {
            self.places.swap_remove(index as usize);
        }
        index
    }

    /// Puts another row in the place of one.
    fn rename(&mut self, row: u64, other: u64, guess: u64) -> u64
        requires { 0 < count_by (nat_eq row) self.old.rows.items }
        ensures items { self.new.rows.items ≡ slice_set self.old.rows.items result other }
        ensures found { at (nat_eq row) false self.old.rows.items result ≡ true }
        ensures room { called_room self.old ≤ called_room self.new }
    {
        let index = place_of_row(self.rows.as_slice(), row, guess);
        if let Some(found) = self.rows.get_mut(index as usize) {
            *found = other;
        }
        index
    }

    /// Writes the place of the row at an index.
    fn mark(&mut self, index: u64, place: u64) -> u64
        ensures items { self.new.rows.items ≡ self.old.rows.items }
        ensures room { called_room self.old ≤ called_room self.new }
    {
        if let Some(found) = self.places.get_mut(index as usize) {
            *found = place;
        }
        index
    }

    /// Changes the rows, and gives the index where one was taken or renamed.
    fn change(&mut self, change: Change<u64>) -> u64
        requires { CanChange nat_eq change (called_room self.old - 1) self.old.rows.items }
        ensures items { self.new.rows.items ≡ changed change result self.old.rows.items }
        ensures found { IsFound nat_eq change result self.old.rows.items }
        ensures room { called_room self.old ≤ called_room self.new + room_taken change }
    {
        match change {
            Change::Push(row, place) => self.push(row, place),
            Change::Take(row, guess) => self.take(row, guess),
            Change::Rename(row, other, guess) => self.rename(row, other, guess),
            Change::Mark(index, place) => self.mark(index, place),
        }
    }

    /// The place that stands with the row at an index.
    fn place(&self, index: u64) -> u64 {
        self.places
            .as_slice()
            .get(index as usize)
            .copied()
            .unwrap_or(0)
    }
}

/// A list of called rows for each clause number.
#[derive(Drop)]
pub(crate) struct RowCalls {
    pub(crate) clauses: Vec<Called>,
}

/// A row whose clauses call none. It takes no memory.
pub(crate) fn no_calls(alloc: Global) -> RowCalls
    ensures { result.clauses.items ≡ [] }
{
    RowCalls {
        clauses: Vec::new(alloc),
    }
}

/// Makes room for so many calls of this clause.
pub(crate) fn make_clause_room(
    alloc: Global,
    clauses: &mut Vec<Called>,
    clause: u64,
    count: usize,
) -> Result<(), AllocError>
    ensures same { (c : ℕ) → calls_in clauses.new.items c ≡ calls_in clauses.old.items c }
    ensures ok { OnOk result (count < clause_room clauses.new.items clause) }
    ensures succeeds { count < clause_room clauses.old.items clause → IsOk result }
{
    'grow: while clauses.len() as u64 <= clause {
        clauses.push(Called::new(alloc))?;
    }
    clauses[clause as usize].make_room(count)
}

/// Makes room for so many calls of this clause of the row.
pub(crate) fn make_room(
    alloc: Global,
    rows: &mut Vec<RowCalls>,
    row: u64,
    clause: u64,
    count: usize,
) -> Result<(), AllocError>
    ensures same { (r c : ℕ) → calls_at rows.new.items r c ≡ calls_at rows.old.items r c }
    ensures ok { OnOk result (HasCallRoom rows.new.items row clause count) }
    ensures succeeds { HasCallRoom rows.old.items row clause count → IsOk result }
{
    'grow: while rows.len() as u64 <= row {
        rows.push(no_calls(alloc))?;
    }
    make_clause_room(alloc, &mut rows[row as usize].clauses, clause, count)
}

/// Changes the calls of a clause, and gives the index where one was taken or renamed.
fn change_clause(clauses: &mut Vec<Called>, clause: u64, change: Change<u64>) -> u64
    requires { CanChange nat_eq change (clause_room clauses.old.items clause - 1) (calls_in clauses.old.items clause) }
    ensures items { (c : ℕ) → calls_in clauses.new.items c ≡ cond (nat_eq c clause) (changed change result (calls_in clauses.old.items c)) (calls_in clauses.old.items c) }
    ensures found { IsFound nat_eq change result (calls_in clauses.old.items clause) }
    ensures room { (c : ℕ) → clause_room clauses.old.items c ≤ clause_room clauses.new.items c + cond (nat_eq c clause) (room_taken change) 0 }
{
    if clause < clauses.len() as u64 {
        clauses[clause as usize].change(change)
    } else {
        0
    }
}

/// Changes the calls of a clause of a row, and gives the index where one was taken or renamed.
pub(crate) fn change(rows: &mut [RowCalls], row: u64, clause: u64, change: Change<u64>) -> u64
    requires { CanChange nat_eq change (call_room rows.old row clause - 1) (calls_at rows.old row clause) }
    ensures items { (r c : ℕ) → calls_at rows.new r c ≡ cond (nat_eq r row && nat_eq c clause) (changed change result (calls_at rows.old r c)) (calls_at rows.old r c) }
    ensures found { IsFound nat_eq change result (calls_at rows.old row clause) }
    ensures room { (r c : ℕ) → call_room rows.old r c ≤ call_room rows.new r c + cond (nat_eq r row && nat_eq c clause) (room_taken change) 0 }
{
    if row < rows.len() as u64 {
        change_clause(&mut rows[row as usize].clauses, clause, change)
    } else {
        0
    }
}

/// The rows that a clause calls.
fn clause_list(clauses: &[Called], clause: u64) -> &[u64]
    ensures { result.now ≡ calls_in clauses.now clause }
{
    if clause < clauses.len() as u64 {
        clauses[clause as usize].rows.as_slice()
    } else {
        &[]
    }
}

/// The rows that a clause of a row calls.
pub(crate) fn list(rows: &[RowCalls], row: u64, clause: u64) -> &[u64]
    ensures { result.now ≡ calls_at rows.now row clause }
{
    if row < rows.len() as u64 {
        clause_list(&rows[row as usize].clauses, clause)
    } else {
        &[]
    }
}

/// The place that stands with the call of a clause at an index.
fn clause_place(clauses: &[Called], clause: u64, index: u64) -> u64 {
    if clause < clauses.len() as u64 {
        clauses[clause as usize].place(index)
    } else {
        0
    }
}

/// The place that stands with the call of a clause of a row at an index.
pub(crate) fn place(rows: &[RowCalls], row: u64, clause: u64, index: u64) -> u64 {
    if row < rows.len() as u64 {
        clause_place(&rows[row as usize].clauses, clause, index)
    } else {
        0
    }
}

/// A number of clauses past which none of the row calls.
pub(crate) fn clause_count(rows: &[RowCalls], row: u64) -> u64
    ensures { (c : ℕ) → result ≤ c → calls_at rows.now row c ≡ [] }
{
    if row < rows.len() as u64 {
        rows[row as usize].clauses.len() as u64
    } else {
        0
    }
}

/// Swaps the calls of two rows, where the second has a list.
pub(crate) fn swap(rows: &mut [RowCalls], row: u64, last: u64)
    requires less { row < last }
    requires none { (c : ℕ) → calls_at rows.old row c ≡ [] }
    ensures { (r c : ℕ) → calls_at rows.new r c ≡ calls_at rows.old (swapped row last r) c }
{
    if last < rows.len() as u64 {
        rows.swap(row as usize, last as usize);
    }
}
