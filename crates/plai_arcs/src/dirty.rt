//! The dirty clauses of all rows.
ghost use Rattle.std.specs.Prelude.{◌≡◌, ◌<◌, ℕ, ◌&&◌, ◌||◌, cond, not, nat_eq, true, false, OnOk, IsOk, IfSome, IfNone};
ghost use Rattle.plai_arcs.specs.Dirty.{dirty_at, HasPlace};
ghost use Rattle.plai_arcs.specs.Moves.{swapped, was, of_row};

use crate::dirty_row::DirtyRow;
use std::alloc::{AllocError, Global};

/// Makes a place for the mark of this clause of the row.
pub(crate) fn make_place(
    alloc: Global,
    rows: &mut Vec<DirtyRow>,
    row: u64,
    clause: u64,
) -> Result<(), AllocError>
    ensures same { (r c : ℕ) → dirty_at rows.new.items r c ≡ dirty_at rows.old.items r c }
    ensures ok { OnOk result (HasPlace rows.new.items row clause) }
    ensures succeeds { HasPlace rows.old.items row clause → IsOk result }
{
    'grow: while rows.len() as u64 <= row {
        rows.push(DirtyRow::new(alloc))?;
    }
    rows[row as usize].make_room(clause)
}

/// Marks the clause of the row.
pub(crate) fn mark(rows: &mut [DirtyRow], row: u64, clause: u64)
    requires { HasPlace rows.old row clause }
    ensures { (r c : ℕ) → dirty_at rows.new r c ≡ ((nat_eq r row && nat_eq c clause) || dirty_at rows.old r c) }
{
    if row < rows.len() as u64 {
        rows[row as usize].mark(clause);
    }
}

/// Takes the mark of the clause of the row away.
pub(crate) fn clear(rows: &mut [DirtyRow], row: u64, clause: u64)
    ensures { (r c : ℕ) → dirty_at rows.new r c ≡ (not (nat_eq r row && nat_eq c clause) && dirty_at rows.old r c) }
{
    if row < rows.len() as u64 {
        rows[row as usize].clear(clause);
    }
}

/// Whether the clause of the row is marked.
pub(crate) fn is_marked(rows: &[DirtyRow], row: u64, clause: u64) -> bool
    ensures { result ≡ dirty_at rows.now row clause }
{
    if row < rows.len() as u64 {
        rows[row as usize].is_marked(clause)
    } else {
        false
    }
}

/// The least marked clause of the row.
pub(crate) fn least(rows: &[DirtyRow], row: u64) -> Option<u64>
    ensures none { IfNone result ((c : ℕ) → dirty_at rows.now row c ≡ false) }
    ensures some { IfSome result (λ l. dirty_at rows.now row l ≡ true) }
    ensures below { IfSome result (λ l. (c : ℕ) → c < l → dirty_at rows.now row c ≡ false) }
{
    if row < rows.len() as u64 {
        rows[row as usize].least()
    } else {
        None
    }
}

/// Takes all marks of the row away.
fn wipe(rows: &mut [DirtyRow], row: u64)
    ensures { (r c : ℕ) → dirty_at rows.new r c ≡ cond (nat_eq r row) false (dirty_at rows.old r c) }
{
    if row < rows.len() as u64 {
        rows[row as usize].wipe();
    }
}

/// Swaps the marks of a row that has none and of a later one.
fn swap(rows: &mut [DirtyRow], row: u64, last: u64)
    requires less { row < last }
    requires none { (c : ℕ) → dirty_at rows.old row c ≡ false }
    ensures { (r c : ℕ) → dirty_at rows.new r c ≡ dirty_at rows.old (swapped row last r) c }
{
    if last < rows.len() as u64 {
        rows.swap(row as usize, last as usize);
    }
}

/// Takes all marks of the row away. Then the row that is moved has its number.
pub(crate) fn drop_row(rows: &mut [DirtyRow], row: u64, moved: Option<u64>)
    requires { IfSome moved (λ last. row < last) }
    ensures { (r c : ℕ) → dirty_at rows.new r c ≡ of_row (was row moved r) (λ b. dirty_at rows.old b c) }
{
    wipe(rows, row);
    if let Some(last) = moved {
        swap(rows, row, last);
    }
}
