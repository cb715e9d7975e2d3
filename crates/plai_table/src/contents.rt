//! What a table holds at its names, changed by number.
ghost use Rattle.std.specs.Prelude.{◌≡◌, ◌<◌, ◌≤◌, ◌+◌, Bool, true, false, cond, if◌then◌else◌, length, slice_get, Some, IfSome, IfNone};
ghost use Rattle.std.specs.List.{swap_remove};
ghost use Rattle.indexmap.specs.IndexMap.{spare};
ghost use Rattle.plai_table.specs.Rows.{TableRow, row_changed, with_answer, with_live, with_entry};
ghost use Rattle.plai_table.specs.Contents.{rows_in};

use indexmap::IndexMap;
use plai_domain::Key;
use std::hash::Hash;

/// What a table holds at a name.
#[derive(Drop)]
pub(crate) struct Contents<V> {
    pub(crate) answer: Option<V>,
    pub(crate) live: bool,
    pub(crate) entry: bool,
}

/// Gives the row this answer.
pub(crate) fn set_answer<V: Eq + Hash + Drop>(
    rows: &mut IndexMap<Key<V>, Contents<V>>,
    row: usize,
    answer: V,
)
    requires { row < length rows.old.entries }
    ensures rows { rows_in rows.new.entries ≡ row_changed (with_answer answer) (rows_in rows.old.entries) row }
    ensures spare { spare rows.new ≡ spare rows.old }
{
    let (_, contents) = rows.pair_mut(row);
    contents.answer = Some(answer);
}

/// Makes the row live or dormant. Whether it was live.
pub(crate) fn set_live<V: Eq + Hash + Drop>(
    rows: &mut IndexMap<Key<V>, Contents<V>>,
    row: usize,
    live: bool,
) -> bool
    requires { row < length rows.old.entries }
    ensures rows { rows_in rows.new.entries ≡ row_changed (with_live live) (rows_in rows.old.entries) row }
    ensures was { (r : TableRow V) → slice_get (rows_in rows.old.entries) row ≡ Some r → r.live ≡ result }
    ensures there { (r : TableRow V) × (slice_get (rows_in rows.old.entries) row ≡ Some r) }
    ensures spare { spare rows.new ≡ spare rows.old }
{
    let (_, contents) = rows.pair_mut(row);
    let was_live = contents.live;
    contents.live = live;
    was_live
}

/// Marks the row as an entry's, or as none's.
pub(crate) fn set_entry<V: Eq + Hash + Drop>(
    rows: &mut IndexMap<Key<V>, Contents<V>>,
    row: usize,
    entry: bool,
)
    requires { row < length rows.old.entries }
    ensures rows { rows_in rows.new.entries ≡ row_changed (with_entry entry) (rows_in rows.old.entries) row }
    ensures spare { spare rows.new ≡ spare rows.old }
{
    let (_, contents) = rows.pair_mut(row);
    contents.entry = entry;
}

/// Takes the row away, and puts the last row into its place. Whether it was live.
pub(crate) fn take_away<V: Eq + Hash + Drop>(
    rows: &mut IndexMap<Key<V>, Contents<V>>,
    row: usize,
) -> bool
    requires { row < length rows.old.entries }
    ensures rows { (r : TableRow V) → slice_get (rows_in rows.old.entries) row ≡ Some r → rows_in rows.new.entries ≡ swap_remove (rows_in rows.old.entries) row r }
    ensures was { (r : TableRow V) → slice_get (rows_in rows.old.entries) row ≡ Some r → r.live ≡ result }
    ensures there { (r : TableRow V) × (slice_get (rows_in rows.old.entries) row ≡ Some r) }
    ensures len { length rows.new.entries + 1 ≡ length rows.old.entries }
{
    let (_, contents) = rows.swap_remove_index(row).unwrap();
    contents.live
}

/// The number of live rows, of so many rows, after one more is live or as many.
pub(crate) fn with_one(count: u64, more: bool, _rows: usize) -> u64
    requires { count + (if more then 1 else 0) ≤ _rows }
    ensures { result ≡ count + (if more then 1 else 0) }
{
    if more { count + 1 } else { count }
}

/// The number of live rows after one less is live, or as many.
pub(crate) fn without_one(count: u64, less: bool) -> u64
    requires { (if less then 1 else 0) ≤ count }
    ensures { result + (if less then 1 else 0) ≡ count }
{
    if less { count - 1 } else { count }
}

/// The number that the row had which is moved into the gap of this row, where one is.
pub(crate) fn moved_from(row: u64, last: u64) -> Option<u64>
    requires { row ≤ last }
    ensures moved { IfSome result (λ from. (from ≡ last) × (row < last)) }
    ensures last { IfNone result (row ≡ last) }
{
    if row < last { Some(last) } else { None }
}
