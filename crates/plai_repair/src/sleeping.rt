//! Rows that are made dormant or live.
ghost use Rattle.std.specs.Prelude.{◌≡◌, ◌<◌, true, false, map};
ghost use Rattle.plai_table.specs.Rows.{row_changed, with_live};
ghost use Rattle.plai_repair.specs.Opened.{slept};

use plai_table::Table;
use std::hash::Hash;

/// Makes each row dormant and no entry's. Names and answers stay.
pub(crate) fn sleep_all<V: Eq + Hash + Drop>(table: &mut Table<V>)
    ensures { table.new.rows ≡ map slept table.old.rows }
{
    for row in 0..table.len() {
        table.sleep(row);
        table.set_entry(row, false);
    }
}

/// Makes each row live. Names, answers and marks as an entry's stay.
pub(crate) fn wake_all<V: Eq + Hash + Drop>(table: &mut Table<V>)
    ensures { table.new.rows ≡ map (with_live true) table.old.rows }
{
    for row in 0..table.len() {
        table.wake(row);
    }
}
