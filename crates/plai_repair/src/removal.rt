//! Rows that are removed from a table and its arcs.
ghost use Rattle.std.specs.Prelude.{◌≡◌, ◌<◌, ℕ, true, false, length, get_or};
ghost use Rattle.plai_arcs.specs.Arcs.{is_dirty, is_call};
ghost use Rattle.plai_arcs.specs.Moves.{was};
ghost use Rattle.plai_repair.specs.Removal.{IsTaken, Removes};

use plai_arcs::Arcs;
use plai_table::Table;
use std::hash::Hash;

/// Takes the row out of the table and its arcs. The last row has its number then.
fn take_out<V: Eq + Hash + Drop>(table: &mut Table<V>, arcs: &mut Arcs, row: u64)
    requires { row < length table.old.rows }
    ensures { IsTaken row table.old.rows arcs.old table.new.rows arcs.new }
{
    let moved = table.remove(row);
    arcs.drop_row(row, moved);
}

/// Takes the row out where it is marked.
fn take_out_marked<V: Eq + Hash + Drop>(
    table: &mut Table<V>,
    arcs: &mut Arcs,
    row: u64,
    marked: bool,
)
    requires { row < length table.old.rows }
    ensures taken { marked ≡ true → IsTaken row table.old.rows arcs.old table.new.rows arcs.new }
    ensures rows { marked ≡ false → table.new.rows ≡ table.old.rows }
    ensures dirty { marked ≡ false → (r c : ℕ) → is_dirty arcs.new r c ≡ is_dirty arcs.old r c }
    ensures calls { marked ≡ false → (r c q : ℕ) → is_call arcs.new r c q ≡ is_call arcs.old r c q }
{
    if marked {
        take_out(table, arcs, row);
    }
}

/// Removes the marked rows, of which there are marks for all, from a table and arcs that name its rows alone. The others
/// are there, each once, with their names, answers, marks, dirty clauses and calls; their numbers may be others.
pub fn remove_rows<V: Eq + Hash + Drop>(table: &mut Table<V>, arcs: &mut Arcs, marks: &[bool])
    requires long { length marks.now ≡ length table.old.rows }
    requires dirty { (r c : ℕ) → is_dirty arcs.old r c ≡ true → r < length table.old.rows }
    requires callers { (r c q : ℕ) → is_call arcs.old r c q ≡ true → r < length table.old.rows }
    requires called { (r c q : ℕ) → is_call arcs.old r c q ≡ true → q < length table.old.rows }
    ensures { Removes marks.now 0 table.old.rows arcs.old table.new.rows arcs.new }
{
    let mut row = table.len();
    while row > 0 {
        row -= 1;
        take_out_marked(table, arcs, row, marks[row as usize]);
    }
}
