//! Whether an edit leaves the entries, and the clauses of each row's predicate.
ghost use Rattle.std.specs.Prelude.{◌≡◌, ◌↔◌, ◌<◌, true, length};
ghost use Rattle.plai_repair.specs.Lost.{AreTouched};
ghost use Rattle.plai_repair.specs.Unchanged.{StaysAt, AreUnchanged};

use crate::equal::same_entries;
use crate::touching::keeps;
use indexmap::IndexSet;
use plai_clauses::Program;
use plai_table::Table;
use plai_terms::PredKey;
use std::hash::Hash;

/// Whether the row's predicate has the clauses that it had.
fn keeps_clauses<V: Eq + Hash + Drop>(
    table: &Table<V>,
    before: &Program,
    after: &Program,
    touched: &IndexSet<PredKey>,
    row: u64,
) -> bool
    requires row { row < length table.now.rows }
    requires touched { AreTouched before.now after.now touched.now.keys }
    ensures { (result ≡ true) ↔ StaysAt before.now after.now table.now.rows row }
{
    keeps(before, after, touched, &table.row(row).name.pred)
}

/// Whether the edit, which touches these predicates, leaves the entries, and the clauses of the predicate of each row. It takes
/// no memory. Clauses of other predicates aren't looked at.
pub fn is_quiet<V: Eq + Hash + Drop>(
    table: &Table<V>,
    before: &Program,
    after: &Program,
    touched: &IndexSet<PredKey>,
) -> bool
    requires { AreTouched before.now after.now touched.now.keys }
    ensures { (result ≡ true) ↔ AreUnchanged before.now after.now table.now.rows }
{
    let mut row: u64 = 0;
    while row < table.len() {
        if !keeps_clauses(table, before, after, touched, row) {
            return false;
        }
        row += 1;
    }
    same_entries(after.entries(), before.entries())
}
