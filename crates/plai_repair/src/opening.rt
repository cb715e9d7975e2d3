//! How a table and its arcs are opened after an edit.
ghost use Rattle.std.specs.Prelude.{List, OnOk};
ghost use Rattle.plai_theory.specs.LeastTable.{Row};
ghost use Rattle.plai_eval.specs.Meaning.{as_domain};
ghost use Rattle.plai_repair.specs.Lost.{AreTouched};
ghost use Rattle.plai_repair.specs.Opened.{IsWholeTable, IsOpened};

use crate::gaining::mark_gained;
use crate::gathering::lost_rows;
use crate::removal::remove_rows;
use crate::sleeping::sleep_all;
use indexmap::IndexSet;
use plai_arcs::Arcs;
use plai_clauses::Program;
use plai_domain::Domain;
use plai_table::Table;
use plai_terms::PredKey;
use std::alloc::{AllocError, Global};

/// Opens the least table of the program before an edit, with its arcs, for work on the program after it. The rows from which
/// calls, of any number, none included, lead to a predicate that lost a clause are removed. The others are dormant, keep their
/// names, answers and calls, and are no entries'. The clauses that their predicates gained are dirty. After want of memory the
/// table and the arcs are of no use. The edit touches these predicates: the clauses of no other one are looked at.
pub fn open_state<D: Domain>(
    alloc: Global,
    _domain: &D,
    table: &mut Table<D::Value>,
    arcs: &mut Arcs,
    before: &Program,
    after: &Program,
    touched: &IndexSet<PredKey>,
) -> Result<(), AllocError>
    requires touched { AreTouched before.now after.now touched.now.keys }
    requires whole { (rows : List (Row (as_domain (D.plain _domain.now)))) × IsWholeTable D.value_of (D.plain _domain.now) before.now rows table.old.rows arcs.old }
    ensures { OnOk result ((rows : List (Row (as_domain (D.plain _domain.now))))
        → IsWholeTable D.value_of (D.plain _domain.now) before.now rows table.old.rows arcs.old
        → IsOpened D.value_of (D.plain _domain.now) before.now after.now rows table.new.rows arcs.new) }
{
    before.is_program();
    let marks = lost_rows(alloc, table, arcs, before, after, touched)?;
    remove_rows(table, arcs, marks.as_slice());
    sleep_all(table);
    mark_gained(alloc, table, arcs, before, after, touched)
}
