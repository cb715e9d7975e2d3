//! What a pair calls.
ghost use Rattle.std.specs.Prelude.{◌≡◌, ◌≤◌, ◌-◌, ℕ, nat_eq, OnOk, IfOk};
ghost use Rattle.std.specs.List.{list_any};
ghost use Rattle.plai_arcs.specs.Arcs.{is_call};
ghost use Rattle.plai_arcs.specs.Links.{is_pair};
ghost use Rattle.plai_eval.specs.Meaning.{as_domain};
ghost use Rattle.plai_fix_rows.specs.Tables.{state_of};
ghost use Rattle.plai_fix_laws.specs.Changes.{SetsCalls};

use plai_arcs::Arcs;
use plai_domain::Domain;
use plai_table::Table;
use std::alloc::{AllocError, Global};

/// Makes the rows that the clause, of this number from 1, of the row calls exactly these.
pub fn set_pair_calls<D: Domain>(
    alloc: Global,
    _domain: &D,
    _table: &Table<D::Value>,
    arcs: &mut Arcs,
    row: u64,
    number: u64,
    rows: &[u64],
) -> Result<(), AllocError>
    requires { 1 ≤ number }
    ensures { OnOk result (SetsCalls (as_domain (D.plain _domain.now)) (state_of D.value_of (D.plain _domain.now) _table.now.rows arcs.old)
        (state_of D.value_of (D.plain _domain.now) _table.now.rows arcs.new) row (number - 1) (λ j. list_any (nat_eq j) rows.now)) }
{
    arcs.set_calls(alloc, row, number, rows)
}

/// The pairs that call the row.
pub fn callers_of(alloc: Global, arcs: &Arcs, row: u64) -> Result<Vec<(u64, u64)>, AllocError>
    ensures { IfOk result (λ pairs. (r c : ℕ) → is_call arcs.now r c row ≡ list_any (is_pair r c) pairs.items) }
{
    Vec::from_slice(alloc, arcs.callers(row))
}
