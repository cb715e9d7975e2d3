//! Live rows that have dirty pairs, the one made last first: a called row settles before its caller is evaluated again.
ghost use Rattle.std.specs.Prelude.{◌≡◌, ◌⊎◌, ℕ, ◌&&◌, nat_eq, true, false, OnOk, IfSome, IfNone};
ghost use Rattle.std.specs.List.{list_any, Contains};
ghost use Rattle.std.specs.BinaryHeap.{heap_items};
ghost use Rattle.plai_arcs.specs.Arcs.{is_dirty};
ghost use Rattle.plai_arcs.specs.Links.{is_pair};
ghost use Rattle.plai_eval.specs.Meaning.{as_domain};
ghost use Rattle.plai_fix_laws.specs.WorkStates.{is_live, IsClean};
ghost use Rattle.plai_fix_rows.specs.Tables.{kept_rows, state_of};
ghost use Rattle.plai_fix_laws.specs.Queues.{IsQueued};

use crate::present::has_live;
use plai_arcs::Arcs;
use plai_domain::Domain;
use plai_table::Table;
use std::alloc::AllocError;
use std::collections::BinaryHeap;

/// Puts a row into the queue.
pub fn push_row(queue: &mut BinaryHeap<u64>, row: u64) -> Result<(), AllocError>
    ensures row { OnOk result (Contains (heap_items queue.new) row) }
    ensures others { OnOk result ((n : ℕ) → Contains (heap_items queue.old) n → Contains (heap_items queue.new) n) }
{
    queue.push(row)?;
    Ok(())
}

/// Puts the rows of these pairs into the queue.
pub fn push_rows(queue: &mut BinaryHeap<u64>, pairs: &[(u64, u64)]) -> Result<(), AllocError>
    ensures rows { OnOk result ((n m : ℕ) → list_any (is_pair n m) pairs.now ≡ true → Contains (heap_items queue.new) n) }
    ensures others { OnOk result ((n : ℕ) → Contains (heap_items queue.old) n → Contains (heap_items queue.new) n) }
{
    for (row, _) in pairs {
        push_row(queue, *row)?;
    }
    Ok(())
}

/// The least dirty clause of the row, where the row is live.
fn next_clause<D: Domain>(domain: &D, table: &Table<D::Value>, arcs: &Arcs, row: u64) -> Option<u64>
    ensures some { IfSome result (λ clause. is_dirty arcs.now row clause ≡ true) }
    ensures live { IfSome result (λ clause. is_live (as_domain (D.plain domain.now)) (kept_rows D.value_of (D.plain domain.now) table.now.rows) row ≡ true) }
    ensures none { IfNone result ((m : ℕ) → is_live (as_domain (D.plain domain.now)) (kept_rows D.value_of (D.plain domain.now) table.now.rows) row ≡ true
        → is_dirty arcs.now row m ≡ false) }
{
    if !has_live(domain, table, row) {
        return None;
    }
    arcs.next_dirty(row)
}

/// A dirty pair of the greatest live row that has one, the least clause of it. None exactly where no pair of a live row is dirty.
pub fn next_pair<D: Domain>(
    domain: &D,
    table: &Table<D::Value>,
    arcs: &Arcs,
    queue: &mut BinaryHeap<u64>,
) -> Option<(u64, u64)>
    requires { IsQueued (state_of D.value_of (D.plain domain.now) table.now.rows arcs.now) (heap_items queue.old) }
    ensures queued { IsQueued (state_of D.value_of (D.plain domain.now) table.now.rows arcs.now) (heap_items queue.new) }
    ensures some { IfSome result (λ pair. is_dirty arcs.now pair.0 pair.1 ≡ true) }
    ensures live { IfSome result (λ pair. is_live (as_domain (D.plain domain.now)) (kept_rows D.value_of (D.plain domain.now) table.now.rows) pair.0 ≡ true) }
    ensures none { IfNone result (IsClean (as_domain (D.plain domain.now)) (state_of D.value_of (D.plain domain.now) table.now.rows arcs.now)) }
{
    while let Some(row) = queue.peek() {
        let row = *row;
        if let Some(clause) = next_clause(domain, table, arcs, row) {
            return Some((row, clause));
        }
        queue.pop();
    }
    None
}
