//! Pairs of a row and a clause that are to be evaluated.
ghost use Rattle.std.specs.Prelude.{◌≡◌, ℕ, ◌&&◌, ◌||◌, nat_eq, OnOk};
ghost use Rattle.std.specs.List.{list_any};
ghost use Rattle.plai_arcs.specs.Arcs.{is_dirty, is_call};
ghost use Rattle.plai_arcs.specs.Links.{is_pair};
ghost use Rattle.plai_fix_rows.specs.Marks.{is_number};

use plai_arcs::Arcs;
use std::alloc::{AllocError, Global};

/// Makes each of these pairs dirty, as the callers of a row whose answer grew.
pub fn mark_pairs(alloc: Global, arcs: &mut Arcs, pairs: &[(u64, u64)]) -> Result<(), AllocError>
    ensures dirty { OnOk result ((r c : ℕ) → is_dirty arcs.new r c ≡ (list_any (is_pair r c) pairs.now || is_dirty arcs.old r c)) }
    ensures calls { OnOk result ((r c q : ℕ) → is_call arcs.new r c q ≡ is_call arcs.old r c q) }
{
    for (row, clause) in pairs {
        arcs.mark_dirty(alloc, *row, *clause)?;
    }
    Ok(())
}

/// Makes the clauses from 1 to this number of the row dirty, as those of a new row.
pub fn mark_clauses(alloc: Global, arcs: &mut Arcs, row: u64, last: u64) -> Result<(), AllocError>
    ensures dirty { OnOk result ((r c : ℕ) → is_dirty arcs.new r c ≡ ((nat_eq r row && is_number last c) || is_dirty arcs.old r c)) }
    ensures calls { OnOk result ((r c q : ℕ) → is_call arcs.new r c q ≡ is_call arcs.old r c q) }
{
    let mut clause: u64 = 0;
    while clause < last {
        clause += 1;
        arcs.mark_dirty(alloc, row, clause)?;
    }
    Ok(())
}
