ghost use Rattle.plai_arcs.specs.Links.{AreLinked};

use crate::callers::{self, Callers};
use crate::dirty_row::DirtyRow;
use crate::row_calls::{self, RowCalls};
use crate::{dirty, links};
use std::alloc::{AllocError, Global};

/// The dirty pairs of a row and a clause of a table, and the rows that clauses call. Rows and clauses are numbers.
#[derive(Drop)]
pub struct Arcs {
    dirty: Vec<DirtyRow>,
    calls: Vec<RowCalls>,
    callers: Vec<Callers>,
    ghost linked: { AreLinked calls.items callers.items },
}

impl Arcs {
    ghost use Rattle.std.specs.Prelude.{◌≡◌, ◌<◌, ◌&&◌, ◌||◌, ℕ, List, not, cond, nat_eq, true, false, IsOk, OnOk, OnErr, IfOk, IfSome, IfNone};
    ghost use Rattle.std.specs.List.{list_any, count_by};
    ghost use Rattle.plai_arcs.specs.Arcs.{is_dirty, is_call, IsReserved};
    ghost use Rattle.plai_arcs.specs.Links.{is_pair, one_if};
    ghost use Rattle.plai_arcs.specs.Moves.{was, of_row};

    /// No pair is dirty, and none calls a row.
    pub fn new(alloc: Global) -> Result<Arcs, AllocError>
        ensures dirty { IfOk result (λ arcs. (r c : ℕ) → is_dirty arcs r c ≡ false) }
        ensures calls { IfOk result (λ arcs. (r c q : ℕ) → is_call arcs r c q ≡ false) }
    {
        Ok(Arcs {
            dirty: Vec::new(alloc),
            calls: Vec::new(alloc),
            callers: Vec::new(alloc),
        })
    }

    /// Makes room for a change of what the clause of the row calls, and for its mark. It changes no mark and no call.
    pub fn reserve(
        &mut self,
        alloc: Global,
        row: u64,
        clause: u64,
        calls: &[u64],
    ) -> Result<(), AllocError>
        ensures dirty { (r c : ℕ) → is_dirty self.new r c ≡ is_dirty self.old r c }
        ensures calls { (r c q : ℕ) → is_call self.new r c q ≡ is_call self.old r c q }
        ensures ok { OnOk result (IsReserved self.new row clause calls.now) }
    {
        dirty::make_place(alloc, &mut self.dirty, row, clause)?;
        row_calls::make_room(alloc, &mut self.calls, row, clause, calls.len())?;
        callers::make_room(alloc, &mut self.callers, calls)
    }

    /// Makes the rows that the clause of the row calls exactly these; one that stands twice counts once.
    /// After want of memory all is as before, and none comes where the change is reserved.
    pub fn set_calls(
        &mut self,
        alloc: Global,
        row: u64,
        clause: u64,
        calls: &[u64],
    ) -> Result<(), AllocError>
        ensures ok { OnOk result ((r c q : ℕ) → is_call self.new r c q ≡ cond (nat_eq r row && nat_eq c clause) (list_any (nat_eq q) calls.now) (is_call self.old r c q)) }
        ensures err { OnErr result ((r c q : ℕ) → is_call self.new r c q ≡ is_call self.old r c q) }
        ensures dirty { (r c : ℕ) → is_dirty self.new r c ≡ is_dirty self.old r c }
        ensures reserved { IsReserved self.old row clause calls.now → IsOk result }
    {
        row_calls::make_room(alloc, &mut self.calls, row, clause, calls.len())?;
        callers::make_room(alloc, &mut self.callers, calls)?;
        links::set(&mut self.calls, &mut self.callers, row, clause, calls);
        Ok(())
    }

    /// The rows that the clause of the row calls, each once.
    pub fn calls_of(&self, row: u64, clause: u64) -> &[u64]
        ensures { (q : ℕ) → count_by (nat_eq q) result.now ≡ one_if (is_call self.now row clause q) }
    {
        row_calls::list(&self.calls, row, clause)
    }

    /// The pairs of a row and a clause that call the row, each once.
    pub fn callers(&self, row: u64) -> &[(u64, u64)]
        ensures { (r c : ℕ) → count_by (is_pair r c) result.now ≡ one_if (is_call self.now r c row) }
    {
        callers::list(&self.callers, row)
    }

    /// Makes the pair dirty. After want of memory the dirty pairs are as before, and none comes where the change is reserved.
    pub fn mark_dirty(&mut self, alloc: Global, row: u64, clause: u64) -> Result<(), AllocError>
        ensures ok { OnOk result ((r c : ℕ) → is_dirty self.new r c ≡ ((nat_eq r row && nat_eq c clause) || is_dirty self.old r c)) }
        ensures err { OnErr result ((r c : ℕ) → is_dirty self.new r c ≡ is_dirty self.old r c) }
        ensures calls { (r c q : ℕ) → is_call self.new r c q ≡ is_call self.old r c q }
        ensures reserved { (calls : List ℕ) → IsReserved self.old row clause calls → IsOk result }
    {
        dirty::make_place(alloc, &mut self.dirty, row, clause)?;
        dirty::mark(&mut self.dirty, row, clause);
        Ok(())
    }

    /// Makes the pair dirty no more.
    pub fn clear_dirty(&mut self, row: u64, clause: u64)
        ensures dirty { (r c : ℕ) → is_dirty self.new r c ≡ (not (nat_eq r row && nat_eq c clause) && is_dirty self.old r c) }
        ensures calls { (r c q : ℕ) → is_call self.new r c q ≡ is_call self.old r c q }
    {
        dirty::clear(&mut self.dirty, row, clause);
    }

    /// The least dirty clause of the row. None exactly where no pair of the row is dirty.
    pub fn next_dirty(&self, row: u64) -> Option<u64>
        ensures none { IfNone result ((c : ℕ) → is_dirty self.now row c ≡ false) }
        ensures some { IfSome result (λ least. is_dirty self.now row least ≡ true) }
        ensures below { IfSome result (λ least. (c : ℕ) → c < least → is_dirty self.now row c ≡ false) }
    {
        dirty::least(&self.dirty, row)
    }

    /// Whether the pair is dirty.
    pub fn is_marked(&self, row: u64, clause: u64) -> bool
        ensures { result ≡ is_dirty self.now row clause }
    {
        dirty::is_marked(&self.dirty, row, clause)
    }

    /// Takes away each pair and each call that names the row. Then the row that is moved has its number.
    pub fn drop_row(&mut self, row: u64, moved: Option<u64>)
        requires { IfSome moved (λ last. row < last) }
        ensures dirty { (r c : ℕ) → is_dirty self.new r c ≡ of_row (was row moved r) (λ b. is_dirty self.old b c) }
        ensures calls { (r c q : ℕ) → is_call self.new r c q ≡ of_row (was row moved r) (λ b. of_row (was row moved q) (λ d. is_call self.old b c d)) }
    {
        dirty::drop_row(&mut self.dirty, row, moved);
        links::drop_row(&mut self.calls, &mut self.callers, row, moved);
    }
}
