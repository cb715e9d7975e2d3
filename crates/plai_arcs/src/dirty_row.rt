//! The dirty clauses of a row.
ghost use Rattle.std.specs.Prelude.{◌≡◌, ℕ, ◌<◌, false};
ghost use Rattle.plai_arcs.specs.Flags.{flag_at};

use crate::marks::first_marked;
use std::alloc::{AllocError, Global};

/// A mark for each clause number. No number below `first` is marked.
#[derive(Drop)]
pub(crate) struct DirtyRow {
    pub(crate) flags: Vec<bool>,
    pub(crate) first: u64,
    ghost below: { (k : ℕ) → k < first → flag_at flags.items k ≡ false },
}

impl DirtyRow {
    ghost use Rattle.std.specs.Prelude.{◌≡◌, ◌≤◌, ◌<◌, ◌&&◌, ◌||◌, ℕ, not, nat_eq, vec_len, OnOk, IsOk, IfSome, IfNone, true, false};
    ghost use Rattle.plai_arcs.specs.Flags.{flag_at};

    /// A row with no mark. It takes no memory.
    pub(crate) fn new(alloc: Global) -> DirtyRow
        ensures { (k : ℕ) → flag_at result.flags.items k ≡ false }
    {
        DirtyRow {
            flags: Vec::new(alloc),
            first: 0,
        }
    }

    /// Makes a place for the mark of this clause.
    pub(crate) fn make_room(&mut self, clause: u64) -> Result<(), AllocError>
        ensures same { (k : ℕ) → flag_at self.new.flags.items k ≡ flag_at self.old.flags.items k }
        ensures ok { OnOk result (clause < vec_len self.new.flags) }
        ensures succeeds { clause < vec_len self.old.flags → IsOk result }
    {
        while self.flags.len() as u64 <= clause {
            self.flags.push(false)?;
        }
        Ok(())
    }

    /// Marks the clause.
    pub(crate) fn mark(&mut self, clause: u64)
        requires { clause < vec_len self.old.flags }
        ensures { (k : ℕ) → flag_at self.new.flags.items k ≡ (nat_eq k clause || flag_at self.old.flags.items k) }
    {
        self.first = self.first.min(clause);
        self.flags[clause as usize] = true;
    }

    /// Takes the mark of the clause away.
    pub(crate) fn clear(&mut self, clause: u64)
        ensures { (k : ℕ) → flag_at self.new.flags.items k ≡ (not (nat_eq k clause) && flag_at self.old.flags.items k) }
    {
        if clause < self.flags.len() as u64 {
            self.flags[clause as usize] = false;
            self.first = first_marked(&self.flags, self.first);
        }
    }

    /// Whether the clause is marked.
    pub(crate) fn is_marked(&self, clause: u64) -> bool
        ensures { result ≡ flag_at self.now.flags.items clause }
    {
        if clause < self.flags.len() as u64 {
            self.flags[clause as usize]
        } else {
            false
        }
    }

    /// The least marked clause.
    pub(crate) fn least(&self) -> Option<u64>
        ensures none { IfNone result ((k : ℕ) → flag_at self.now.flags.items k ≡ false) }
        ensures some { IfSome result (λ l. flag_at self.now.flags.items l ≡ true) }
        ensures below { IfSome result (λ l. (k : ℕ) → k < l → flag_at self.now.flags.items k ≡ false) }
    {
        let first = first_marked(&self.flags, self.first);
        if first < self.flags.len() as u64 {
            Some(first)
        } else {
            None
        }
    }

    /// Takes all marks away.
    pub(crate) fn wipe(&mut self)
        ensures { (k : ℕ) → flag_at self.new.flags.items k ≡ false }
    {
        self.flags.clear();
    }
}
