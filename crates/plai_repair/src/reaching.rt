//! The rows that calls reach from those of the entries.
ghost use Rattle.std.specs.Prelude.{◌≡◌, ◌<◌, ℕ, true, false, not, length, get_or, OnOk, OnErr, IfOk};
ghost use Rattle.plai_theory.specs.Words.{IsIn};
ghost use Rattle.plai_arcs.specs.Arcs.{is_dirty, is_call};
ghost use Rattle.plai_repair.specs.Gathering.{AreMarked, Gathers, Spreads, IsAmong, IsCalledTo, turned};
ghost use Rattle.plai_repair.specs.Reached.{entry_at, AreReached, AreCallsWithin, KeepsReached};

use crate::gathering::{Gathered, gather, none};
use crate::removal::remove_rows;
use crate::sleeping::wake_all;
use plai_arcs::Arcs;
use plai_clauses::Program;
use plai_table::Table;
use std::alloc::{AllocError, Global};
use std::hash::Hash;

/// Puts these rows behind the others.
fn gather_rows(gathered: &mut Gathered, rows: &[u64]) -> Result<(), AllocError>
    requires there { (j : ℕ) → IsAmong rows.now (length rows.now) j → j < length gathered.old.marks.items }
    requires marked { AreMarked gathered.old.marks.items gathered.old.rows.items }
    ensures { OnOk result (Gathers (IsAmong rows.now (length rows.now)) gathered.old.marks.items gathered.old.rows.items gathered.new.marks.items gathered.new.rows.items) }
{
    let mut place: usize = 0;
    while place < rows.len() {
        gather(gathered, rows[place])?;
        place += 1;
    }
    Ok(())
}

/// Puts the rows that the clauses from 1 to the last of the row call behind the others.
fn gather_called(
    arcs: &Arcs,
    row: u64,
    last: u64,
    gathered: &mut Gathered,
) -> Result<(), AllocError>
    requires there { (c j : ℕ) → is_call arcs.now row c j ≡ true → j < length gathered.old.marks.items }
    requires marked { AreMarked gathered.old.marks.items gathered.old.rows.items }
    ensures { OnOk result (Gathers (IsCalledTo (is_call arcs.now row) last) gathered.old.marks.items gathered.old.rows.items gathered.new.marks.items gathered.new.rows.items) }
{
    let mut clause: u64 = 0;
    while clause < last {
        clause += 1;
        gather_rows(gathered, arcs.calls_of(row, clause))?;
    }
    Ok(())
}

/// Puts the row behind the others where it is an entry's.
fn gather_entry<V: Eq + Hash + Drop>(
    table: &Table<V>,
    row: u64,
    gathered: &mut Gathered,
) -> Result<(), AllocError>
    requires there { row < length gathered.old.marks.items }
    requires row { row < length table.now.rows }
    requires marked { AreMarked gathered.old.marks.items gathered.old.rows.items }
    ensures { OnOk result (Gathers (λ j. (j ≡ row) × (entry_at table.now.rows j ≡ true)) gathered.old.marks.items gathered.old.rows.items gathered.new.marks.items gathered.new.rows.items) }
{
    if !table.row(row).entry {
        return Ok(());
    }
    gather(gathered, row)?;
    Ok(())
}

/// Puts the rows of the entries behind the others.
fn gather_entries<V: Eq + Hash + Drop>(
    table: &Table<V>,
    gathered: &mut Gathered,
) -> Result<(), AllocError>
    requires there { length gathered.old.marks.items ≡ length table.now.rows }
    requires marked { AreMarked gathered.old.marks.items gathered.old.rows.items }
    ensures { OnOk result (Gathers (λ j. entry_at table.now.rows j ≡ true) gathered.old.marks.items gathered.old.rows.items gathered.new.marks.items gathered.new.rows.items) }
{
    for row in 0..table.len() {
        gather_entry(table, row, gathered)?;
    }
    Ok(())
}

/// Puts what the gathered rows call behind them, until nothing comes.
fn spread_called<V: Eq + Hash + Drop>(
    program: &Program,
    table: &Table<V>,
    arcs: &Arcs,
    gathered: &mut Gathered,
) -> Result<(), AllocError>
    requires within { AreCallsWithin program.now table.now.rows (is_call arcs.now) }
    requires long { length gathered.old.marks.items ≡ length table.now.rows }
    requires marked { AreMarked gathered.old.marks.items gathered.old.rows.items }
    ensures { OnOk result (Spreads (λ j. IsIn j gathered.old.rows.items) (turned (is_call arcs.now)) (length gathered.old.marks.items) (length gathered.new.rows.items) gathered.new.marks.items gathered.new.rows.items) }
{
    let mut index: usize = 0;
    while index < gathered.rows.len() {
        let row = gathered.rows[index];
        let clauses = program.clauses_of(&table.row(row).name.pred);
        gather_called(arcs, row, clauses.len() as u64, gathered)?;
        index += 1;
    }
    Ok(())
}

/// A mark for each row, set exactly where calls reach the row from those of the entries.
fn reached_rows<V: Eq + Hash + Drop>(
    alloc: Global,
    program: &Program,
    table: &Table<V>,
    arcs: &Arcs,
) -> Result<Vec<bool>, AllocError>
    requires { AreCallsWithin program.now table.now.rows (is_call arcs.now) }
    ensures { IfOk result (λ marks. AreReached (entry_at table.now.rows) (is_call arcs.now) (length table.now.rows) marks.items) }
{
    let mut gathered = none(alloc, table.len() as usize)?;
    gather_entries(table, &mut gathered)?;
    spread_called(program, table, arcs, &mut gathered)?;
    Ok(gathered.marks)
}

/// Sets the marks that aren't set, and those alone.
fn turn(marks: &mut Vec<bool>)
    ensures long { length marks.new.items ≡ length marks.old.items }
    ensures turned { (n : ℕ) → n < length marks.old.items → get_or marks.new.items n false ≡ not (get_or marks.old.items n false) }
{
    let mut place: usize = 0;
    while place < marks.len() {
        marks[place] = !marks[place];
        place += 1;
    }
}

/// Keeps the rows that calls reach from those of the entries, and removes the others. A kept row is live; its name, its answer
/// and its mark as an entry's stay, with its calls and its dirty clauses. After want of memory all is as before.
pub fn keep_reachable<V: Eq + Hash + Drop>(
    alloc: Global,
    program: &Program,
    table: &mut Table<V>,
    arcs: &mut Arcs,
) -> Result<(), AllocError>
    requires calls { AreCallsWithin program.now table.old.rows (is_call arcs.old) }
    requires dirty { (r c : ℕ) → is_dirty arcs.old r c ≡ true → r < length table.old.rows }
    ensures ok { OnOk result (KeepsReached table.old.rows arcs.old table.new.rows arcs.new) }
    ensures rows { OnErr result (table.new.rows ≡ table.old.rows) }
    ensures dirty { OnErr result ((r c : ℕ) → is_dirty arcs.new r c ≡ is_dirty arcs.old r c) }
    ensures calls { OnErr result ((r c q : ℕ) → is_call arcs.new r c q ≡ is_call arcs.old r c q) }
{
    let mut marks = reached_rows(alloc, program, table, arcs)?;
    turn(&mut marks);
    remove_rows(table, arcs, marks.as_slice());
    wake_all(table);
    Ok(())
}
