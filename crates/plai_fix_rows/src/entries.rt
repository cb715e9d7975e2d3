//! The rows of a program's entries.
ghost use Rattle.std.specs.Prelude.{◌≡◌, ◌⊎◌, ℕ, ◌≤◌, ◌<◌, ◌++◌, [], ◌∷◌, Bool, true, false, List, Option, map, length, IfOk, OnOk, OnErr};
ghost use Rattle.std.specs.BinaryHeap.{heap_items};
ghost use Rattle.plai_theory.specs.Domain.{Name};
ghost use Rattle.plai_theory.specs.Words.{IsIn};
ghost use Rattle.plai_terms.specs.declared.abs.Abs.{Abs};
ghost use Rattle.plai_terms.specs.declared.pred_key.PredKey.{PredKey};
ghost use Rattle.plai_domain.specs.declared.work.WorkEntry.{WorkEntry};
ghost use Rattle.plai_clauses.specs.WellFormed.{IsWellFormed};
ghost use Rattle.plai_arcs.specs.Arcs.{is_dirty};
ghost use Rattle.plai_eval.specs.Meaning.{as_domain, as_program};
ghost use Rattle.plai_fix_laws.specs.WorkStates.{Extends, IsNamed, kept_live, AreOfRows, HasLiveRow, AreOpened};
ghost use Rattle.plai_fix_rows.specs.Tables.{key_name, kept_rows, state_of};
ghost use Rattle.plai_fix_laws.specs.Queues.{IsQueued};
ghost use Rattle.plai_fix_rows.specs.Told.{Origin, HasLegalLog};
ghost use Rattle.plai_fix_rows.specs.Solving.{IsAtWork, Places, GoesOn};
ghost use Rattle.plai_fix_rows.specs.Marks.{AreMarkedAs};

use crate::meeting::meet_entry;
use crate::placing::place;
use crate::task::Task;
use plai_arcs::Arcs;
use plai_domain::{Domain, Key, Work};
use plai_table::Table;
use std::alloc::AllocError;
use std::collections::BinaryHeap;

/// The names that the entries ask for.
pub fn entry_keys<D: Domain>(task: &Task<D>) -> Result<Vec<Key<D::Value>>, AllocError>
    requires { IsWellFormed task.now.program.now }
    ensures { IfOk result (λ keys. map (key_name D.value_of) keys.items ≡ (as_program (D.plain task.now.domain.now) task.now.program.now).entries) }
{
    let mut keys = Vec::new(task.alloc);
    for entry in task.program.entries() {
        let pred = entry.pred.copy(task.alloc)?;
        let call = task
            .domain
            .describe(task.alloc, pred.arity, entry.pre.as_slice())?;
        keys.push(Key { pred, call })?;
    }
    Ok(keys)
}

/// Places the name of an entry: it has a live row then, with all that it calls, or the limit of live rows is met.
fn place_entry<D: Domain, W: Work>(
    task: &Task<D>,
    table: &mut Table<D::Value>,
    arcs: &mut Arcs,
    unmet: &mut Arcs,
    queue: &mut BinaryHeap<u64>,
    key: Key<D::Value>,
    work: &mut W,
) -> Result<(), AllocError>
    requires well_formed { IsWellFormed task.now.program.now }
    requires entry { IsIn (key_name D.value_of key) (as_program (D.plain task.now.domain.now) task.now.program.now).entries }
    requires of_rows { AreOfRows (state_of D.value_of (D.plain task.now.domain.now) table.old.rows arcs.old) }
    ensures at_work { OnOk result (GoesOn (D.plain task.now.domain.now) task.now.program.now task.now.limit
        (W.entries work.old) (state_of D.value_of (D.plain task.now.domain.now) table.old.rows arcs.old) (is_dirty unmet.old)
        (W.entries work.new) (state_of D.value_of (D.plain task.now.domain.now) table.new.rows arcs.new) (is_dirty unmet.new)) }
    ensures told { OnErr result ((begun : Origin) (cost : ℕ)
        → IsAtWork (D.plain task.now.domain.now) task.now.program.now task.now.limit begun (W.entries work.old) cost
        (state_of D.value_of (D.plain task.now.domain.now) table.old.rows arcs.old) (is_dirty unmet.old)
        → HasLegalLog (D.plain task.now.domain.now) task.now.program.now task.now.limit begun (W.entries work.new)) }
    ensures of_rows { OnOk result (AreOfRows (state_of D.value_of (D.plain task.now.domain.now) table.new.rows arcs.new)) }
    ensures live { OnOk result (HasLiveRow (as_domain (D.plain task.now.domain.now)) (kept_rows D.value_of (D.plain task.now.domain.now) table.new.rows) (key_name D.value_of key)
        ⊎ (task.now.limit ≤ kept_live (as_domain (D.plain task.now.domain.now)) (kept_rows D.value_of (D.plain task.now.domain.now) table.new.rows))) }
    ensures extends { OnOk result (Extends (as_domain (D.plain task.now.domain.now)) (kept_rows D.value_of (D.plain task.now.domain.now) table.old.rows) (kept_rows D.value_of (D.plain task.now.domain.now) table.new.rows)) }
    ensures queued { IsQueued (state_of D.value_of (D.plain task.now.domain.now) table.old.rows arcs.old) (heap_items queue.old) → OnOk result (IsQueued (state_of D.value_of (D.plain task.now.domain.now) table.new.rows arcs.new) (heap_items queue.new)) }
{
    match place(task, table, arcs, queue, key, work)? {
        Some(row) => meet_entry(task, table, arcs, unmet, queue, row, work),
        None => Ok(()),
    }
}

/// Places the names of entries, the last first: each has a live row, or the limit of live rows is met.
pub fn place_entries<D: Domain, W: Work>(
    task: &Task<D>,
    table: &mut Table<D::Value>,
    arcs: &mut Arcs,
    unmet: &mut Arcs,
    queue: &mut BinaryHeap<u64>,
    keys: Vec<Key<D::Value>>,
    work: &mut W,
) -> Result<(), AllocError>
    requires well_formed { IsWellFormed task.now.program.now }
    requires keys { map (key_name D.value_of) keys.items ≡ (as_program (D.plain task.now.domain.now) task.now.program.now).entries }
    requires of_rows { AreOfRows (state_of D.value_of (D.plain task.now.domain.now) table.old.rows arcs.old) }
    ensures at_work { OnOk result (GoesOn (D.plain task.now.domain.now) task.now.program.now task.now.limit
        (W.entries work.old) (state_of D.value_of (D.plain task.now.domain.now) table.old.rows arcs.old) (is_dirty unmet.old)
        (W.entries work.new) (state_of D.value_of (D.plain task.now.domain.now) table.new.rows arcs.new) (is_dirty unmet.new)) }
    ensures told { OnErr result ((begun : Origin) (cost : ℕ)
        → IsAtWork (D.plain task.now.domain.now) task.now.program.now task.now.limit begun (W.entries work.old) cost
        (state_of D.value_of (D.plain task.now.domain.now) table.old.rows arcs.old) (is_dirty unmet.old)
        → HasLegalLog (D.plain task.now.domain.now) task.now.program.now task.now.limit begun (W.entries work.new)) }
    ensures opened { OnOk result (AreOpened (as_domain (D.plain task.now.domain.now))
        (as_program (D.plain task.now.domain.now) task.now.program.now) task.now.limit (kept_rows D.value_of (D.plain task.now.domain.now) table.new.rows)) }
    ensures queued { IsQueued (state_of D.value_of (D.plain task.now.domain.now) table.old.rows arcs.old) (heap_items queue.old) → OnOk result (IsQueued (state_of D.value_of (D.plain task.now.domain.now) table.new.rows arcs.new) (heap_items queue.new)) }
{
    let mut keys = keys;
    while let Some(key) = keys.pop() {
        place_entry(task, table, arcs, unmet, queue, key, work)?;
    }
    Ok(())
}

/// Marks no row as an entry's.
fn clear_marks<D: Domain>(_domain: &D, table: &mut Table<D::Value>)
    ensures same { kept_rows D.value_of (D.plain _domain.now) table.new.rows ≡ kept_rows D.value_of (D.plain _domain.now) table.old.rows }
    ensures marked { AreMarkedAs D.value_of [] table.new.rows }
{
    for row in 0..table.len() {
        table.set_entry(row, false);
    }
}

/// Marks the row of the name as an entry's. Whether it has one that is live.
fn mark_entry<D: Domain>(_domain: &D, table: &mut Table<D::Value>, key: &Key<D::Value>) -> bool
    requires { (i j : ℕ) (y : Name PredKey Abs) → IsNamed (as_domain (D.plain _domain.now)) (kept_rows D.value_of (D.plain _domain.now) table.old.rows) i y
        → IsNamed (as_domain (D.plain _domain.now)) (kept_rows D.value_of (D.plain _domain.now) table.old.rows) j y → i ≡ j }
    ensures same { kept_rows D.value_of (D.plain _domain.now) table.new.rows ≡ kept_rows D.value_of (D.plain _domain.now) table.old.rows }
    ensures marked { (names : List (Name PredKey Abs)) → AreMarkedAs D.value_of names table.old.rows
        → AreMarkedAs D.value_of (names ++ key_name D.value_of key.now ∷ []) table.new.rows }
    ensures found { result ≡ true → HasLiveRow (as_domain (D.plain _domain.now)) (kept_rows D.value_of (D.plain _domain.now) table.old.rows)
        (key_name D.value_of key.now) }
    ensures absent { result ≡ false → HasLiveRow (as_domain (D.plain _domain.now)) (kept_rows D.value_of (D.plain _domain.now) table.old.rows)
        (key_name D.value_of key.now) → ⊥ }
{
    match table.find(key) {
        Some(row) => {
            let live = table.row(row).live;
            table.set_entry(row, true);
            live
        }
        None => false,
    }
}

/// Marks the rows of these names as an entry's, and no other. Whether each name has a live row.
pub fn mark_entries<D: Domain>(
    domain: &D,
    table: &mut Table<D::Value>,
    keys: &[Key<D::Value>],
) -> bool
    requires { (i j : ℕ) (y : Name PredKey Abs) → IsNamed (as_domain (D.plain domain.now)) (kept_rows D.value_of (D.plain domain.now) table.old.rows) i y
        → IsNamed (as_domain (D.plain domain.now)) (kept_rows D.value_of (D.plain domain.now) table.old.rows) j y → i ≡ j }
    ensures same { kept_rows D.value_of (D.plain domain.now) table.new.rows ≡ kept_rows D.value_of (D.plain domain.now) table.old.rows }
    ensures marked { AreMarkedAs D.value_of (map (key_name D.value_of) keys.now) table.new.rows }
    ensures found { result ≡ true → (x : Name PredKey Abs) → IsIn x (map (key_name D.value_of) keys.now)
        → HasLiveRow (as_domain (D.plain domain.now)) (kept_rows D.value_of (D.plain domain.now) table.old.rows) x }
    ensures absent { result ≡ false → (x : Name PredKey Abs) × IsIn x (map (key_name D.value_of) keys.now)
        × (HasLiveRow (as_domain (D.plain domain.now)) (kept_rows D.value_of (D.plain domain.now) table.old.rows) x → ⊥) }
{
    clear_marks(domain, table);
    let mut all = true;
    for key in keys {
        let found = mark_entry(domain, table, key);
        all = all & found;
    }
    all
}
