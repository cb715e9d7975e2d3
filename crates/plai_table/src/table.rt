use crate::add_fail::AddFail;
use crate::contents::{
    Contents, moved_from, set_answer, set_entry, set_live, take_away, with_one, without_one,
};
use crate::row::Row;
use indexmap::IndexMap;
use plai_domain::Key;
use std::alloc::{AllocError, Global};
use std::hash::Hash;
use std::marker::Model;

/// Rows, numbered from 0, whose names are distinct. Contracts see the list of rows, and how many more fit for sure.
#[derive(Drop)]
pub struct Table<V: Eq + Hash + Drop> {
    rows: IndexMap<Key<V>, Contents<V>>,
    live: u64,
}

impl<V: Eq + Hash + Drop> Model for Table<V> {
    ghost use Rattle.std.specs.Prelude.{◌≡◌};
    ghost use Rattle.plai_table.specs.Rows.{TableView, live_count};
    ghost use Rattle.plai_table.specs.Contents.{view_of, rows_in};

    ghost Value = { TableView V };

    ghost view = { λ t. view_of t.rows };

    ghost invariant = { λ t. t.live ≡ live_count (rows_in t.rows.entries) };
}

impl<V: Eq + Hash + Drop> Table<V> {
    ghost use Rattle.std.specs.Prelude.{◌≡◌, ◌<◌, ◌≤◌, ◌+◌, ◌^◌, ◌↔◌, ◌++◌, [], ◌∷◌, Some, None, length, slice_get, position, IfOk, OnOk, OnErr, IsErrOf, IfSome, IfNone, true, false};
    ghost use Rattle.std.specs.List.{swap_remove};
    ghost use Rattle.std.specs.Option.{option_copied};
    ghost use Rattle.plai_table.specs.declared.add_fail.AddFail.TheVariants.{Memory, Full};
    ghost use Rattle.plai_table.specs.Rows.{names_of, HaveDistinctNames, new_row, row_changed, with_answer, with_live, with_entry, live_count, TableRow};

    /// A table with no row.
    pub fn new(alloc: Global) -> Result<Table<V>, AllocError>
        ensures { IfOk result (λ table. table.rows ≡ []) }
    {
        Ok(Table {
            rows: IndexMap::new(alloc),
            live: 0,
        })
    }

    /// Makes room for so many further rows.
    pub fn reserve(&mut self, _alloc: Global, rows: u64) -> Result<(), AllocError>
        ensures rows { self.new.rows ≡ self.old.rows }
        ensures ok { OnOk result (rows ≤ self.new.spare) }
        ensures spare { self.old.spare ≤ self.new.spare }
    {
        self.rows.reserve(rows as usize)
    }

    /// The number of the row with this name. None exactly where no row has it.
    pub fn find(&self, name: &Key<V>) -> Option<u64>
        ensures { result ≡ position (⟦<Key<V> as PartialEq>⟧.eq name.now) (names_of self.now.rows) }
    {
        match self.rows.get_index_of(name) {
            Some(row) => Some(row as u64),
            None => None,
        }
    }

    /// Adds a live row of this name, which no row has, with no answer and no entry's. `Full` exactly where the live rows
    /// are `limit` or more. `Memory` comes only where the spare is 0. After a refusal the rows are as before.
    pub fn add(&mut self, _alloc: Global, name: Key<V>, limit: u64) -> Result<u64, AddFail>
        requires { position (⟦<Key<V> as PartialEq>⟧.eq name) (names_of self.old.rows) ≡ None }
        ensures ok { IfOk result (λ row. (row ≡ length self.old.rows) × (self.new.rows ≡ self.old.rows ++ new_row name ∷ [])) }
        ensures full { IsErrOf result Full ↔ (limit ≤ live_count self.old.rows) }
        ensures memory { IsErrOf result Memory → self.old.spare ≡ 0 }
        ensures err { OnErr result (self.new.rows ≡ self.old.rows) }
        ensures spare { self.old.spare ≤ self.new.spare + 1 }
        ensures refused { OnErr result (self.old.spare ≤ self.new.spare) }
    {
        if self.live >= limit {
            return Err(AddFail::Full);
        }
        let row = self.rows.len();
        let contents = Contents {
            answer: None,
            live: true,
            entry: false,
        };
        if self.rows.insert(name, contents).is_err() {
            return Err(AddFail::Memory);
        }
        self.live += 1;
        Ok(row as u64)
    }

    /// Gives the row this answer.
    pub fn raise(&mut self, row: u64, answer: V)
        requires { row < length self.old.rows }
        ensures rows { self.new.rows ≡ row_changed (with_answer answer) self.old.rows row }
        ensures spare { self.new.spare ≡ self.old.spare }
    {
        set_answer(&mut self.rows, row as usize, answer);
    }

    /// Makes the row live.
    pub fn wake(&mut self, row: u64)
        requires { row < length self.old.rows }
        ensures rows { self.new.rows ≡ row_changed (with_live true) self.old.rows row }
        ensures spare { self.new.spare ≡ self.old.spare }
    {
        let was_live = set_live(&mut self.rows, row as usize, true);
        self.live = with_one(self.live, !was_live, self.rows.len());
    }

    /// Makes the row dormant.
    pub fn sleep(&mut self, row: u64)
        requires { row < length self.old.rows }
        ensures rows { self.new.rows ≡ row_changed (with_live false) self.old.rows row }
        ensures spare { self.new.spare ≡ self.old.spare }
    {
        let was_live = set_live(&mut self.rows, row as usize, false);
        self.live = without_one(self.live, was_live);
    }

    /// Marks the row as an entry's, or as none's.
    pub fn set_entry(&mut self, row: u64, entry: bool)
        requires { row < length self.old.rows }
        ensures rows { self.new.rows ≡ row_changed (with_entry entry) self.old.rows row }
        ensures spare { self.new.spare ≡ self.old.spare }
    {
        set_entry(&mut self.rows, row as usize, entry);
    }

    /// How many rows there are. Their names are distinct.
    pub fn len(&self) -> u64
        ensures len { result ≡ length self.now.rows }
        ensures distinct { HaveDistinctNames (⟦<Key<V> as PartialEq>⟧.eq) self.now.rows }
        ensures small { result < 2 ^ 63 }
    {
        self.rows.len() as u64
    }

    /// The row of this number.
    pub fn row(&self, row: u64) -> Row<'_, V>
        requires { row < length self.now.rows }
        ensures { slice_get self.now.rows row ≡ Some (record { name = result.name.now; answer = option_copied result.answer; live = result.live; entry = result.entry }) }
    {
        let (name, contents) = self.rows.get_index(row as usize).unwrap();
        Row {
            name,
            answer: contents.answer.as_ref(),
            live: contents.live,
            entry: contents.entry,
        }
    }

    /// How many rows are live.
    pub fn live(&self) -> u64
        ensures { result ≡ live_count self.now.rows }
    {
        self.live
    }

    /// Takes the row away, and puts the last row into its place. It gives the last row's old number, and none exactly
    /// where the removed row was the last.
    pub fn remove(&mut self, row: u64) -> Option<u64>
        requires { row < length self.old.rows }
        ensures rows { (removed : TableRow V) → slice_get self.old.rows row ≡ Some removed → self.new.rows ≡ swap_remove self.old.rows row removed }
        ensures moved { IfSome result (λ last. (last + 1 ≡ length self.old.rows) × (row < last)) }
        ensures last { IfNone result (row + 1 ≡ length self.old.rows) }
    {
        let was_live = take_away(&mut self.rows, row as usize);
        self.live = without_one(self.live, was_live);
        moved_from(row, self.rows.len() as u64)
    }
}
