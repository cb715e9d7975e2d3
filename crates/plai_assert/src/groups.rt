//! Rows that are found by their predicates.
ghost use Rattle.std.specs.Prelude.{◌≡◌, ◌++◌, ◌∷◌, [], cond, IfOk, OnOk};
ghost use Rattle.indexmap.specs.IndexMap.{insert_entry};
ghost use Rattle.plai_terms.specs.declared.pred_key.PredKey.{PredKey};
ghost use Rattle.plai_clauses.specs.Program.{same_pred};
ghost use Rattle.plai_assert.specs.Groups.{is_of, group_of, AreGroupsOf};

use crate::row::Row;
use indexmap::IndexMap;
use plai_terms::PredKey;
use std::alloc::{AllocError, Global};
use std::marker::Model;

/// The rows of a predicate. Contracts see the list.
#[derive(Drop)]
pub(crate) struct RowList<'a, V> {
    rows: Vec<Row<'a, V>>,
}

impl<'a, V> Model for RowList<'a, V> {
    ghost use Rattle.std.specs.Prelude.{List};
    ghost use Rattle.plai_assert.specs.declared.row.Row.{Row};

    ghost Value = { List (Row V) };

    ghost view = { λ l. l.rows.items };
}

impl<'a, V> RowList<'a, V> {
    fn new(alloc: Global) -> RowList<'a, V>
        ensures { result ≡ [] }
    {
        RowList {
            rows: Vec::new(alloc),
        }
    }

    pub(crate) fn as_slice(&self) -> &[Row<'a, V>]
        ensures { result.now ≡ self.now }
    {
        self.rows.as_slice()
    }

    fn push(&mut self, row: &Row<'a, V>) -> Result<(), AllocError>
        ensures { OnOk result (self.new ≡ self.old ++ row.now ∷ []) }
    {
        self.rows.push(Row {
            name: row.name,
            answer: row.answer,
        })?;
        Ok(())
    }
}

/// The rows of each predicate, found by its key.
pub(crate) type Groups<'a, V> = IndexMap<PredKey, RowList<'a, V>>;

fn push_first<'a, V>(
    alloc: Global,
    groups: &mut Groups<'a, V>,
    row: &Row<'a, V>,
) -> Result<(), AllocError>
    ensures { OnOk result (groups.new.entries ≡ insert_entry same_pred groups.old.entries row.now.name.now.pred (row.now ∷ [])) }
{
    let mut rows = RowList::new(alloc);
    rows.push(row)?;
    groups.insert(row.name.pred.copy(alloc)?, rows)?;
    Ok(())
}

/// Puts the row last in its predicate.
fn push_row<'a, V>(
    alloc: Global,
    groups: &mut Groups<'a, V>,
    row: &Row<'a, V>,
) -> Result<(), AllocError>
    ensures { OnOk result ((pred : PredKey) → group_of groups.new.entries pred ≡ group_of groups.old.entries pred ++ cond (is_of pred row.now) (row.now ∷ []) []) }
{
    match groups.get_mut(&row.name.pred) {
        Some(rows) => rows.push(row),
        None => push_first(alloc, groups, row),
    }
}

/// The rows by their predicates.
pub(crate) fn grouped<'a, V>(
    alloc: Global,
    rows: &[Row<'a, V>],
) -> Result<Groups<'a, V>, AllocError>
    ensures { IfOk result (λ groups. AreGroupsOf groups.entries rows.now) }
{
    let mut groups = IndexMap::new(alloc);
    for row in rows {
        push_row(alloc, &mut groups, row)?;
    }
    Ok(groups)
}
