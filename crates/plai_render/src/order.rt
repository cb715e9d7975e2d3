ghost use Rattle.std.specs.Prelude.{◌≡◌, ◌+◌, ◌≤◌, [], ◌++◌, map, reverse, vec_len, vec_capacity, All, List, IsPermutation, OnOk};
ghost use Rattle.plai_terms.specs.declared.plain_row.PlainRow.{PlainRow};
ghost use Rattle.plai_terms.specs.Rows.{AreInOrder};
ghost use Rattle.plai_render.specs.Order.{AreWeaklyInOrder, AreApart, IsNarrow};
ghost use Rattle.plai_render.specs.Texts.{AreTextsOf, AreTextsInOrder};

use crate::keyed::Keyed;
use crate::text_row::TextRow;
use plai_terms::PlainRow;
use std::alloc::{AllocError, Global};

// Moves the rows to another list, the last one first, each with its text. After want of memory those that
// are left stay.
fn key_all(
    alloc: Global,
    rows: &mut Vec<PlainRow>,
    keyed: &mut Vec<Keyed>,
) -> Result<(), AllocError>
    requires narrow { All IsNarrow rows.old.items }
    requires room { vec_len keyed.old + vec_len rows.old ≤ vec_capacity keyed.old }
    requires back { vec_len keyed.old + vec_len rows.old ≤ vec_capacity rows.old }
    ensures rows { IsPermutation (map (λ k. k.row) keyed.old.items ++ rows.old.items) (map (λ k. k.row) keyed.new.items ++ rows.new.items) }
    ensures all { OnOk result (rows.new.items ≡ []) }
    ensures back { vec_len keyed.new + vec_len rows.new ≤ vec_capacity rows.new }
{
    while let Some(row) = rows.pop() {
        match TextRow::of(alloc, &row) {
            Ok(text) => keyed.push_reserved(Keyed { row, text }),
            Err(fail) => {
                rows.push_reserved(row);
                return Err(fail);
            }
        }
    }
    Ok(())
}

// Moves the rows back, the last one first.
fn give_back(keyed: &mut Vec<Keyed>, rows: &mut Vec<PlainRow>)
    requires { vec_len keyed.old + vec_len rows.old ≤ vec_capacity rows.old }
    ensures { rows.new.items ≡ rows.old.items ++ reverse (map (λ k. k.row) keyed.old.items) }
{
    while let Some(key) = keyed.pop() {
        rows.push_reserved(key.into_row());
    }
}

/// Puts the rows into the order of a table: by module, name, arity and the text of the call, all by
/// their bytes. Where no two names have one predicate and one text of the call, as in a table, each row
/// then stands strictly before the next.
///
/// After want of memory they are the same rows in some order.
pub fn sort_rows(alloc: Global, rows: &mut Vec<PlainRow>) -> Result<(), AllocError>
    requires { All IsNarrow rows.old.items }
    ensures permutation { IsPermutation rows.old.items rows.new.items }
    ensures narrow { All IsNarrow rows.new.items }
    ensures sorted { OnOk result (AreWeaklyInOrder rows.new.items) }
    ensures in_order { OnOk result (AreApart rows.old.items → AreInOrder rows.new.items) }
{
    let mut keyed = Vec::with_capacity(alloc, rows.len())?;
    let printed = key_all(alloc, rows, &mut keyed);
    keyed.sort_unstable_by(|a, b| a.text.order(&b.text));
    give_back(&mut keyed, rows);
    rows.reverse();
    printed
}

/// Puts rows that are given as text into the order of a table, as [`sort_rows`] puts rows. It takes no memory.
pub fn sort_texts(rows: &mut Vec<TextRow>)
    ensures permutation { IsPermutation rows.old.items rows.new.items }
    ensures in_order { (table : List PlainRow) → AreTextsOf table rows.old.items → AreTextsInOrder table rows.new.items }
{
    rows.sort_unstable_by(|a, b| a.order(b));
}
