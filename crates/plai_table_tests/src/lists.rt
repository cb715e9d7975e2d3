// A table against a plain list of rows, over thousands of random calls.
use plai_domain::Key;
use plai_table::{AddFail, Table};
use plai_terms::{Name, PredKey};
use std::alloc::{AllocError, Global};
use std::test::Fail;

/// A row of the plain list: the number of its name, its answer, whether it is live, whether it is an entry's.
#[derive(Clone, Copy, PartialEq, Eq, Debug)]
struct PlainRow {
    name: u64,
    answer: Option<u64>,
    live: bool,
    entry: bool,
}

const NAMES: u64 = 40;

const LIMIT: u64 = 25;

/// The name of this number.
fn key(alloc: Global, number: u64) -> Result<Key<u64>, AllocError> {
    let text = vec![in alloc; (number % 8) as u8]?;
    Ok(Key {
        pred: PredKey {
            module: Name::new(Vec::new(alloc)),
            name: Name::new(text),
            arity: 0,
        },
        call: number / 8,
    })
}

fn plain_place(rows: &[PlainRow], name: u64) -> Option<u64> {
    let place = rows.iter().position(|row| row.name == name)?;
    Some(place as u64)
}

fn plain_live(rows: &[PlainRow]) -> u64 {
    rows.iter().filter(|row| row.live).count() as u64
}

/// Adds the name to both, unless it is there. Whether both did the same.
fn add(
    alloc: Global,
    table: &mut Table<u64>,
    rows: &mut Vec<PlainRow>,
    name: u64,
) -> Result<bool, AllocError> {
    let key = key(alloc, name)?;
    let found = table.find(&key);
    if found.is_some() {
        return Ok(found == plain_place(rows, name));
    }
    let full = plain_live(rows) >= LIMIT;
    let place = rows.len() as u64;
    match table.add(alloc, key, LIMIT) {
        Err(AddFail::Memory) => Err(AllocError),
        Err(AddFail::Full) => Ok(full),
        Ok(row) => {
            rows.push(PlainRow {
                name,
                answer: None,
                live: true,
                entry: false,
            })?;
            Ok(!full && row == place)
        }
    }
}

/// Changes the row of both. Whether both did the same.
fn change(table: &mut Table<u64>, rows: &mut Vec<PlainRow>, row: u64, by: u64) -> bool {
    let place = row as usize;
    if row >= table.len() || place >= rows.len() {
        return false;
    }
    match by % 8 {
        0 | 1 => {
            table.raise(row, by);
            rows[place].answer = Some(by);
        }
        2 => {
            table.wake(row);
            rows[place].live = true;
        }
        3 | 4 => {
            table.sleep(row);
            rows[place].live = false;
        }
        5 => {
            table.set_entry(row, by % 16 < 8);
            rows[place].entry = by % 16 < 8;
        }
        _ => {
            let last = rows.len() as u64 - 1;
            rows.swap_remove(place);
            let moved = if row == last { None } else { Some(last) };
            return table.remove(row) == moved;
        }
    }
    true
}

/// Whether both have the same rows.
fn agree(alloc: Global, table: &Table<u64>, rows: &[PlainRow]) -> Result<bool, AllocError> {
    if table.len() != rows.len() as u64 || table.live() != plain_live(rows) {
        return Ok(false);
    }
    for (place, plain) in rows.iter().enumerate() {
        if place as u64 >= table.len() {
            return Ok(false);
        }
        let row = table.row(place as u64);
        let same = *row.name == key(alloc, plain.name)?
            && row.answer == plain.answer.as_ref()
            && row.live == plain.live
            && row.entry == plain.entry;
        if !same || table.find(row.name) != Some(place as u64) {
            return Ok(false);
        }
    }
    Ok(true)
}

#[test]
fn a_table_is_a_plain_list_of_rows(rt: HostRuntime) -> Result<(), Fail> {
    let alloc = rt.alloc();
    let mut table = Table::new(alloc)?;
    let mut rows = Vec::new(alloc);
    let mut seed: u64 = 1;
    for _ in 0..3000 {
        seed = seed
            .wrapping_mul(6364136223846793005)
            .wrapping_add(1442695040888963407);
        let number = seed >> 33;
        let same = if number % 3 == 0 {
            add(alloc, &mut table, &mut rows, number / 3 % NAMES)?
        } else if rows.len() > 0 {
            let row = number / 3 % rows.len() as u64;
            change(&mut table, &mut rows, row, number / 128)
        } else {
            true
        };
        assert!(rt; same);
        assert!(rt; agree(alloc, &table, rows.as_slice())?);
    }
    Ok(())
}

#[test]
fn room_that_is_reserved_is_there(rt: HostRuntime) -> Result<(), Fail> {
    let alloc = rt.alloc();
    let mut table = Table::new(alloc)?;
    table.reserve(alloc, NAMES)?;
    let mut rows = Vec::new(alloc);
    for name in 0..NAMES {
        assert!(rt; add(alloc, &mut table, &mut rows, name)?);
    }
    assert_eq!(rt; table.live(), LIMIT);
    Ok(())
}
