ghost use Rattle.std.specs.Prelude.{◌<◌};

use plai_arcs::Arcs;
use std::alloc::{AllocError, Global};
use std::test::Fail;

const ROWS: u64 = 12;

const CLAUSES: u64 = 4;

/// Numbers that look like chance.
#[derive(Drop)]
struct Chance {
    seed: u64,
}

impl Chance {
    /// A number below this one.
    fn below(&mut self, bound: u64) -> u64
        requires { 0 < bound }
        ensures { result < bound }
    {
        self.seed = self
            .seed
            .wrapping_mul(6364136223846793005)
            .wrapping_add(1442695040888963407);
        (self.seed >> 33) % bound
    }
}

/// A call of a row by a clause of a row.
#[derive(Clone, Copy, PartialEq, Eq, Debug)]
struct Call {
    row: u64,
    clause: u64,
    called: u64,
}

/// Plain lists of dirty pairs and of calls, each once.
#[derive(Drop)]
struct Plain {
    dirty: Vec<(u64, u64)>,
    calls: Vec<Call>,
}

impl Plain {
    fn mark(&mut self, row: u64, clause: u64) -> Result<(), AllocError> {
        self.clear(row, clause);
        self.dirty.push((row, clause))?;
        Ok(())
    }

    fn clear(&mut self, row: u64, clause: u64) {
        self.dirty.retain(|pair| pair.0 != row || pair.1 != clause);
    }

    fn set(&mut self, row: u64, clause: u64, called: &[u64]) -> Result<(), AllocError> {
        self.calls
            .retain(|call| call.row != row || call.clause != clause);
        for other in called {
            let call = Call {
                row,
                clause,
                called: *other,
            };
            if !self.calls.as_slice().contains(&call) {
                self.calls.push(call)?;
            }
        }
        Ok(())
    }

    fn take_row(&mut self, row: u64) {
        self.dirty.retain(|pair| pair.0 != row);
        self.calls
            .retain(|call| call.row != row && call.called != row);
    }

    fn rename_row(&mut self, last: u64, row: u64) {
        for pair in self.dirty.iter_mut() {
            if pair.0 == last {
                pair.0 = row;
            }
        }
        for call in self.calls.iter_mut() {
            if call.row == last {
                call.row = row;
            }
            if call.called == last {
                call.called = row;
            }
        }
    }

    /// The least dirty clause of the row.
    fn least(&self, row: u64) -> Option<u64> {
        self.dirty
            .iter()
            .filter(|pair| pair.0 == row)
            .map(|pair| pair.1)
            .min()
    }

    fn count_of(&self, row: u64, clause: u64) -> usize {
        self.calls
            .iter()
            .filter(|call| call.row == row && call.clause == clause)
            .count()
    }

    fn count_to(&self, row: u64) -> usize {
        self.calls.iter().filter(|call| call.called == row).count()
    }
}

/// Whether each item stands once in the list.
fn is_each_once<T: PartialEq>(items: &[T]) -> bool {
    for (place, item) in items.iter().enumerate() {
        for other in items.iter().skip(place).skip(1) {
            if item == other {
                return false;
            }
        }
    }
    true
}

/// Whether the calls of a clause are those of the plain list.
fn is_same_calls(arcs: &Arcs, plain: &Plain, row: u64, clause: u64) -> bool {
    let called = arcs.calls_of(row, clause);
    let calls = plain.calls.as_slice();
    called.len() == plain.count_of(row, clause)
        && is_each_once(called)
        && called.iter().all(|other| {
            calls.contains(&Call {
                row,
                clause,
                called: *other,
            })
        })
}

/// Whether the callers of a row are those of the plain list.
fn is_same_callers(arcs: &Arcs, plain: &Plain, row: u64) -> bool {
    let callers = arcs.callers(row);
    let calls = plain.calls.as_slice();
    callers.len() == plain.count_to(row)
        && is_each_once(callers)
        && callers.iter().all(|pair| {
            calls.contains(&Call {
                row: pair.0,
                clause: pair.1,
                called: row,
            })
        })
}

/// Whether both tell the same of all rows.
fn is_same(arcs: &Arcs, plain: &Plain) -> bool {
    for row in 0..ROWS {
        if arcs.next_dirty(row) != plain.least(row) || !is_same_callers(arcs, plain, row) {
            return false;
        }
        for clause in 0..CLAUSES {
            if !is_same_calls(arcs, plain, row, clause) {
                return false;
            }
        }
    }
    true
}

/// Makes the same change of both.
fn change(
    alloc: Global,
    chance: &mut Chance,
    arcs: &mut Arcs,
    plain: &mut Plain,
) -> Result<(), AllocError> {
    let row = chance.below(ROWS);
    let clause = chance.below(CLAUSES);
    match chance.below(16) {
        0 => {
            let last = row + 1 + chance.below(3);
            arcs.drop_row(row, Some(last));
            plain.take_row(row);
            plain.rename_row(last, row);
        }
        1 => {
            arcs.drop_row(row, None);
            plain.take_row(row);
        }
        2..=4 => {
            arcs.mark_dirty(alloc, row, clause)?;
            plain.mark(row, clause)?;
        }
        5..=6 => {
            arcs.clear_dirty(row, clause);
            plain.clear(row, clause);
        }
        _ => {
            let mut called = Vec::new(alloc);
            for _ in 0..chance.below(7) {
                called.push(chance.below(ROWS))?;
            }
            arcs.reserve(alloc, row, clause, called.as_slice())?;
            arcs.set_calls(alloc, row, clause, called.as_slice())?;
            plain.set(row, clause, called.as_slice())?;
        }
    }
    Ok(())
}

#[test]
fn arcs_are_plain_lists(rt: HostRuntime) -> Result<(), Fail> {
    let alloc = rt.alloc();
    let mut arcs = Arcs::new(alloc)?;
    let mut plain = Plain {
        dirty: Vec::new(alloc),
        calls: Vec::new(alloc),
    };
    let mut chance = Chance { seed: 1 };
    for _ in 0..4000 {
        change(alloc, &mut chance, &mut arcs, &mut plain)?;
        assert!(rt; is_same(&arcs, &plain));
    }
    Ok(())
}

const MANY: u64 = 100_000;

/// With 100,000 callers of one row a search through them for each would take minutes.
#[test]
fn a_popular_row_is_set_and_dropped_without_a_search(rt: HostRuntime) -> Result<(), Fail> {
    let alloc = rt.alloc();
    let mut arcs = Arcs::new(alloc)?;
    for row in 1..MANY {
        arcs.set_calls(alloc, row, 0, &[0, row, 0])?;
    }
    assert_eq!(rt; arcs.callers(0).len() as u64, MANY - 1);
    for row in 1..MANY {
        arcs.set_calls(alloc, row, 0, &[0])?;
    }
    for row in 1..MANY / 2 {
        arcs.drop_row(row, Some(MANY - row));
    }
    assert_eq!(rt; arcs.callers(0).len() as u64, MANY / 2);
    for row in 1..MANY {
        arcs.set_calls(alloc, row, 0, &[])?;
    }
    assert_eq!(rt; arcs.callers(0).len(), 0);
    arcs.set_calls(alloc, 0, 0, &[0])?;
    assert_eq!(rt; arcs.calls_of(0, 0), [0u64].as_slice());
    assert_eq!(rt; arcs.callers(0), [(0u64, 0u64)].as_slice());
    Ok(())
}
