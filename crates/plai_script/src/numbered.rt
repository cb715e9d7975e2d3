//! Takes items away by their numbers.
ghost use Rattle.std.specs.Prelude.{◌≡◌, List, [], ◌∷◌, OnOk};
ghost use Rattle.plai_clauses.specs.Program.{many_of, homes_of_entries, homes_of_checks};
ghost use Rattle.plai_script.specs.Edits.{number_among, delete, delete_entry, delete_check};
ghost use Rattle.plai_script.specs.Answering.{Leaves};
ghost use Rattle.plai_script.specs.Touching.{LeavesOthers};

use crate::fail::EditFail;
use plai_clauses::{Check, EditCause, Entry, Program};
use plai_terms::{Name, PredKey};
use std::alloc::Global;

/// The number, if it is one from 1 up to how many there are.
fn number_among(there: u64, number: i128) -> Option<u64>
    ensures { result ≡ number_among there number }
{
    if number >= 1 && number <= there as i128 {
        Some(number as u64)
    } else {
        None
    }
}

/// Takes the clause of that number away.
pub(crate) fn delete(
    alloc: Global,
    program: &mut Program,
    pred: &PredKey,
    number: i128,
) -> Result<(), EditFail>
    ensures leaves { Leaves (delete program.old pred.now number) program.new result }
    ensures others { OnOk result (LeavesOthers (pred.now ∷ []) program.old program.new) }
{
    let there = program.clauses_of(pred).len() as u64;
    match number_among(there, number) {
        Some(place) => {
            program.remove_clause(alloc, pred, place)?;
            Ok(())
        }
        None => Err(EditFail::Refused(EditCause::NoSuchClause {
            asked: number,
            there,
        })),
    }
}

/// How many of the entries are the module's.
fn count_entries(entries: &[Entry], module: &Name) -> u64
    ensures { result ≡ many_of «module».now (homes_of_entries entries.now) }
{
    let mut count: usize = 0;
    for entry in entries {
        if entry.module == *module {
            count += 1;
        }
    }
    count as u64
}

/// How many of the assertions are the module's.
fn count_checks(checks: &[Check], module: &Name) -> u64
    ensures { result ≡ many_of «module».now (homes_of_checks checks.now) }
{
    let mut count: usize = 0;
    for check in checks {
        if check.module == *module {
            count += 1;
        }
    }
    count as u64
}

/// Takes the module's entry of that number away.
pub(crate) fn delete_entry(
    program: &mut Program,
    module: &Name,
    number: i128,
) -> Result<(), EditFail>
    ensures leaves { Leaves (delete_entry program.old «module».now number) program.new result }
    ensures clauses { OnOk result (program.new.definitions ≡ program.old.definitions) }
{
    let there = count_entries(program.entries(), module);
    match number_among(there, number) {
        Some(place) => {
            program.remove_entry(module, place);
            Ok(())
        }
        None => Err(EditFail::Refused(EditCause::NoSuchEntry {
            asked: number,
            there,
        })),
    }
}

/// Takes the module's assertion of that number away.
pub(crate) fn delete_check(
    program: &mut Program,
    module: &Name,
    number: i128,
) -> Result<(), EditFail>
    ensures leaves { Leaves (delete_check program.old «module».now number) program.new result }
    ensures clauses { OnOk result (program.new.definitions ≡ program.old.definitions) }
{
    let there = count_checks(program.checks(), module);
    match number_among(there, number) {
        Some(place) => {
            program.remove_check(module, place);
            Ok(())
        }
        None => Err(EditFail::Refused(EditCause::NoSuchCheck {
            asked: number,
            there,
        })),
    }
}
