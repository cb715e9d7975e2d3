//! Carries out edits.
ghost use Rattle.std.specs.Prelude.{◌≡◌, All, Ok, IfOk, OnOk, IsSome, nat_lt};
ghost use Rattle.plai_terms.specs.Readable.{IsReadable};
ghost use Rattle.plai_clauses.specs.WellFormed.{IsWellFormedClause};
ghost use Rattle.plai_clauses.specs.Program.{module_in, items_of, with_clause_of, without_clauses, with_entry, with_check};
ghost use Rattle.plai_sources.specs.Items.{most_items};
ghost use Rattle.plai_script.specs.Edits.{and_then, in_module, clause_in, entry_in, check_in, with_room, own_pred, delete, delete_entry, delete_check, edited, edited_by};
ghost use Rattle.plai_script.specs.Readable.{IsReadableEdit};
ghost use Rattle.plai_script.specs.Answering.{Answers, Leaves};
ghost use Rattle.plai_script.specs.Touching.{AreTouchedWith, LeavesOthers, StayTouched, Touches};

use crate::edit::Edit;
use crate::fail::EditFail;
use crate::numbered::{delete, delete_check, delete_entry};
use crate::said::{check_in, clause_in, entry_in};
use indexmap::IndexSet;
use plai_clauses::{Clause, EditCause, Program};
use plai_terms::{Name, PredKey, ReadTerm};
use std::alloc::{AllocError, Global};

/// The greatest number of clauses, entries and checks of a program.
const MOST_ITEMS: u64 = 65536;

/// Whether the program may have one more clause, entry or assertion.
fn has_room(program: &Program) -> bool
    ensures { result ≡ nat_lt (items_of program.now) most_items }
{
    program.items() < MOST_ITEMS
}

fn make_pred(alloc: Global, module: &Name, name: &Name, arity: u32) -> Result<PredKey, AllocError>
    ensures { IfOk result (λ pred. pred ≡ own_pred «module».now name.now arity) }
{
    Ok(PredKey {
        module: module.copy(alloc)?,
        name: name.copy(alloc)?,
        arity,
    })
}

/// Puts the predicate among the touched ones.
fn touch(touched: &mut IndexSet<PredKey>, pred: PredKey) -> Result<(), AllocError>
    ensures { OnOk result (AreTouchedWith pred touched.old.keys touched.new.keys) }
{
    touched.insert(pred)?;
    Ok(())
}

/// Puts the clause last in its predicate, which is touched.
fn put_clause(
    alloc: Global,
    program: &mut Program,
    module: &Name,
    clause: Clause,
    touched: &mut IndexSet<PredKey>,
) -> Result<(), AllocError>
    requires there { IsSome (module_in program.old.modules «module».now) }
    requires clause { IsWellFormedClause clause }
    ensures ok { OnOk result (program.new ≡ with_clause_of program.old «module».now clause) }
    ensures touched { OnOk result (Touches touched.old.keys touched.new.keys program.old program.new) }
{
    let arity = clause.head.as_slice().len() as u32;
    touch(touched, make_pred(alloc, module, &clause.name, arity)?)?;
    program.add_clause(alloc, module, clause)?;
    Ok(())
}

fn add_clause(
    alloc: Global,
    program: &mut Program,
    module: &Name,
    read: &ReadTerm,
    touched: &mut IndexSet<PredKey>,
) -> Result<(), EditFail>
    requires readable { IsReadable read.now }
    ensures leaves { Leaves (and_then (clause_in program.old.modules «module».now read.now) (λ c. with_room program.old (with_clause_of program.old «module».now c))) program.new result }
    ensures touched { OnOk result (Touches touched.old.keys touched.new.keys program.old program.new) }
{
    let clause = clause_in(alloc, program, module, read)?;
    if !has_room(program) {
        return Err(EditFail::Refused(EditCause::TooManyItems));
    }
    put_clause(alloc, program, module, clause, touched)?;
    Ok(())
}

fn add_entry(
    alloc: Global,
    program: &mut Program,
    module: &Name,
    read: &ReadTerm,
) -> Result<(), EditFail>
    ensures leaves { Leaves (and_then (entry_in program.old.modules «module».now read.now) (λ e. with_room program.old (with_entry program.old e))) program.new result }
    ensures clauses { OnOk result (program.new.definitions ≡ program.old.definitions) }
{
    let entry = entry_in(alloc, program, module, read)?;
    if !has_room(program) {
        return Err(EditFail::Refused(EditCause::TooManyItems));
    }
    program.add_entry(alloc, entry)?;
    Ok(())
}

fn add_check(
    alloc: Global,
    program: &mut Program,
    module: &Name,
    read: &ReadTerm,
) -> Result<(), EditFail>
    ensures leaves { Leaves (and_then (check_in program.old.modules «module».now read.now) (λ c. with_room program.old (with_check program.old c))) program.new result }
    ensures clauses { OnOk result (program.new.definitions ≡ program.old.definitions) }
{
    let check = check_in(alloc, program, module, read)?;
    if !has_room(program) {
        return Err(EditFail::Refused(EditCause::TooManyItems));
    }
    program.add_check(alloc, check)?;
    Ok(())
}

/// Whether the program has a module of that name.
fn module_there(program: &Program, module: &Name) -> Result<(), EditFail>
    ensures { Answers (in_module (module_in program.now.modules «module».now) (λ _. Ok tt)) result }
{
    match program.module(module) {
        Some(_) => Ok(()),
        None => Err(EditFail::Refused(EditCause::UnknownModule)),
    }
}

fn del(
    alloc: Global,
    program: &mut Program,
    module: &Name,
    name: &Name,
    arity: u32,
    number: i128,
    touched: &mut IndexSet<PredKey>,
) -> Result<(), EditFail>
    ensures leaves { Leaves (in_module (module_in program.old.modules «module».now) (λ _. delete program.old (own_pred «module».now name.now arity) number)) program.new result }
    ensures touched { OnOk result (Touches touched.old.keys touched.new.keys program.old program.new) }
{
    module_there(program, module)?;
    let pred = make_pred(alloc, module, name, arity)?;
    touch(touched, pred.copy(alloc)?)?;
    delete(alloc, program, &pred, number)
}

fn drop_all(
    alloc: Global,
    program: &mut Program,
    module: &Name,
    name: &Name,
    arity: u32,
    touched: &mut IndexSet<PredKey>,
) -> Result<(), EditFail>
    ensures leaves { Leaves (in_module (module_in program.old.modules «module».now) (λ _. Ok (without_clauses program.old (own_pred «module».now name.now arity)))) program.new result }
    ensures touched { OnOk result (Touches touched.old.keys touched.new.keys program.old program.new) }
{
    module_there(program, module)?;
    let pred = make_pred(alloc, module, name, arity)?;
    touch(touched, pred.copy(alloc)?)?;
    program.clear(&pred);
    Ok(())
}

fn unentry(program: &mut Program, module: &Name, number: i128) -> Result<(), EditFail>
    ensures leaves { Leaves (in_module (module_in program.old.modules «module».now) (λ _. delete_entry program.old «module».now number)) program.new result }
    ensures clauses { OnOk result (program.new.definitions ≡ program.old.definitions) }
{
    module_there(program, module)?;
    delete_entry(program, module, number)
}

fn uncheck(program: &mut Program, module: &Name, number: i128) -> Result<(), EditFail>
    ensures leaves { Leaves (in_module (module_in program.old.modules «module».now) (λ _. delete_check program.old «module».now number)) program.new result }
    ensures clauses { OnOk result (program.new.definitions ≡ program.old.definitions) }
{
    module_there(program, module)?;
    delete_check(program, module, number)
}

/// Carries out an edit. Where it is refused, or memory is wanting, the program may have some of its parts.
#[cycle(change)]
fn change(
    alloc: Global,
    program: &mut Program,
    edit: &Edit,
    touched: &mut IndexSet<PredKey>,
) -> Result<(), EditFail>
    requires readable { IsReadableEdit edit.now }
    ensures leaves { Leaves (edited program.old edit.now) program.new result }
    ensures touched { OnOk result (Touches touched.old.keys touched.new.keys program.old program.new) }
{
    match edit {
        Edit::Add { module, clause } => add_clause(alloc, program, module, clause, touched),
        Edit::Del {
            module,
            name,
            arity,
            number,
        } => del(alloc, program, module, name, *arity, *number, touched),
        Edit::Drop {
            module,
            name,
            arity,
        } => drop_all(alloc, program, module, name, *arity, touched),
        Edit::Entry { module, entry } => add_entry(alloc, program, module, entry),
        Edit::Unentry { module, number } => unentry(program, module, *number),
        Edit::Check { module, check } => add_check(alloc, program, module, check),
        Edit::Uncheck { module, number } => uncheck(program, module, *number),
        Edit::All(edits) => change_all(alloc, program, edits.as_slice(), touched),
    }
}

#[cycle(change)]
fn change_all(
    alloc: Global,
    program: &mut Program,
    edits: &[Edit],
    touched: &mut IndexSet<PredKey>,
) -> Result<(), EditFail>
    requires readable { All IsReadableEdit edits.now }
    ensures leaves { Leaves (edited_by program.old edits.now) program.new result }
    ensures touched { OnOk result (Touches touched.old.keys touched.new.keys program.old program.new) }
{
    for edit in edits {
        change(alloc, program, edit, touched)?;
    }
    Ok(())
}

/// As [`apply`]; and the predicates whose clauses the edit may change are put into `touched`. Each predicate that isn't in it
/// then has the clauses that it had, and what was touched stays touched. Where there is no program, predicates of some of the
/// edit's parts may have been put in.
pub fn apply_noting(
    alloc: Global,
    program: &Program,
    edit: &Edit,
    touched: &mut IndexSet<PredKey>,
) -> Result<Program, EditFail>
    requires readable { IsReadableEdit edit.now }
    ensures answer { Answers (edited program.now edit.now) result }
    ensures touched { IfOk result (λ after. LeavesOthers touched.new.keys program.now after) }
    ensures kept { OnOk result (StayTouched touched.old.keys touched.new.keys) }
{
    let mut after = program.copy(alloc)?;
    change(alloc, &mut after, edit, touched)?;
    Ok(after)
}

/// The program after an edit. The one before it stays as it is.
///
/// `Refused` comes exactly where the edit is refused, with the first cause: of its parts in order, where it is an `all`, each
/// judged after those before it. `Memory` may come at any edit. The terms in the edit are as those that were read: see
/// [`read_edit`](crate::read_edit).
pub fn apply(alloc: Global, program: &Program, edit: &Edit) -> Result<Program, EditFail>
    requires readable { IsReadableEdit edit.now }
    ensures answer { Answers (edited program.now edit.now) result }
{
    let mut touched = IndexSet::new(alloc);
    apply_noting(alloc, program, edit, &mut touched)
}
