//! The terms that are edits.
ghost use Rattle.std.specs.Prelude.{◌≡◌, ◌<◌, ◌^◌, All, IfOk, ok_or, option_and_then};
ghost use Rattle.plai_terms.specs.Readable.{IsReadable};
ghost use Rattle.plai_clauses.specs.declared.edit_cause.EditCause.TheVariants.{BadEdit};
ghost use Rattle.plai_sources.specs.Shapes.{each, list_items};
ghost use Rattle.plai_sources.specs.Answering.{Gives, Lists};
ghost use Rattle.plai_script.specs.declared.edit.Edit as edit;
ghost use Rattle.plai_script.specs.Shapes.{integer_of, key_of, of_term, of_number, drop, del, edit_of_two, edit_of_three, single_at, single_of, all_of, edit_of_term, edit_of};
ghost use Rattle.plai_script.specs.Readable.{IsPart, IsReadableEdit};
ghost use Rattle.plai_script.specs.Answering.{Answers};

use crate::edit::Edit;
use crate::fail::EditFail;
use crate::own_term::own_term;
use plai_clauses::EditCause;
use plai_sources::{Stop, atom, list_items, number_up_to, one_argument, two_arguments};
use plai_terms::{Listed, Name, ReadTerm, Term};
use std::alloc::Global;

/// The greatest number of arguments of a predicate.
const MOST_ARGUMENTS: u32 = 16;

/// The value of an integer.
fn integer(term: &Term) -> Option<i128>
    ensures { result ≡ integer_of term.now }
{
    match term {
        Term::Int(value) => Some(*value),
        _ => None,
    }
}

/// The name and number of arguments of `P/A`.
fn key(alloc: Global, term: &Term) -> Result<(Name, u32), Stop>
    ensures { Gives (key_of term.now) result }
{
    let (left, right) = two_arguments(b"/", term).ok_or(Stop::Unfit)?;
    let name = atom(left).ok_or(Stop::Unfit)?;
    let arity = number_up_to(MOST_ARGUMENTS, right).ok_or(Stop::Unfit)?;
    Ok((name.copy(alloc)?, arity))
}

fn add(alloc: Global, limit: u32, module: &Term, term: &Term) -> Result<Edit, Stop>
    requires few { limit < 2 ^ 31 }
    requires part { IsPart limit term.now }
    ensures { Gives (of_term edit.Add «module».now term.now) result }
{
    let name = atom(module).ok_or(Stop::Unfit)?;
    Ok(Edit::Add {
        module: name.copy(alloc)?,
        clause: own_term(alloc, limit, term)?,
    })
}

fn entry(alloc: Global, limit: u32, module: &Term, term: &Term) -> Result<Edit, Stop>
    requires few { limit < 2 ^ 31 }
    requires part { IsPart limit term.now }
    ensures { Gives (of_term edit.Entry «module».now term.now) result }
{
    let name = atom(module).ok_or(Stop::Unfit)?;
    Ok(Edit::Entry {
        module: name.copy(alloc)?,
        entry: own_term(alloc, limit, term)?,
    })
}

fn check(alloc: Global, limit: u32, module: &Term, term: &Term) -> Result<Edit, Stop>
    requires few { limit < 2 ^ 31 }
    requires part { IsPart limit term.now }
    ensures { Gives (of_term edit.Check «module».now term.now) result }
{
    let name = atom(module).ok_or(Stop::Unfit)?;
    Ok(Edit::Check {
        module: name.copy(alloc)?,
        check: own_term(alloc, limit, term)?,
    })
}

fn unentry(alloc: Global, module: &Term, number: &Term) -> Result<Edit, Stop>
    ensures { Gives (of_number edit.Unentry «module».now number.now) result }
{
    let name = atom(module).ok_or(Stop::Unfit)?;
    let number = integer(number).ok_or(Stop::Unfit)?;
    Ok(Edit::Unentry {
        module: name.copy(alloc)?,
        number,
    })
}

fn uncheck(alloc: Global, module: &Term, number: &Term) -> Result<Edit, Stop>
    ensures { Gives (of_number edit.Uncheck «module».now number.now) result }
{
    let name = atom(module).ok_or(Stop::Unfit)?;
    let number = integer(number).ok_or(Stop::Unfit)?;
    Ok(Edit::Uncheck {
        module: name.copy(alloc)?,
        number,
    })
}

fn drop(alloc: Global, module: &Term, pred: &Term) -> Result<Edit, Stop>
    ensures { Gives (drop «module».now pred.now) result }
{
    let home = atom(module).ok_or(Stop::Unfit)?;
    let (name, arity) = key(alloc, pred)?;
    Ok(Edit::Drop {
        module: home.copy(alloc)?,
        name,
        arity,
    })
}

fn del(alloc: Global, module: &Term, pred: &Term, number: &Term) -> Result<Edit, Stop>
    ensures { Gives (del «module».now pred.now number.now) result }
{
    let home = atom(module).ok_or(Stop::Unfit)?;
    let (name, arity) = key(alloc, pred)?;
    let number = integer(number).ok_or(Stop::Unfit)?;
    Ok(Edit::Del {
        module: home.copy(alloc)?,
        name,
        arity,
        number,
    })
}

/// The edit of that name of two arguments.
#[tactic(auto, unfolding(crate::specs::Shapes::edit_of_two))]
fn edit_of_two(
    alloc: Global,
    limit: u32,
    name: &Name,
    module: &Term,
    term: &Term,
) -> Result<Edit, Stop>
    requires few { limit < 2 ^ 31 }
    requires part { IsPart limit term.now }
    ensures { Gives (edit_of_two name.now «module».now term.now) result }
{
    let name = name.as_slice();
    if name == b"add".as_slice() {
        add(alloc, limit, module, term)
    } else if name == b"drop".as_slice() {
        drop(alloc, module, term)
    } else if name == b"entry".as_slice() {
        entry(alloc, limit, module, term)
    } else if name == b"unentry".as_slice() {
        unentry(alloc, module, term)
    } else if name == b"check".as_slice() {
        check(alloc, limit, module, term)
    } else if name == b"uncheck".as_slice() {
        uncheck(alloc, module, term)
    } else {
        Err(Stop::Unfit)
    }
}

#[tactic(auto, unfolding(crate::specs::Shapes::edit_of_three))]
fn edit_of_three(
    alloc: Global,
    name: &Name,
    module: &Term,
    pred: &Term,
    number: &Term,
) -> Result<Edit, Stop>
    ensures { Gives (edit_of_three name.now «module».now pred.now number.now) result }
{
    if name.as_slice() == b"del".as_slice() {
        del(alloc, module, pred, number)
    } else {
        Err(Stop::Unfit)
    }
}

/// The edit other than `all` of that name with these arguments.
fn single_at(alloc: Global, limit: u32, name: &Name, args: &[Term]) -> Result<Edit, Stop>
    requires few { limit < 2 ^ 31 }
    requires parts { All (IsPart limit) args.now }
    ensures { Gives (single_at name.now args.now) result }
{
    match args {
        [module, term] => edit_of_two(alloc, limit, name, module, term),
        [module, pred, number] => edit_of_three(alloc, name, module, pred, number),
        _ => Err(Stop::Unfit),
    }
}

fn single(alloc: Global, limit: u32, term: &Term) -> Result<Edit, Stop>
    requires few { limit < 2 ^ 31 }
    requires part { IsPart limit term.now }
    ensures { Gives (single_of term.now) result }
{
    match term {
        Term::Compound(name, args) => single_at(alloc, limit, name, args.as_slice()),
        _ => Err(Stop::Unfit),
    }
}

fn each_single(alloc: Global, limit: u32, terms: &[&Term]) -> Result<Vec<Edit>, Stop>
    requires few { limit < 2 ^ 31 }
    requires parts { All (λ term. IsPart limit term.now) terms.now }
    ensures { Lists (each (λ term. single_of term.now) terms.now) result }
{
    let mut edits = Vec::new(alloc);
    for term in terms {
        edits.push(single(alloc, limit, term)?)?;
    }
    Ok(edits)
}

/// The edits of a list.
fn list_singles(alloc: Global, limit: u32, term: &Term) -> Result<Vec<Edit>, Stop>
    requires few { limit < 2 ^ 31 }
    requires part { IsPart limit term.now }
    ensures { Lists (option_and_then (each single_of) (list_items term.now)) result }
{
    let items = list_items(alloc, term)?;
    each_single(alloc, limit, items.as_slice())
}

fn all(alloc: Global, limit: u32, term: &Term) -> Result<Edit, Stop>
    requires few { limit < 2 ^ 31 }
    requires part { IsPart limit term.now }
    ensures { Gives (all_of term.now) result }
{
    Ok(Edit::All(Listed::new(list_singles(alloc, limit, term)?)))
}

fn edit(alloc: Global, limit: u32, term: &Term) -> Result<Edit, Stop>
    requires few { limit < 2 ^ 31 }
    requires part { IsPart limit term.now }
    ensures { Gives (edit_of_term term.now) result }
{
    match one_argument(b"all", term) {
        Some(items) => all(alloc, limit, items),
        None => single(alloc, limit, term),
    }
}

/// The edit that a term is. `BadEdit` comes exactly where it has none of the shapes of an edit, and no other cause does; want
/// of memory may come at any term. The term is as one that was read: its variables are numbered below how many it says, which
/// is below 2^31, and no compound in it has more than 255 arguments.
pub fn read_edit(alloc: Global, term: &ReadTerm) -> Result<Edit, EditFail>
    requires readable { IsReadable term.now }
    ensures answer { Answers (ok_or (edit_of term.now) BadEdit) result }
    ensures readable { IfOk result IsReadableEdit }
{
    match edit(alloc, term.variables, &term.term) {
        Ok(edit) => Ok(edit),
        Err(Stop::Memory) => Err(EditFail::Memory),
        Err(Stop::Unfit) => Err(EditFail::Refused(EditCause::BadEdit)),
    }
}
