//! The directive `op`.
ghost use Rattle.std.specs.Prelude.{◌≡◌, [], ◌∷◌, option_and_then};
ghost use Rattle.plai_sources.specs.Shapes.{each, atom_of, list_items};
ghost use Rattle.plai_sources.specs.Operators.{kind_named, kind_of, some_names, names_of, with_each, operators_of};
ghost use Rattle.plai_sources.specs.Answering.{Gives, Lists, Changes};

use crate::shape::{atom, list_items, number_up_to};
use crate::stop::Stop;
use plai_reader::{OpFail, OpKind, OpTable};
use plai_terms::{Name, Term};
use std::alloc::Global;

/// The greatest priority of an operator.
const MOST_PRIORITY: u32 = 1200;

fn kind_named(name: &Name) -> Option<OpKind>
    ensures { result ≡ kind_named name.now }
{
    let name = name.as_slice();
    if name == b"xfx".as_slice() {
        Some(OpKind::Xfx)
    } else if name == b"xfy".as_slice() {
        Some(OpKind::Xfy)
    } else if name == b"yfx".as_slice() {
        Some(OpKind::Yfx)
    } else if name == b"fx".as_slice() {
        Some(OpKind::Fx)
    } else if name == b"fy".as_slice() {
        Some(OpKind::Fy)
    } else if name == b"xf".as_slice() {
        Some(OpKind::Xf)
    } else if name == b"yf".as_slice() {
        Some(OpKind::Yf)
    } else {
        None
    }
}

fn kind(term: &Term) -> Option<OpKind>
    ensures { result ≡ kind_of term.now }
{
    kind_named(atom(term)?)
}

fn each_atom(alloc: Global, items: &[&Term]) -> Result<Vec<Name>, Stop>
    ensures { Lists (each (λ item. atom_of item.now) items.now) result }
{
    let mut names = Vec::new(alloc);
    for item in items {
        names.push(atom(item).ok_or(Stop::Unfit)?.copy(alloc)?)?;
    }
    Ok(names)
}

fn list_atoms(alloc: Global, term: &Term) -> Result<Vec<Name>, Stop>
    ensures { Lists (option_and_then (each atom_of) (list_items term.now)) result }
{
    let items = list_items(alloc, term)?;
    each_atom(alloc, items.as_slice())
}

fn some_names(names: Vec<Name>) -> Result<Vec<Name>, Stop>
    ensures { Lists (some_names names.items) result }
{
    if names.is_empty() {
        return Err(Stop::Unfit);
    }
    Ok(names)
}

/// The names of an atom or of a list of atoms that isn't empty.
fn names(alloc: Global, term: &Term) -> Result<Vec<Name>, Stop>
    ensures { Lists (names_of term.now) result }
{
    match atom(term) {
        Some(name) => Ok(vec![in alloc; name.copy(alloc)?]?),
        None => some_names(list_atoms(alloc, term)?),
    }
}

/// Makes the name an operator.
fn add(
    alloc: Global,
    ops: &mut OpTable,
    priority: u32,
    kind: OpKind,
    name: &Name,
) -> Result<(), Stop>
    ensures { Changes (with_each ops.old priority kind (name.now ∷ [])) ops.new result }
{
    match ops.add(alloc, priority, kind, name) {
        Ok(()) => Ok(()),
        Err(OpFail::Memory) => Err(Stop::Memory),
        Err(_) => Err(Stop::Unfit),
    }
}

fn add_each(
    alloc: Global,
    ops: &mut OpTable,
    priority: u32,
    kind: OpKind,
    names: &[Name],
) -> Result<(), Stop>
    ensures { Changes (with_each ops.old priority kind names.now) ops.new result }
{
    for name in names {
        add(alloc, ops, priority, kind, name)?;
    }
    Ok(())
}

/// Changes the table as `op(Priority,Kind,Names)` says (ISO/IEC 13211-1:1995, 8.14.3). After a refusal the table may have
/// some of the operators.
pub fn change_operators(
    alloc: Global,
    ops: &mut OpTable,
    priority: &Term,
    kind_of: &Term,
    named: &Term,
) -> Result<(), Stop>
    ensures { Changes (operators_of ops.old priority.now kind_of.now named.now) ops.new result }
{
    let priority = number_up_to(MOST_PRIORITY, priority).ok_or(Stop::Unfit)?;
    let kind = kind(kind_of).ok_or(Stop::Unfit)?;
    let names = names(alloc, named)?;
    add_each(alloc, ops, priority, kind, names.as_slice())
}
