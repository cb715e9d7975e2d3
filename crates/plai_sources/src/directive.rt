//! What a term of a file says: its module, a directive or a clause.
ghost use Rattle.std.specs.Prelude.{◌≡◌, Option, option_map, ok_or, []};
ghost use Rattle.plai_terms.specs.Readable.{IsReadable};
ghost use Rattle.plai_clauses.specs.ClauseOf.{clause_of};
ghost use Rattle.plai_sources.specs.Directives.{header_from, header_of, other_module, import_all, import_some, item_of_one, item_of_two, with_operators, directive_at, directive_of, clause_from, said_by};
ghost use Rattle.plai_sources.specs.Operators.{operators_of};
ghost use Rattle.plai_sources.specs.Properties.{entry_of, check_of};
ghost use Rattle.plai_sources.specs.Answering.{Gives, Answers, Says};

use crate::cause::LoadCause;
use crate::items::{Header, Item};
use crate::keys::keys;
use crate::operators::change_operators;
use crate::properties::{check, entry};
use crate::shape::{atom, one_argument, two_arguments};
use crate::stop::{Stop, TermFail};
use plai_clauses::{Clause, ClauseFail, Imports};
use plai_reader::OpTable;
use plai_terms::{Name, ReadTerm, Term};
use std::alloc::Global;

/// The value, or this cause where there is none.
pub fn or_refuse<T>(given: Result<T, Stop>, cause: LoadCause) -> Result<T, TermFail>
    ensures { (outcome : Option T) → Gives outcome given → Answers (ok_or outcome cause) result }
{
    match given {
        Ok(value) => Ok(value),
        Err(Stop::Memory) => Err(TermFail::Memory),
        Err(Stop::Unfit) => Err(TermFail::Refused(cause)),
    }
}

fn header_of_module(alloc: Global, module: &Term, exports: &Term) -> Result<Header, Stop>
    ensures { Gives (header_from («module».now, exports.now)) result }
{
    let name = atom(module).ok_or(Stop::Unfit)?;
    let exports = keys(alloc, exports)?;
    Ok(Header {
        module: name.copy(alloc)?,
        exports,
    })
}

/// What the first term of a file says: `:- module(M,[P/A,..])`.
pub fn header(alloc: Global, term: &Term) -> Result<Header, Stop>
    ensures { Gives (header_of term.now) result }
{
    let directive = one_argument(b":-", term).ok_or(Stop::Unfit)?;
    let (module, exports) = two_arguments(b"module", directive).ok_or(Stop::Unfit)?;
    header_of_module(alloc, module, exports)
}

/// The module of an import, which is another one.
fn other_module(alloc: Global, own: &Name, term: &Term) -> Result<Name, Stop>
    ensures { Gives (other_module own.now term.now) result }
{
    let name = atom(term).ok_or(Stop::Unfit)?;
    if name == own {
        return Err(Stop::Unfit);
    }
    Ok(name.copy(alloc)?)
}

fn import_all(alloc: Global, own: &Name, module: &Term) -> Result<Item, Stop>
    ensures { Gives (import_all own.now «module».now) result }
{
    Ok(Item::UseModule(other_module(alloc, own, module)?, None))
}

fn import_some(alloc: Global, own: &Name, module: &Term, exports: &Term) -> Result<Item, Stop>
    ensures { Gives (import_some own.now «module».now exports.now) result }
{
    let name = other_module(alloc, own, module)?;
    let keys = keys(alloc, exports)?;
    Ok(Item::UseModule(name, Some(keys)))
}

/// The item of `use_module(M)`.
fn use_all(alloc: Global, own: &Name, module: &Term) -> Result<Item, TermFail>
    ensures { Answers (ok_or (import_all own.now «module».now) LoadCause.BadDirective) result }
{
    or_refuse(import_all(alloc, own, module), LoadCause::BadDirective)
}

/// The item of `use_module(M,[P/A,..])`.
fn use_some(alloc: Global, own: &Name, module: &Term, exports: &Term) -> Result<Item, TermFail>
    ensures { Answers (ok_or (import_some own.now «module».now exports.now) LoadCause.BadDirective) result }
{
    or_refuse(
        import_some(alloc, own, module, exports),
        LoadCause::BadDirective,
    )
}

fn make_entry(alloc: Global, term: &Term) -> Result<Item, Stop>
    ensures { Gives (option_map Item.Entry (entry_of term.now)) result }
{
    Ok(Item::Entry(entry(alloc, term)?))
}

fn make_check(alloc: Global, term: &Term) -> Result<Item, Stop>
    ensures { Gives (option_map Item.Check (check_of term.now)) result }
{
    Ok(Item::Check(check(alloc, term)?))
}

/// The item of `entry`.
fn entry_item(alloc: Global, term: &Term) -> Result<Item, TermFail>
    ensures { Answers (ok_or (option_map Item.Entry (entry_of term.now)) LoadCause.BadProperty) result }
{
    or_refuse(make_entry(alloc, term), LoadCause::BadProperty)
}

/// The item of `check`.
fn check_item(alloc: Global, term: &Term) -> Result<Item, TermFail>
    ensures { Answers (ok_or (option_map Item.Check (check_of term.now)) LoadCause.BadProperty) result }
{
    or_refuse(make_check(alloc, term), LoadCause::BadProperty)
}

/// Changes the operators as `op` says. It leaves no item.
fn operator_directive(
    alloc: Global,
    ops: &mut OpTable,
    priority: &Term,
    kind: &Term,
    names: &Term,
) -> Result<Option<Item>, TermFail>
    ensures { Says (with_operators (operators_of ops.old priority.now kind.now names.now)) ops.new result }
{
    match change_operators(alloc, ops, priority, kind, names) {
        Ok(()) => Ok(None),
        Err(Stop::Memory) => Err(TermFail::Memory),
        Err(Stop::Unfit) => Err(TermFail::Refused(LoadCause::BadOperator)),
    }
}

/// The item of a directive of one argument.
fn item_of_one(alloc: Global, own: &Name, name: &Name, arg: &Term) -> Result<Item, TermFail>
    ensures { Answers (item_of_one own.now name.now arg.now) result }
{
    let name = name.as_slice();
    if name == b"use_module".as_slice() {
        return use_all(alloc, own, arg);
    }
    if name == b"entry".as_slice() {
        return entry_item(alloc, arg);
    }
    if name == b"check".as_slice() {
        return check_item(alloc, arg);
    }
    Err(TermFail::Refused(LoadCause::BadDirective))
}

/// The item of a directive of two arguments.
fn item_of_two(
    alloc: Global,
    own: &Name,
    name: &Name,
    first: &Term,
    second: &Term,
) -> Result<Item, TermFail>
    ensures { Answers (item_of_two own.now name.now first.now second.now) result }
{
    if name.as_slice() == b"use_module".as_slice() {
        return use_some(alloc, own, first, second);
    }
    Err(TermFail::Refused(LoadCause::BadDirective))
}

/// What a directive of that name with these arguments says: the item, if it is one. `op` changes the operators.
fn directive_at(
    alloc: Global,
    ops: &mut OpTable,
    own: &Name,
    name: &Name,
    args: &[Term],
) -> Result<Option<Item>, TermFail>
    ensures { Says (directive_at own.now ops.old name.now args.now) ops.new result }
{
    match args {
        [arg] => Ok(Some(item_of_one(alloc, own, name, arg)?)),
        [first, second] => Ok(Some(item_of_two(alloc, own, name, first, second)?)),
        [priority, kind, names] => {
            if name.as_slice() != b"op".as_slice() {
                return Err(TermFail::Refused(LoadCause::BadDirective));
            }
            operator_directive(alloc, ops, priority, kind, names)
        }
        _ => Err(TermFail::Refused(LoadCause::BadDirective)),
    }
}

fn directive(
    alloc: Global,
    ops: &mut OpTable,
    own: &Name,
    term: &Term,
) -> Result<Option<Item>, TermFail>
    ensures { Says (directive_of own.now ops.old term.now) ops.new result }
{
    match term {
        Term::Compound(name, args) => directive_at(alloc, ops, own, name, args.as_slice()),
        _ => Err(TermFail::Refused(LoadCause::BadDirective)),
    }
}

/// The clause that a term says, kept as the term.
fn clause(alloc: Global, own: &Name, read: ReadTerm) -> Result<Item, TermFail>
    requires { IsReadable read }
    ensures item { Answers (clause_from read (clause_of own.now [] read)) result }
{
    let imports = Imports::new(Vec::new(alloc));
    match Clause::from_term(alloc, own, &imports, &read) {
        Ok(_) => Ok(Item::Clause(read)),
        Err(ClauseFail::Memory) => Err(TermFail::Memory),
        Err(ClauseFail::Refused(cause)) => Err(TermFail::Refused(LoadCause::Clause(cause))),
    }
}

/// What a term behind the first one says in a module of that name: the item, if it is one. `op` changes the operators.
pub fn say(
    alloc: Global,
    ops: &mut OpTable,
    own: &Name,
    read: ReadTerm,
) -> Result<Option<Item>, TermFail>
    requires { IsReadable read }
    ensures says { Says (said_by own.now ops.old read) ops.new result }
{
    if let Some(term) = one_argument(b":-", &read.term) {
        return directive(alloc, ops, own, term);
    }
    if one_argument(b"?-", &read.term).is_some() {
        return Err(TermFail::Refused(LoadCause::BadDirective));
    }
    Ok(Some(clause(alloc, own, read)?))
}
