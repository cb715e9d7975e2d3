//! The clauses, entries and assertions that the terms of edits say.
ghost use Rattle.std.specs.Prelude.{◌≡◌, Ok, Some, IfOk, IsSome};
ghost use Rattle.plai_terms.specs.Readable.{IsReadable};
ghost use Rattle.plai_clauses.specs.Program.{module_in};
ghost use Rattle.plai_clauses.specs.WellFormed.{IsWellFormedClause, IsWellFormedEntry, IsWellFormedCheck};
ghost use Rattle.plai_sources.specs.Properties.{entry_of, check_of};
ghost use Rattle.plai_script.specs.Edits.{pred_spoken_of, is_directive, clause_said, unless_imported, entry_said, check_said, clause_in, entry_in, check_in};
ghost use Rattle.plai_script.specs.Answering.{Answers};

use crate::fail::EditFail;
use plai_clauses::{
    Check, Clause, ClauseCause, ClauseFail, EditCause, Entry, Imports, Program, spoken_of,
};
use plai_sources::{CheckItem, EntryItem, Stop, check, entry, one_argument};
use plai_terms::{Name, PredKey, ReadTerm, Term};
use std::alloc::{AllocError, Global};

/// The predicate that the module with these imports speaks of.
fn pred_spoken_of(
    alloc: Global,
    module: &Name,
    imports: &Imports,
    name: Name,
    arity: u32,
) -> Result<PredKey, AllocError>
    ensures { IfOk result (λ pred. pred ≡ pred_spoken_of «module».now imports.now name arity) }
{
    Ok(PredKey {
        module: spoken_of(module, imports, &name, arity).copy(alloc)?,
        name,
        arity,
    })
}

/// Whether a term is a directive or a query.
pub(crate) fn is_directive(term: &Term) -> bool
    ensures { result ≡ is_directive term.now }
{
    one_argument(b":-", term).is_some() || one_argument(b"?-", term).is_some()
}

/// The clause that a term says in the module with these imports, which don't import its predicate.
fn make_clause(
    alloc: Global,
    module: &Name,
    imports: &Imports,
    read: &ReadTerm,
) -> Result<Clause, EditFail>
    requires readable { IsReadable read.now }
    ensures answer { Answers (unless_imported imports.now (clause_said «module».now imports.now read.now)) result }
    ensures well_formed { IfOk result IsWellFormedClause }
{
    if is_directive(&read.term) {
        return Err(EditFail::Refused(EditCause::Clause(ClauseCause::NotAClause)));
    }
    match Clause::from_term(alloc, module, imports, read) {
        Ok(clause) => unless_imported(imports, clause),
        Err(ClauseFail::Memory) => Err(EditFail::Memory),
        Err(ClauseFail::Refused(cause)) => Err(EditFail::Refused(EditCause::Clause(cause))),
    }
}

/// The clause, unless its predicate is imported.
fn unless_imported(imports: &Imports, clause: Clause) -> Result<Clause, EditFail>
    requires well_formed { IsWellFormedClause clause }
    ensures answer { Answers (unless_imported imports.now (Ok clause)) result }
    ensures well_formed { IfOk result IsWellFormedClause }
{
    let arity = clause.head.as_slice().len() as u32;
    if imports.exporter(&clause.name, arity).is_some() {
        return Err(EditFail::Refused(EditCause::ImportClash));
    }
    Ok(clause)
}

/// The clause that a term says in a module of the program.
pub(crate) fn clause_in(
    alloc: Global,
    program: &Program,
    module: &Name,
    read: &ReadTerm,
) -> Result<Clause, EditFail>
    requires readable { IsReadable read.now }
    ensures answer { Answers (clause_in program.now.modules «module».now read.now) result }
    ensures well_formed { IfOk result IsWellFormedClause }
    ensures there { IfOk result (λ _. IsSome (module_in program.now.modules «module».now)) }
{
    match program.module(module) {
        Some(home) => make_clause(alloc, module, &home.imports, read),
        None => Err(EditFail::Refused(EditCause::UnknownModule)),
    }
}

fn make_entry(
    alloc: Global,
    module: &Name,
    imports: &Imports,
    item: EntryItem,
) -> Result<Entry, AllocError>
    ensures { IfOk result (λ entry. entry_said «module».now imports.now (Some item) ≡ Ok entry) }
{
    let EntryItem { name, arity, pre } = item;
    Ok(Entry {
        module: module.copy(alloc)?,
        pred: pred_spoken_of(alloc, module, imports, name, arity)?,
        pre,
    })
}

/// The entry that a term says in the module with these imports.
fn entry_said(
    alloc: Global,
    module: &Name,
    imports: &Imports,
    term: &Term,
) -> Result<Entry, EditFail>
    ensures answer { Answers (entry_said «module».now imports.now (entry_of term.now)) result }
    ensures well_formed { IfOk result IsWellFormedEntry }
{
    match entry(alloc, term) {
        Ok(item) => Ok(make_entry(alloc, module, imports, item)?),
        Err(Stop::Memory) => Err(EditFail::Memory),
        Err(Stop::Unfit) => Err(EditFail::Refused(EditCause::BadProperty)),
    }
}

/// The entry that a term says in a module of the program.
pub(crate) fn entry_in(
    alloc: Global,
    program: &Program,
    module: &Name,
    read: &ReadTerm,
) -> Result<Entry, EditFail>
    ensures answer { Answers (entry_in program.now.modules «module».now read.now) result }
    ensures well_formed { IfOk result IsWellFormedEntry }
    ensures there { IfOk result (λ entry. IsSome (module_in program.now.modules entry.«module»)) }
{
    match program.module(module) {
        Some(home) => entry_said(alloc, module, &home.imports, &read.term),
        None => Err(EditFail::Refused(EditCause::UnknownModule)),
    }
}

fn make_check(
    alloc: Global,
    module: &Name,
    imports: &Imports,
    item: CheckItem,
) -> Result<Check, AllocError>
    ensures { IfOk result (λ check. check_said «module».now imports.now (Some item) ≡ Ok check) }
{
    let CheckItem {
        kind,
        name,
        arity,
        pre,
        post,
    } = item;
    Ok(Check {
        module: module.copy(alloc)?,
        kind,
        pred: pred_spoken_of(alloc, module, imports, name, arity)?,
        pre,
        post,
    })
}

/// The assertion that a term says in the module with these imports.
fn check_said(
    alloc: Global,
    module: &Name,
    imports: &Imports,
    term: &Term,
) -> Result<Check, EditFail>
    ensures answer { Answers (check_said «module».now imports.now (check_of term.now)) result }
    ensures well_formed { IfOk result IsWellFormedCheck }
{
    match check(alloc, term) {
        Ok(item) => Ok(make_check(alloc, module, imports, item)?),
        Err(Stop::Memory) => Err(EditFail::Memory),
        Err(Stop::Unfit) => Err(EditFail::Refused(EditCause::BadProperty)),
    }
}

/// The assertion that a term says in a module of the program.
pub(crate) fn check_in(
    alloc: Global,
    program: &Program,
    module: &Name,
    read: &ReadTerm,
) -> Result<Check, EditFail>
    ensures answer { Answers (check_in program.now.modules «module».now read.now) result }
    ensures well_formed { IfOk result IsWellFormedCheck }
    ensures there { IfOk result (λ check. IsSome (module_in program.now.modules check.«module»)) }
{
    match program.module(module) {
        Some(home) => check_said(alloc, module, &home.imports, &read.term),
        None => Err(EditFail::Refused(EditCause::UnknownModule)),
    }
}
