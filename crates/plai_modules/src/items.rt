//! The program with an item more of a module whose imports are known.
ghost use Rattle.std.specs.Prelude.{◌≡◌, IfOk, IsSome, OnOk};
ghost use Rattle.plai_terms.specs.Readable.{IsReadable};
ghost use Rattle.plai_clauses.specs.ClauseOf.{clause_of};
ghost use Rattle.plai_clauses.specs.Program.{module_in};
ghost use Rattle.plai_sources.specs.WellFormed.{IsWellFormedItem};
ghost use Rattle.plai_theory.specs.Words.{IsIn};
ghost use Rattle.plai_sources.specs.declared.items.NumberedItem.{NumberedItem};
ghost use Rattle.plai_modules.specs.Loading.{pred_spoken_of, with_clause_from, with_item, with_items};

use plai_clauses::{Check, Clause, ClauseFail, Entry, Imports, Program, spoken_of};
use plai_sources::{Item, NumberedItem};
use plai_terms::{Name, PredKey, ReadTerm};
use std::alloc::{AllocError, Global};

/// The predicate that the module with these imports speaks of.
fn pred_spoken_of(
    alloc: Global,
    module: &Name,
    imports: &Imports,
    name: &Name,
    arity: u32,
) -> Result<PredKey, AllocError>
    ensures { IfOk result (λ pred. pred ≡ pred_spoken_of «module».now imports.now name.now arity) }
{
    Ok(PredKey {
        module: spoken_of(module, imports, name, arity).copy(alloc)?,
        name: name.copy(alloc)?,
        arity,
    })
}

fn add_clause(
    alloc: Global,
    module: &Name,
    imports: &Imports,
    term: &ReadTerm,
    program: &mut Program,
) -> Result<(), AllocError>
    requires there { IsSome (module_in program.old.modules «module».now) }
    requires term { IsReadable term.now }
    ensures { OnOk result (program.new ≡ with_clause_from program.old «module».now (clause_of «module».now imports.now term.now)) }
{
    match Clause::from_term(alloc, module, imports, term) {
        Ok(clause) => program.add_clause(alloc, module, clause),
        Err(ClauseFail::Memory) => Err(AllocError),
        Err(ClauseFail::Refused(_)) => Ok(()),
    }
}

fn add_item(
    alloc: Global,
    module: &Name,
    imports: &Imports,
    item: Item,
    program: &mut Program,
) -> Result<(), AllocError>
    requires there { IsSome (module_in program.old.modules «module».now) }
    requires item { IsWellFormedItem «module».now item }
    ensures { OnOk result (program.new ≡ with_item «module».now imports.now program.old item) }
{
    match item {
        Item::UseModule(_, _) => Ok(()),
        Item::Entry(entry) => {
            let entry = Entry {
                module: module.copy(alloc)?,
                pred: pred_spoken_of(alloc, module, imports, &entry.name, entry.arity)?,
                pre: entry.pre,
            };
            program.add_entry(alloc, entry)
        }
        Item::Check(check) => {
            let check = Check {
                module: module.copy(alloc)?,
                kind: check.kind,
                pred: pred_spoken_of(alloc, module, imports, &check.name, check.arity)?,
                pre: check.pre,
                post: check.post,
            };
            program.add_check(alloc, check)
        }
        Item::Clause(term) => add_clause(alloc, module, imports, &term, program),
    }
}

/// Adds the items, in order, and lets each go.
pub(crate) fn add_items(
    alloc: Global,
    module: &Name,
    imports: &Imports,
    items: Vec<NumberedItem>,
    program: &mut Program,
) -> Result<(), AllocError>
    requires there { IsSome (module_in program.old.modules «module».now) }
    requires items { (numbered : NumberedItem) → IsIn numbered items.items → IsWellFormedItem «module».now numbered.item }
    ensures { OnOk result (program.new ≡ with_items «module».now imports.now program.old items.items) }
{
    for numbered in items {
        add_item(alloc, module, imports, numbered.item, program)?;
    }
    Ok(())
}
