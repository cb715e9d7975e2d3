//! The second pass over all files.
ghost use Rattle.std.specs.Prelude.{◌≡◌, ◌<◌, ◌≤◌, ◌^◌, All, IfOk, OnOk, None, length};
ghost use Rattle.plai_clauses.specs.Program.{module_in, items_of};
ghost use Rattle.plai_clauses.specs.WellFormed.{IsWellFormed};
ghost use Rattle.plai_sources.specs.WellFormed.{AreWellFormedItems};
ghost use Rattle.plai_modules.specs.Loading.{with_file, linked, program_of, counted_in};
ghost use Rattle.plai_sources.specs.Answering.{AnswersFile};
ghost use Rattle.plai_modules.specs.Importing.{imports_of};
ghost use Rattle.plai_modules.specs.Outcomes.{Answers, Leaves};

use crate::exporter::{Exporter, exporters_of};
use crate::fail::{LoadFail, fail_in};
use crate::import::imports_of;
use crate::items::add_items;
use crate::own_items::OwnItems;
use plai_clauses::{Imports, Module, Program, change_laws, clause_law};
use plai_sources::{FileItems, ItemsFail, LoadCause};
use std::alloc::{AllocError, Global};

/// Adds a file's module, which imports this, and all its items.
fn add_file(
    alloc: Global,
    file: FileItems,
    imports: Imports,
    program: &mut Program,
) -> Result<(), AllocError>
    requires new { module_in program.old.modules file.«module» ≡ None }
    requires items { AreWellFormedItems file }
    ensures { OnOk result (program.new ≡ with_file program.old file imports) }
{
    let module = Module {
        name: file.module.copy(alloc)?,
        exports: file.exports,
        imports: imports.copy(alloc)?,
    };
    program.add_module(alloc, module)?;
    let items = file.items.into_vec();
    add_items(alloc, &file.module, &imports, items, program)
}

/// What a file imports, all files being these.
fn file_imports(alloc: Global, files: &[Exporter], file: &FileItems) -> Result<Imports, ItemsFail>
    requires { AreWellFormedItems file.now }
    ensures { AnswersFile (imports_of files.now file.now.items) result }
{
    let own = OwnItems::new(alloc, file)?;
    imports_of(alloc, files, &own)
}

/// Adds a file, all files being these.
fn link_file(
    alloc: Global,
    files: &[Exporter],
    file: FileItems,
    program: &mut Program,
) -> Result<(), ItemsFail>
    requires { AreWellFormedItems file }
    ensures { Leaves (linked files.now program.old file) program.new result }
{
    if program.module(&file.module).is_some() {
        return Err(ItemsFail::Refused {
            term: 1,
            cause: LoadCause::DuplicateModule,
        });
    }
    let imports = file_imports(alloc, files, &file)?;
    add_file(alloc, file, imports, program)?;
    Ok(())
}

/// The program of files that were read: `Refused` exactly where the second pass refuses a term, with the first one.
pub(crate) fn program_of(alloc: Global, files: Vec<FileItems>) -> Result<Program, LoadFail>
    requires few { length files.items < 2 ^ 32 }
    requires items { All AreWellFormedItems files.items }
    ensures answer { Answers (program_of files.items) result }
    ensures well_formed { IfOk result IsWellFormed }
    ensures few { IfOk result (λ program. items_of program ≤ counted_in files.items) }
{
    change_laws();
    clause_law();
    let exporters = exporters_of(alloc, files.as_slice())?;
    let mut program = Program::new(alloc);
    let mut number: u32 = 0;
    for file in files {
        number += 1;
        match link_file(alloc, exporters.as_slice(), file, &mut program) {
            Ok(()) => {}
            Err(fail) => return Err(fail_in(number, fail)),
        }
    }
    Ok(program)
}
