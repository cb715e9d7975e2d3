//! What the directives `use_module` of a file import.
ghost use Rattle.std.specs.Prelude.{◌≡◌, OnOk};
ghost use Rattle.std.specs.List.{list_any};
ghost use Rattle.std.specs.Option.{option_copied};
ghost use Rattle.plai_sources.specs.Answering.{AnswersFile};
ghost use Rattle.plai_modules.specs.Importing.{file_of, keys_of, is_from_another, clashes, with_import, with_imports, imported, imported_from, behind_item, behind_term, imports_of, at_term};
ghost use Rattle.plai_modules.specs.Outcomes.{Leaves};

use crate::exporter::Exporter;
use crate::own_items::OwnItems;
use plai_clauses::Imports;
use plai_sources::{Item, ItemsFail, LoadCause, NumberedItem};
use plai_terms::{Listed, Name};
use std::alloc::{AllocError, Global};

/// The first of the files whose module has that name.
fn file_of<'a>(files: &'a [Exporter], name: &Name) -> Option<&'a Exporter>
    ensures { option_copied result ≡ file_of files.entry.now name.now }
{
    for file in files {
        if *file.module() == *name {
            return Some(file);
        }
    }
    None
}

fn is_from_another(imports: &Imports, from: &Name, key: &(Name, u32)) -> bool
    ensures { result ≡ is_from_another imports.now from.now key.now }
{
    match imports.exporter(&key.0, key.1) {
        Some(other) => *other != *from,
        None => false,
    }
}

fn clashes(items: &OwnItems<'_>, imports: &Imports, from: &Name, key: &(Name, u32)) -> bool
    ensures { result ≡ clashes items.now imports.now from.now key.now }
{
    items.has_clause(key) || is_from_another(imports, from, key)
}

fn some_clash(items: &OwnItems<'_>, imports: &Imports, from: &Name, keys: &[(Name, u32)]) -> bool
    ensures { result ≡ list_any (clashes items.now imports.now from.now) keys.now }
{
    keys.iter().any(|key| clashes(items, imports, from, key))
}

fn push_import(
    alloc: Global,
    from: &Name,
    imports: &mut Imports,
    key: &(Name, u32),
) -> Result<(), AllocError>
    ensures { OnOk result (imports.new ≡ with_import from.now imports.old key.now) }
{
    if imports.exporter(&key.0, key.1).is_none() {
        imports.push(alloc, key.0.copy(alloc)?, key.1, from.copy(alloc)?)?;
    }
    Ok(())
}

fn push_imports(
    alloc: Global,
    from: &Name,
    imports: &mut Imports,
    keys: &[(Name, u32)],
) -> Result<(), AllocError>
    ensures { OnOk result (imports.new ≡ with_imports from.now imports.old keys.now) }
{
    for key in keys {
        push_import(alloc, from, imports, key)?;
    }
    Ok(())
}

/// Imports these keys of a module, by the directive of that number.
fn import_keys(
    alloc: Global,
    items: &OwnItems<'_>,
    term: u64,
    from: &Name,
    file: &Exporter,
    keys: &[(Name, u32)],
    imports: &mut Imports,
) -> Result<(), ItemsFail>
    ensures { Leaves (at_term term (imported items.now imports.old from.now file.now.exports keys.now)) imports.new result }
{
    if !file.has_all(keys) {
        return Err(ItemsFail::Refused {
            term,
            cause: LoadCause::NotExported,
        });
    }
    if some_clash(items, imports, from, keys) {
        return Err(ItemsFail::Refused {
            term,
            cause: LoadCause::ImportClash,
        });
    }
    push_imports(alloc, from, imports, keys)?;
    Ok(())
}

fn keys_of<'a>(
    named: &'a Option<Listed<(Name, u32)>>,
    exports: &'a [(Name, u32)],
) -> &'a [(Name, u32)]
    ensures { result.now ≡ keys_of named.entry.now exports.entry.now }
{
    match named {
        Some(keys) => keys.as_slice(),
        None => exports,
    }
}

/// Imports what a directive names, all that the module exports where it names no keys.
fn import_from(
    alloc: Global,
    files: &[Exporter],
    items: &OwnItems<'_>,
    term: u64,
    from: &Name,
    named: &Option<Listed<(Name, u32)>>,
    imports: &mut Imports,
) -> Result<(), ItemsFail>
    ensures { Leaves (at_term term (imported_from items.now imports.old from.now named.now (file_of files.now from.now))) imports.new result }
{
    let Some(file) = file_of(files, from) else {
        return Err(ItemsFail::Refused {
            term,
            cause: LoadCause::UnknownModule,
        });
    };
    let keys = keys_of(named, file.exports());
    import_keys(alloc, items, term, from, file, keys, imports)
}

fn import_item(
    alloc: Global,
    files: &[Exporter],
    items: &OwnItems<'_>,
    numbered: &NumberedItem,
    imports: &mut Imports,
) -> Result<(), ItemsFail>
    ensures { Leaves (behind_term files.now items.now imports.old numbered.now) imports.new result }
{
    match &numbered.item {
        Item::UseModule(from, named) => {
            import_from(alloc, files, items, numbered.term, from, named, imports)
        }
        _ => Ok(()),
    }
}

/// What the file with these items imports, all files being these: `Refused` exactly where a directive of it imports what
/// it can't, with the first such.
pub(crate) fn imports_of(
    alloc: Global,
    files: &[Exporter],
    items: &OwnItems<'_>,
) -> Result<Imports, ItemsFail>
    ensures { AnswersFile (imports_of files.now items.now) result }
{
    let mut imports = Imports::empty(alloc);
    for numbered in items.as_slice() {
        import_item(alloc, files, items, numbered, &mut imports)?;
    }
    Ok(imports)
}
