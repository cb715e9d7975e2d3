ghost use Rattle.std.specs.Prelude.{◌≡◌, ℕ, List, [], IsOk, Ok, Option, Some};
ghost use Rattle.plai_theory.specs.Words.{IsIn};
ghost use Rattle.plai_terms.specs.declared.read_term.ReadTerm.{ReadTerm};
ghost use Rattle.plai_clauses.specs.ClauseOf.{clause_of, exporter};
ghost use Rattle.plai_sources.specs.declared.items.FileItems.{FileItems};
ghost use Rattle.plai_sources.specs.declared.items.NumberedItem.{NumberedItem};
ghost use Rattle.plai_sources.specs.declared.items.Item.TheVariants.{UseModule};
ghost use Rattle.plai_modules.specs.Importing.{file_of, keys_of, imports_of, IsImport};

/// No clause of a file is lost in the second pass: a term that says a clause says one whatever its module imports.
pub fn clauses_are_kept()
    ensures { (module_name : List ℕ) (imports : List (List ℕ × ℕ × List ℕ)) (read : ReadTerm)
        → IsOk (clause_of module_name [] read) → IsOk (clause_of module_name imports read) }
{}

/// Where none of a file's directives `use_module` is refused, each key that one of them names is imported from that
/// directive's module.
pub fn named_keys_are_imported()
    ensures { (files : List FileItems) (items : List NumberedItem) (imports : List (List ℕ × ℕ × List ℕ)) → imports_of files items ≡ Ok imports
        → (numbered : NumberedItem) (from : List ℕ) (named : Option (List (List ℕ × ℕ))) (file : FileItems) (key : List ℕ × ℕ)
        → IsIn numbered items → numbered.item ≡ UseModule from named → file_of files from ≡ Some file → IsIn key (keys_of named file.exports)
        → exporter imports key.0 key.1 ≡ Some from }
{}

/// A file imports nothing else: each import is of a name and number of arguments that its module exports and for which
/// the file has no clause.
pub fn imports_are_exported()
    ensures { (files : List FileItems) (items : List NumberedItem) (imports : List (List ℕ × ℕ × List ℕ)) → imports_of files items ≡ Ok imports
        → (i : List ℕ × ℕ × List ℕ) → IsIn i imports → IsImport files items i }
{}
