ghost use Rattle.std.specs.Prelude.{◌≡◌, ℕ, [], ◌∷◌, ◌++◌, nat_eq, List, IfOk, OnOk, OnErr, if◌then◌else◌};
ghost use Rattle.std.specs.Cmp.Lexicographic.{pointwise};
ghost use Rattle.std.specs.Option.{option_copied};
ghost use Rattle.plai_clauses.specs.ClauseOf.{exporter, spoken_of};
ghost use Rattle.plai_clauses.specs.Exporters.{exporter_by, exporters_in};

use indexmap::IndexMap;
use plai_terms::Name;
use std::alloc::{AllocError, Global};
use std::marker::Model;

/// The modules that export the predicates of one name, each with the number of arguments. Contracts see the list.
#[derive(Debug, Drop)]
struct Exporters {
    list: Vec<(u32, Name)>,
}

impl Model for Exporters {
    ghost use Rattle.std.specs.Prelude.{ℕ, List};
    ghost use Rattle.std.specs.Coded.{coded_list, coded×, coded_ℕ};

    ghost Value = { List (ℕ × List ℕ) };

    ghost view = { λ e. e.list.items };
}

impl Exporters {
    fn new(alloc: Global) -> Exporters
        ensures { result ≡ [] }
    {
        Exporters {
            list: Vec::new(alloc),
        }
    }

    fn push(&mut self, arity: u32, module: Name) -> Result<(), AllocError>
        ensures ok { OnOk result (self.new ≡ self.old ++ (arity, «module») ∷ []) }
        ensures err { OnErr result (self.new ≡ self.old) }
    {
        self.list.push((arity, module))?;
        Ok(())
    }

    /// The first module for that number of arguments.
    fn find(&self, arity: u32) -> Option<&Name>
        ensures { option_copied result ≡ exporter_by self.now arity }
    {
        find_exporter(self.list.as_slice(), arity)
    }
}

fn find_exporter<'a>(list: &'a [(u32, Name)], arity: u32) -> Option<&'a Name>
    ensures { option_copied result ≡ exporter_by list.entry.now arity }
{
    for exporter in list {
        if exporter.0 == arity {
            return Some(&exporter.1);
        }
    }
    None
}

/// The exporting modules of imports, found by the names of the predicates.
type Index = IndexMap<Name, Exporters>;

/// Adds an exporting module for a name.
fn note(
    alloc: Global,
    index: &mut Index,
    name: Name,
    arity: u32,
    module: Name,
) -> Result<(), AllocError>
    ensures { OnOk result ((other : List ℕ) → exporters_in index.new.entries other
        ≡ exporters_in index.old.entries other ++ (if pointwise nat_eq name other then (arity, «module») ∷ [] else [])) }
{
    if let Some(exporters) = index.get_mut(&name) {
        return exporters.push(arity, module);
    }
    let mut exporters = Exporters::new(alloc);
    exporters.push(arity, module)?;
    index.insert(name, exporters)?;
    Ok(())
}

/// What a module imports: predicates, by name and number of arguments, each with the module that exports it. Of several
/// items with one name and number of arguments the first counts. Contracts see the list.
#[derive(Debug, Drop)]
pub struct Imports {
    list: Vec<(Name, u32, Name)>,
    index: Option<Index>,
}

impl Model for Imports {
    ghost use Rattle.std.specs.Prelude.{ℕ, List, IfSome, ◌≡◌};
    ghost use Rattle.std.specs.Coded.{coded_list, coded×, coded_ℕ};
    ghost use Rattle.plai_clauses.specs.ClauseOf.{exporter};
    ghost use Rattle.plai_clauses.specs.Exporters.{exporter_by, exporters_in};

    ghost Value = { List (List ℕ × ℕ × List ℕ) };

    ghost view = { λ i. i.list.items };

    ghost invariant = { λ i. IfSome i.index (λ index. (name : List ℕ) (arity : ℕ) → exporter i.list.items name arity ≡ exporter_by (exporters_in index.entries name) arity) };
}

impl Imports {
    /// The imports of this list. They are looked up in the list, from its front.
    pub fn new(list: Vec<(Name, u32, Name)>) -> Imports
        ensures { result ≡ list.items }
    {
        Imports { list, index: None }
    }

    /// No imports. Those that are added are found by their names. It takes no memory.
    pub fn empty(alloc: Global) -> Imports
        ensures { result ≡ [] }
    {
        Imports {
            list: Vec::new(alloc),
            index: Some(IndexMap::new(alloc)),
        }
    }

    /// Adds an import behind the others. After want of memory the imports are as before.
    pub fn push(
        &mut self,
        alloc: Global,
        name: Name,
        arity: u32,
        module: Name,
    ) -> Result<(), AllocError>
        ensures ok { OnOk result (self.new ≡ self.old ++ (name, arity, «module») ∷ []) }
        ensures err { OnErr result (self.new ≡ self.old) }
    {
        let key = name.copy(alloc)?;
        let from = module.copy(alloc)?;
        let index = self.index.take();
        self.list.push((name, arity, module))?;
        if let Some(mut index) = index {
            // Without memory for it the imports are looked up in the list from now on.
            if note(alloc, &mut index, key, arity, from).is_ok() {
                self.index = Some(index);
            }
        }
        Ok(())
    }

    /// The module of the first import of that name and number of arguments: `None` exactly where none of them is
    /// imported. It takes no memory.
    pub fn exporter(&self, name: &Name, arity: u32) -> Option<&Name>
        ensures { option_copied result ≡ exporter self.now name.now arity }
    {
        match &self.index {
            Some(index) => index.get(name)?.find(arity),
            None => exporter(self.list.as_slice(), name, arity),
        }
    }

    /// The list.
    pub fn as_slice(&self) -> &[(Name, u32, Name)]
        ensures { result.now ≡ self.now }
    {
        self.list.as_slice()
    }

    /// The list, given up.
    pub fn into_vec(self) -> Vec<(Name, u32, Name)>
        ensures { result.items ≡ self }
    {
        let Imports { list, index: _ } = self;
        list
    }

    /// Equal imports, which are found by their names.
    pub fn copy(&self, alloc: Global) -> Result<Imports, AllocError>
        ensures { IfOk result (λ imports. imports ≡ self.now) }
    {
        copy_imports(alloc, self.as_slice())
    }
}

fn copy_imports(alloc: Global, list: &[(Name, u32, Name)]) -> Result<Imports, AllocError>
    ensures { IfOk result (λ imports. imports ≡ list.now) }
{
    let mut copy = Imports::empty(alloc);
    for import in list {
        let name = import.0.copy(alloc)?;
        copy.push(alloc, name, import.1, import.2.copy(alloc)?)?;
    }
    Ok(copy)
}

/// The module of the first import of that name and number of arguments: `None` exactly where none of them is imported. It
/// takes no memory.
pub fn exporter<'a>(list: &'a [(Name, u32, Name)], name: &Name, arity: u32) -> Option<&'a Name>
    ensures { option_copied result ≡ exporter list.entry.now name.now arity }
{
    for import in list {
        if import.0 == *name && import.1 == arity {
            return Some(&import.2);
        }
    }
    None
}

/// The module whose predicate of that name and number of arguments a module with these imports speaks of: the exporting
/// one where it imports the key, else itself. It takes no memory.
pub fn spoken_of<'a>(module: &'a Name, imports: &'a Imports, name: &Name, arity: u32) -> &'a Name
    ensures { result.now ≡ spoken_of «module».entry.now imports.entry.now name.now arity }
{
    match imports.exporter(name, arity) {
        Some(exporter) => exporter,
        None => module,
    }
}
