ghost use Rattle.std.specs.Prelude.{◌≡◌, IfOk};
ghost use Rattle.std.specs.Option.{option_copied};
ghost use Rattle.plai_clauses.specs.Program.{module_in};

use crate::imports::Imports;
use plai_terms::{Listed, Name};
use std::alloc::{AllocError, Global};

/// A module: its name, the names and numbers of arguments that it exports, and what it imports.
#[derive(Debug, Drop)]
pub struct Module {
    pub name: Name,
    pub exports: Listed<(Name, u32)>,
    pub imports: Imports,
}

fn copy_exports(alloc: Global, exports: &[(Name, u32)]) -> Result<Vec<(Name, u32)>, AllocError>
    ensures { IfOk result (λ copies. copies.items ≡ exports.now) }
{
    let mut copies = Vec::new(alloc);
    for export in exports {
        copies.push((export.0.copy(alloc)?, export.1))?;
    }
    Ok(copies)
}

impl Module {
    /// An equal module.
    pub fn copy(&self, alloc: Global) -> Result<Module, AllocError>
        ensures { IfOk result (λ copy. copy ≡ self.now) }
    {
        Ok(Module {
            name: self.name.copy(alloc)?,
            exports: Listed::new(copy_exports(alloc, self.exports.as_slice())?),
            imports: self.imports.copy(alloc)?,
        })
    }
}

pub(crate) fn copy_modules(alloc: Global, modules: &[Module]) -> Result<Vec<Module>, AllocError>
    ensures { IfOk result (λ copies. copies.items ≡ modules.now) }
{
    let mut copies = Vec::new(alloc);
    for item in modules {
        copies.push(item.copy(alloc)?)?;
    }
    Ok(copies)
}

/// The first module of that name.
pub(crate) fn module_in<'a>(modules: &'a [Module], name: &Name) -> Option<&'a Module>
    ensures { option_copied result ≡ module_in modules.entry.now name.now }
{
    for item in modules {
        if item.name == *name {
            return Some(item);
        }
    }
    None
}
