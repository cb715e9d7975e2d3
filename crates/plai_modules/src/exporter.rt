//! What files export.
ghost use Rattle.std.specs.Prelude.{◌≡◌, [], IfOk, map};
ghost use Rattle.std.specs.List.{list_all};
ghost use Rattle.plai_modules.specs.Importing.{is_exported, head_of_file};

use crate::keys::{KeySet, copy_keys, key_set};
use plai_sources::FileItems;
use plai_terms::{Listed, Name};
use std::alloc::{AllocError, Global};
use std::marker::Model;

/// A file's module and the keys that it exports, each found at once. Contracts see the file without its items.
#[derive(Drop)]
pub(crate) struct Exporter {
    module: Name,
    exports: Listed<(Name, u32)>,
    set: KeySet,
}

impl Model for Exporter {
    ghost use Rattle.std.specs.Prelude.{[]};
    ghost use Rattle.plai_sources.specs.declared.items.FileItems.{FileItems};
    ghost use Rattle.plai_sources.specs.contracts.items.FileItems as file;
    ghost use Rattle.plai_modules.specs.Importing.{is_exported};
    ghost use Rattle.plai_modules.specs.KeySets.{IsSetOf};

    ghost Value = { FileItems };

    ghost coded = { file.the_row.coded };

    ghost view = { λ e. record { «module» = e.«module»; exports = e.exports; items = []; count = 0 } };

    ghost invariant = { λ e. IsSetOf (is_exported e.exports) e.set.keys };
}

impl Exporter {
    fn new(alloc: Global, file: &FileItems) -> Result<Exporter, AllocError>
        ensures { IfOk result (λ e. e ≡ head_of_file file.now) }
    {
        let exports = file.exports.as_slice();
        Ok(Exporter {
            module: file.module.copy(alloc)?,
            exports: Listed::new(copy_keys(alloc, exports)?),
            set: key_set(alloc, exports)?,
        })
    }

    /// The name of the module.
    pub(crate) fn module(&self) -> &Name
        ensures { result.now ≡ self.now.«module» }
    {
        &self.module
    }

    /// The keys, in order.
    pub(crate) fn exports(&self) -> &[(Name, u32)]
        ensures { result.now ≡ self.now.exports }
    {
        self.exports.as_slice()
    }

    fn has(&self, key: &(Name, u32)) -> bool
        ensures { result ≡ is_exported self.now.exports key.now }
    {
        self.set.contains(key)
    }

    /// Whether each of the keys is among the exports.
    pub(crate) fn has_all(&self, keys: &[(Name, u32)]) -> bool
        ensures { result ≡ list_all (is_exported self.now.exports) keys.now }
    {
        keys.iter().all(|key| self.has(key))
    }
}

/// What each of the files exports.
pub(crate) fn exporters_of(alloc: Global, files: &[FileItems]) -> Result<Vec<Exporter>, AllocError>
    ensures { IfOk result (λ exporters. exporters.items ≡ map head_of_file files.now) }
{
    let mut exporters = Vec::new(alloc);
    for file in files {
        exporters.push(Exporter::new(alloc, file)?)?;
    }
    Ok(exporters)
}
