// The names of files.
ghost use Rattle.std.specs.Prelude.{◌≡◌, IfOk};

use plai_base::Text;
use std::alloc::{AllocError, Global};
use std::marker::Model;

/// The names of files, in order, that contracts see as the list of these names.
#[derive(Debug, Drop)]
pub struct Files {
    names: Vec<Text>,
}

impl Model for Files {
    ghost use Rattle.std.specs.Prelude.{ℕ, List};

    ghost Value = { List (List ℕ) };

    ghost view = { λ f. f.names.items };
}

impl Files {
    /// These names.
    pub fn new(names: Vec<Text>) -> Files
        ensures { result ≡ names.items }
    {
        Files { names }
    }

    /// The names.
    pub fn as_slice(&self) -> &[Text]
        ensures { result.now ≡ self.now }
    {
        self.names.as_slice()
    }

    /// The names, given up.
    pub fn into_vec(self) -> Vec<Text>
        ensures { result.items ≡ self }
    {
        let Files { names } = self;
        names
    }
}

/// A copy of a word.
pub(crate) fn copied(alloc: Global, word: &str) -> Result<Text, AllocError>
    ensures { IfOk result (λ t. t ≡ word.now) }
{
    Ok(Text::new(String::from_str(alloc, word)?))
}
