//! Numbers variables.
ghost use Rattle.std.specs.Prelude.{◌≡◌, ◌<◌, ◌-◌, ◌^◌, IfOk, OnOk};
ghost use Rattle.plai_reader.specs.Variables.{no_variables, known, number_of, with_variable, number_at, after_token, is_blank};

use crate::by_name::ByName;
use plai_lex::TokenKind;
use plai_terms::Name;
use std::alloc::{AllocError, Global};

/// The numbers of the variables' names so far, and how many variables there are.
#[derive(Debug, Drop)]
pub struct Variables {
    pub numbers: ByName<u32>,
    pub count: u32,
}

fn is_blank(name: &Name) -> bool
    ensures { result ≡ is_blank name.now }
{
    name.as_slice() == b"_".as_slice()
}

impl Variables {
    /// No variable has a number.
    pub fn new(alloc: Global) -> Variables
        ensures { result ≡ no_variables }
    {
        Variables {
            numbers: ByName::new(alloc),
            count: 0,
        }
    }

    fn known(&self, name: &Name) -> Option<u32>
        ensures { result ≡ known self.now name.now }
    {
        if is_blank(name) {
            None
        } else {
            self.numbers.get(name)
        }
    }

    /// The number of a variable, which is noted if it is new.
    fn number(&mut self, alloc: Global, name: &Name) -> Result<u32, AllocError>
        requires { self.old.count < 2 ^ 32 - 1 }
        ensures number { IfOk result (λ n. n ≡ number_of self.old name.now) }
        ensures after { OnOk result (self.new ≡ with_variable self.old name.now) }
    {
        if let Some(known) = self.known(name) {
            return Ok(known);
        }
        let number = self.count;
        if !is_blank(name) {
            self.numbers.insert(alloc, name, number)?;
        }
        self.count = number + 1;
        Ok(number)
    }

    /// The number of a token that is a variable, which is noted if it is new.
    pub fn take(&mut self, alloc: Global, kind: &TokenKind) -> Result<u32, AllocError>
        requires { self.old.count < 2 ^ 32 - 1 }
        ensures number { IfOk result (λ n. n ≡ number_at self.old kind.now) }
        ensures after { OnOk result (self.new ≡ after_token self.old kind.now) }
    {
        match kind {
            TokenKind::Var(name) => self.number(alloc, name),
            _ => Ok(0),
        }
    }
}
