//! Programs, and the calls that build and change one.
ghost use Rattle.std.specs.Prelude.{◌≡◌, None, IsSome, ◌≤◌, ◌-◌, ◌^◌, length, min, IfOk, OnOk, OnErr};
ghost use Rattle.std.specs.Option.{option_copied};
ghost use Rattle.plai_clauses.specs.WellFormed.{IsWellFormedClause, IsWellFormedEntry, IsWellFormedCheck};
ghost use Rattle.plai_clauses.specs.Invariant.{IsProgram};
ghost use Rattle.plai_clauses.specs.Program.{clauses_of, module_in, items_of, resolved, empty, with_module, with_clause_of, without_clause, without_clauses, with_entry, with_check, without_entry, without_check, homes_of_entries, homes_of_checks, IsNumber};

use crate::check::Check;
use crate::clause::Clause;
use crate::definition::{
    Definitions, clauses_in, clear_clauses, copy_definitions, count_clauses, push_clause,
    remove_clause,
};
use crate::entry::Entry;
use crate::homes::{place_behind, place_of};
use crate::imports::spoken_of;
use crate::keys::is_builtin;
use crate::modules::{Module, copy_modules, module_in};
use indexmap::IndexMap;
use plai_terms::{Name, PredKey};
use std::alloc::{AllocError, Global};
use std::marker::Model;

/// A program: modules, the clauses of each predicate in order, and entries and checks, by module name, within a module in
/// order. Contracts see these as plain lists. Clauses, entries and checks are well formed.
#[derive(Debug, Drop)]
pub struct Program {
    modules: Vec<Module>,
    definitions: Definitions,
    entries: Vec<Entry>,
    checks: Vec<Check>,
}

impl Model for Program {
    ghost use Rattle.plai_clauses.specs.Program.{ProgramView};
    ghost use Rattle.plai_clauses.specs.Invariant.{IsProgram};
    ghost use Rattle.plai_clauses.specs.Codes.{program_code};
    ghost use Rattle.plai_clauses.specs.Keyed.{definitions_in};

    ghost Value = { ProgramView };

    ghost coded = { program_code };

    ghost view = { λ p. record { modules = p.modules.items; definitions = definitions_in p.definitions.entries; entries = p.entries.items; checks = p.checks.items } };

    ghost invariant = { λ p. IsProgram (record { modules = p.modules.items; definitions = definitions_in p.definitions.entries; entries = p.entries.items; checks = p.checks.items }) };
}

fn copy_entries(alloc: Global, entries: &[Entry]) -> Result<Vec<Entry>, AllocError>
    ensures { IfOk result (λ copies. copies.items ≡ entries.now) }
{
    let mut copies = Vec::new(alloc);
    for entry in entries {
        copies.push(entry.copy(alloc)?)?;
    }
    Ok(copies)
}

fn copy_checks(alloc: Global, checks: &[Check]) -> Result<Vec<Check>, AllocError>
    ensures { IfOk result (λ copies. copies.items ≡ checks.now) }
{
    let mut copies = Vec::new(alloc);
    for check in checks {
        copies.push(check.copy(alloc)?)?;
    }
    Ok(copies)
}

impl Program {
    /// The program without modules. It takes no memory.
    pub fn new(alloc: Global) -> Program
        ensures { result ≡ empty }
    {
        Program {
            modules: Vec::new(alloc),
            definitions: IndexMap::new(alloc),
            entries: Vec::new(alloc),
            checks: Vec::new(alloc),
        }
    }

    /// An equal program. The clauses of each predicate have one more owner; nothing of them is copied.
    pub fn copy(&self, alloc: Global) -> Result<Program, AllocError>
        ensures { IfOk result (λ copy. copy ≡ self.now) }
    {
        Ok(Program {
            modules: copy_modules(alloc, &self.modules)?,
            definitions: copy_definitions(alloc, &self.definitions)?,
            entries: copy_entries(alloc, &self.entries)?,
            checks: copy_checks(alloc, &self.checks)?,
        })
    }

    /// Puts a module behind the others. After want of memory the program is as before.
    pub fn add_module(&mut self, _alloc: Global, module: Module) -> Result<(), AllocError>
        requires { module_in self.old.modules «module».name ≡ None }
        ensures ok { OnOk result (self.new ≡ with_module self.old «module») }
        ensures err { OnErr result (self.new ≡ self.old) }
    {
        self.modules.push(module)?;
        Ok(())
    }

    /// Puts the clause last in its predicate of the module, which is there. The clause is well formed: its head and each
    /// literal have at most 16 arguments; the head's arguments, the variables and the widest literal's arguments are together
    /// at most 64; its variables are numbered below their count; and a literal's target is a builtin exactly where its key
    /// is one, else a predicate of its name and arity. After want of memory the program is as before.
    pub fn add_clause(
        &mut self,
        alloc: Global,
        module: &Name,
        clause: Clause,
    ) -> Result<(), AllocError>
        requires there { IsSome (module_in self.old.modules «module».now) }
        requires clause { IsWellFormedClause clause }
        ensures ok { OnOk result (self.new ≡ with_clause_of self.old «module».now clause) }
        ensures err { OnErr result (self.new ≡ self.old) }
    {
        let pred = PredKey {
            module: module.copy(alloc)?,
            name: clause.name.copy(alloc)?,
            arity: clause.head.as_slice().len() as u32,
        };
        push_clause(alloc, &mut self.definitions, pred, clause)?;
        Ok(())
    }

    /// Takes the predicate's clause of that number, from 1, away. After want of memory the program is as before.
    pub fn remove_clause(
        &mut self,
        alloc: Global,
        pred: &PredKey,
        number: u64,
    ) -> Result<(), AllocError>
        requires some { 1 ≤ number }
        requires there { number ≤ length (clauses_of self.old pred.now) }
        ensures ok { OnOk result (self.new ≡ without_clause self.old pred.now number) }
        ensures err { OnErr result (self.new ≡ self.old) }
    {
        remove_clause(alloc, &mut self.definitions, pred, (number - 1) as usize)?;
        Ok(())
    }

    /// Takes all clauses of the predicate away. It takes no memory.
    pub fn clear(&mut self, pred: &PredKey)
        ensures { self.new ≡ without_clauses self.old pred.now }
    {
        clear_clauses(&mut self.definitions, pred);
    }

    /// Puts the entry last in its module, which is there. Its predicate has at most 16 arguments, and its properties speak
    /// of these. After want of memory the program is as before.
    pub fn add_entry(&mut self, _alloc: Global, entry: Entry) -> Result<(), AllocError>
        requires there { IsSome (module_in self.old.modules entry.«module») }
        requires entry { IsWellFormedEntry entry }
        ensures ok { OnOk result (self.new ≡ with_entry self.old entry) }
        ensures err { OnErr result (self.new ≡ self.old) }
    {
        let place = place_behind(&self.entries, &entry.module);
        self.entries.insert(place, entry)?;
        Ok(())
    }

    /// Puts the check last in its module, which is there. Its predicate has at most 16 arguments, and its properties speak
    /// of these. After want of memory the program is as before.
    pub fn add_check(&mut self, _alloc: Global, check: Check) -> Result<(), AllocError>
        requires there { IsSome (module_in self.old.modules check.«module») }
        requires check { IsWellFormedCheck check }
        ensures ok { OnOk result (self.new ≡ with_check self.old check) }
        ensures err { OnErr result (self.new ≡ self.old) }
    {
        let place = place_behind(&self.checks, &check.module);
        self.checks.insert(place, check)?;
        Ok(())
    }

    /// Takes the module's entry of that number, from 1, away. It takes no memory.
    pub fn remove_entry(&mut self, module: &Name, number: u64)
        requires { IsNumber «module».now (homes_of_entries self.old.entries) number }
        ensures { self.new ≡ without_entry self.old «module».now number }
    {
        let place = place_of(&self.entries, module, number);
        let _ = self.entries.remove(place);
    }

    /// Takes the module's check of that number, from 1, away. It takes no memory.
    pub fn remove_check(&mut self, module: &Name, number: u64)
        requires { IsNumber «module».now (homes_of_checks self.old.checks) number }
        ensures { self.new ≡ without_check self.old «module».now number }
    {
        let place = place_of(&self.checks, module, number);
        let _ = self.checks.remove(place);
    }

    /// The module of that name: `None` exactly where no module has it. It takes no memory.
    pub fn module(&self, name: &Name) -> Option<&Module>
        ensures { option_copied result ≡ module_in self.now.modules name.now }
    {
        module_in(&self.modules, name)
    }

    /// What holds of every program: clauses, entries and checks are well formed, and entries and checks stand by module
    /// name. It does nothing.
    pub fn is_program(&self)
        ensures { IsProgram self.now }
    {
        let _ = &self.modules;
    }

    /// How many clauses, entries and checks there are together, or the largest `u64`. It takes no memory.
    pub fn items(&self) -> u64
        ensures { result ≡ min (items_of self.now) (2 ^ 64 - 1) }
    {
        count_clauses(&self.definitions)
            .saturating_add(self.entries.len() as u64)
            .saturating_add(self.checks.len() as u64)
    }

    /// The predicate's clauses in order, none for an undefined one. It takes no memory.
    pub fn clauses_of(&self, pred: &PredKey) -> &[Clause]
        ensures { result.now ≡ clauses_of self.now pred.now }
    {
        clauses_in(&self.definitions, pred)
    }

    /// The entries of all modules, by module name, within a module in order. It takes no memory.
    pub fn entries(&self) -> &[Entry]
        ensures { result.now ≡ self.now.entries }
    {
        self.entries.as_slice()
    }

    /// The checks of all modules, by module name, within a module in order. It takes no memory.
    pub fn checks(&self) -> &[Check]
        ensures { result.now ≡ self.now.checks }
    {
        self.checks.as_slice()
    }

    /// The module whose predicate the module speaks of by that name and number of arguments: the exporting one where it
    /// imports the key, else itself. `None` exactly where the module isn't there or the key is a builtin's. It takes no
    /// memory.
    pub fn resolve(&self, module: &Name, name: &Name, arity: u32) -> Option<&Name>
        ensures { option_copied result ≡ resolved self.now «module».now name.now arity }
    {
        let home = module_in(&self.modules, module)?;
        if is_builtin(name, arity) {
            return None;
        }
        Some(spoken_of(&home.name, &home.imports, name, arity))
    }
}
