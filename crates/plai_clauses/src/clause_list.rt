//! The clauses of a predicate, which several programs may hold.
ghost use Rattle.std.specs.Prelude.{◌≡◌, ◌<◌, ◌++◌, [], ◌∷◌, length, IfOk, OnOk, OnErr};
ghost use Rattle.std.specs.List.{remove};

use crate::clause::Clause;
use std::alloc::{AllocError, Global};
use std::marker::Model;
use std::rc::Rc;

/// The clauses of a predicate in order. Several programs may hold them; a change copies them first where another one does.
/// Contracts see the list.
#[derive(Debug, Drop)]
pub struct ClauseList {
    shared: Option<Rc<Vec<Clause>>>,
}

impl Model for ClauseList {
    ghost use Rattle.std.specs.Prelude.{List, [], option_map, unwrap_or};
    ghost use Rattle.std.specs.Coded.{coded_list};
    ghost use Rattle.plai_clauses.specs.declared.clause.Clause.{Clause};
    ghost use Rattle.plai_clauses.specs.contracts.clause.Clause as clause;

    ghost Value = { List Clause };

    ghost coded = { coded_list clause.the_row.coded };

    ghost view = { λ l. unwrap_or (option_map (λ shared. shared.value.items) l.shared) [] };
}

fn held(shared: &Rc<Vec<Clause>>) -> &[Clause]
    ensures { result.now ≡ shared.now.value.items }
{
    shared.as_ref().as_slice()
}

fn copy_clauses(alloc: Global, clauses: &[Clause]) -> Result<Vec<Clause>, AllocError>
    ensures { IfOk result (λ copies. copies.items ≡ clauses.now) }
{
    let mut copies = Vec::new(alloc);
    for clause in clauses {
        copies.push(clause.copy(alloc)?)?;
    }
    Ok(copies)
}

// The list of one clause.
fn single(alloc: Global, clause: Clause) -> Result<Rc<Vec<Clause>>, AllocError>
    ensures { IfOk result (λ shared. shared.value.items ≡ clause ∷ []) }
{
    let mut clauses = Vec::new(alloc);
    clauses.push(clause)?;
    Ok(Rc::new(alloc, clauses)?)
}

// The clauses with one more, the last.
fn copied_with(
    alloc: Global,
    clauses: &[Clause],
    clause: Clause,
) -> Result<Rc<Vec<Clause>>, AllocError>
    ensures { IfOk result (λ shared. shared.value.items ≡ clauses.now ++ clause ∷ []) }
{
    let mut copies = copy_clauses(alloc, clauses)?;
    copies.push(clause)?;
    Ok(Rc::new(alloc, copies)?)
}

// Puts the clause last, into a copy where the list has other owners.
fn push(alloc: Global, shared: &mut Rc<Vec<Clause>>, clause: Clause) -> Result<(), AllocError>
    ensures ok { OnOk result (shared.new.value.items ≡ shared.old.value.items ++ clause ∷ []) }
    ensures err { OnErr result (shared.new.value.items ≡ shared.old.value.items) }
{
    match Rc::get_mut(shared) {
        Some(clauses) => {
            clauses.push(clause)?;
            Ok(())
        }
        None => {
            *shared = copied_with(alloc, held(shared), clause)?;
            Ok(())
        }
    }
}

// The clauses without the one at that place.
fn copied_without(
    alloc: Global,
    clauses: &[Clause],
    place: usize,
) -> Result<Rc<Vec<Clause>>, AllocError>
    requires { place < length clauses.now }
    ensures { IfOk result (λ shared. shared.value.items ≡ remove clauses.now place) }
{
    let mut copies = copy_clauses(alloc, clauses)?;
    let _ = copies.remove(place);
    Ok(Rc::new(alloc, copies)?)
}

// Takes the clause at that place away, from a copy where the list has other owners.
fn remove(alloc: Global, shared: &mut Rc<Vec<Clause>>, place: usize) -> Result<(), AllocError>
    requires { place < length shared.old.value.items }
    ensures ok { OnOk result (shared.new.value.items ≡ remove shared.old.value.items place) }
    ensures err { OnErr result (shared.new.value.items ≡ shared.old.value.items) }
{
    match Rc::get_mut(shared) {
        Some(clauses) => {
            let _ = clauses.remove(place);
            Ok(())
        }
        None => {
            *shared = copied_without(alloc, held(shared), place)?;
            Ok(())
        }
    }
}

impl ClauseList {
    /// No clauses. It takes no memory.
    pub(crate) fn new() -> ClauseList
        ensures { result ≡ [] }
    {
        ClauseList { shared: None }
    }

    pub(crate) fn as_slice(&self) -> &[Clause]
        ensures { result.now ≡ self.now }
    {
        match &self.shared {
            Some(shared) => held(shared),
            None => &[],
        }
    }

    /// The same clauses, for one more owner. Nothing of them is copied.
    pub(crate) fn share(&self) -> Result<ClauseList, AllocError>
        ensures { IfOk result (λ list. list ≡ self.now) }
    {
        match &self.shared {
            Some(shared) => Ok(ClauseList {
                shared: Some(shared.clone()?),
            }),
            None => Ok(ClauseList { shared: None }),
        }
    }

    /// Puts the clause last. After want of memory the list is as before.
    pub(crate) fn push(&mut self, alloc: Global, clause: Clause) -> Result<(), AllocError>
        ensures ok { OnOk result (self.new ≡ self.old ++ clause ∷ []) }
        ensures err { OnErr result (self.new ≡ self.old) }
    {
        match &mut self.shared {
            Some(shared) => push(alloc, shared, clause),
            None => {
                self.shared = Some(single(alloc, clause)?);
                Ok(())
            }
        }
    }

    /// Takes the clause at that place away. After want of memory the list is as before.
    pub(crate) fn remove(&mut self, alloc: Global, place: usize) -> Result<(), AllocError>
        requires { place < length self.old }
        ensures ok { OnOk result (self.new ≡ remove self.old place) }
        ensures err { OnErr result (self.new ≡ self.old) }
    {
        match &mut self.shared {
            Some(shared) => remove(alloc, shared, place),
            None => Ok(()),
        }
    }

    /// Takes all clauses away. It takes no memory.
    pub(crate) fn clear(&mut self)
        ensures { self.new ≡ [] }
    {
        self.shared = None;
    }
}
