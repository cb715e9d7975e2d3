ghost use Rattle.std.specs.Prelude.{◌≡◌, List, None, IfOk, IsOk, OnOk, OnErr};
ghost use Rattle.std.specs.declared.option.Option.{Option};
ghost use Rattle.plai_domain.specs.declared.work.WorkEntry.{WorkEntry};
ghost use Rattle.plai_domain.specs.declared.work.WorkEntry.TheVariants.{Made, Woke, Evaluated, Grew};
ghost use Rattle.plai_domain.specs.Names.{name_of};
ghost use Rattle.plai_domain.specs.Noted.{noted};

use crate::domain::Domain;
use crate::key::Key;
use plai_terms::{Abs, RowName};
use std::alloc::{AllocError, Global};

/// A step of the work of an edit (Hermenegildo, Puebla, Marriott and Stuckey 2000). Clauses are numbered from 1.
#[derive(Debug, Drop)]
pub enum WorkEntry {
    /// The work of the edit of this number begins.
    Mark(u64),
    /// A row is made.
    Made(RowName),
    /// A dormant row is live again.
    Woke(RowName),
    /// A clause of a row is evaluated.
    Evaluated(RowName, u64),
    /// The answer of a row grows to this pattern.
    Grew(RowName, Abs),
}

impl WorkEntry {
    /// An equal entry.
    pub fn copy(&self, alloc: Global) -> Result<WorkEntry, AllocError>
        ensures { IfOk result (λ entry. entry ≡ self.now) }
    {
        match self {
            WorkEntry::Mark(number) => Ok(WorkEntry::Mark(*number)),
            WorkEntry::Made(name) => Ok(WorkEntry::Made(name.copy(alloc)?)),
            WorkEntry::Woke(name) => Ok(WorkEntry::Woke(name.copy(alloc)?)),
            WorkEntry::Evaluated(name, clause) => {
                Ok(WorkEntry::Evaluated(name.copy(alloc)?, *clause))
            }
            WorkEntry::Grew(name, answer) => {
                Ok(WorkEntry::Grew(name.copy(alloc)?, answer.copy(alloc)?))
            }
        }
    }
}

/// A pattern of a row's name.
fn row_name<D: Domain>(
    alloc: Global,
    domain: &D,
    name: &Key<D::Value>,
) -> Result<RowName, AllocError>
    ensures { IfOk result (λ row. row ≡ name_of D.value_of name.now) }
{
    Ok(RowName {
        pred: name.pred.copy(alloc)?,
        call: domain.to_abs(alloc, &name.call)?,
    })
}

/// Who is told of the work. An entry is noted as it is, or over a domain's own values: an object that keeps nothing makes no
/// pattern of these, and who calls can't tell.
pub trait Work {
    /// The entries noted, where the object tells them.
    ghost entries: { Self → Option (List WorkEntry) };

    /// Notes an entry, or leaves what was noted as before for want of memory.
    fn note(&mut self, alloc: Global, entry: &WorkEntry) -> Result<(), AllocError>
        ensures ok { OnOk result (entries self.new ≡ noted entry.now (entries self.old)) }
        ensures err { OnErr result (entries self.new ≡ entries self.old) };

    /// Notes that a row of this name is made.
    fn note_made<D: Domain>(
        &mut self,
        alloc: Global,
        domain: &D,
        name: &Key<D::Value>,
    ) -> Result<(), AllocError>
        ensures ok { OnOk result (entries self.new ≡ noted (Made (name_of D.value_of name.now)) (entries self.old)) }
        ensures err { OnErr result (entries self.new ≡ entries self.old) }
    {
        let entry = WorkEntry::Made(row_name(alloc, domain, name)?);
        self.note(alloc, &entry)
    }

    /// Notes that the row of this name is live again.
    fn note_woke<D: Domain>(
        &mut self,
        alloc: Global,
        domain: &D,
        name: &Key<D::Value>,
    ) -> Result<(), AllocError>
        ensures ok { OnOk result (entries self.new ≡ noted (Woke (name_of D.value_of name.now)) (entries self.old)) }
        ensures err { OnErr result (entries self.new ≡ entries self.old) }
    {
        let entry = WorkEntry::Woke(row_name(alloc, domain, name)?);
        self.note(alloc, &entry)
    }

    /// Notes that the clause, of this number from 1, of the row of this name is evaluated.
    fn note_evaluated<D: Domain>(
        &mut self,
        alloc: Global,
        domain: &D,
        name: &Key<D::Value>,
        clause: u64,
    ) -> Result<(), AllocError>
        ensures ok { OnOk result (entries self.new ≡ noted (Evaluated (name_of D.value_of name.now) clause) (entries self.old)) }
        ensures err { OnErr result (entries self.new ≡ entries self.old) }
    {
        let entry = WorkEntry::Evaluated(row_name(alloc, domain, name)?, clause);
        self.note(alloc, &entry)
    }

    /// Notes that the answer of the row of this name grows to this one.
    fn note_grew<D: Domain>(
        &mut self,
        alloc: Global,
        domain: &D,
        name: &Key<D::Value>,
        answer: &D::Value,
    ) -> Result<(), AllocError>
        ensures ok { OnOk result (entries self.new ≡ noted (Grew (name_of D.value_of name.now) (D.value_of answer.now)) (entries self.old)) }
        ensures err { OnErr result (entries self.new ≡ entries self.old) }
    {
        let row = row_name(alloc, domain, name)?;
        let entry = WorkEntry::Grew(row, domain.to_abs(alloc, answer)?);
        self.note(alloc, &entry)
    }
}

/// Keeps nothing, and tells nothing. Its notes take no memory.
#[derive(Clone, Copy, Debug)]
pub struct Tally {}

impl Tally {
    /// One that keeps nothing.
    pub fn new() -> Tally {
        Tally {}
    }
}

impl Work for Tally {
    ghost entries = { λ _. None };

    fn note(&mut self, _alloc: Global, _entry: &WorkEntry) -> Result<(), AllocError>
        ensures free { IsOk result }
    {
        Ok(())
    }

    fn note_made<D: Domain>(
        &mut self,
        _alloc: Global,
        _domain: &D,
        _name: &Key<D::Value>,
    ) -> Result<(), AllocError> {
        Ok(())
    }

    fn note_woke<D: Domain>(
        &mut self,
        _alloc: Global,
        _domain: &D,
        _name: &Key<D::Value>,
    ) -> Result<(), AllocError> {
        Ok(())
    }

    fn note_evaluated<D: Domain>(
        &mut self,
        _alloc: Global,
        _domain: &D,
        _name: &Key<D::Value>,
        _clause: u64,
    ) -> Result<(), AllocError> {
        Ok(())
    }

    fn note_grew<D: Domain>(
        &mut self,
        _alloc: Global,
        _domain: &D,
        _name: &Key<D::Value>,
        _answer: &D::Value,
    ) -> Result<(), AllocError> {
        Ok(())
    }
}
