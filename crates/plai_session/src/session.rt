//! Sessions.
ghost use Rattle.std.specs.Prelude.{◌≡◌, ◌⊎◌, ◌-◌, true, false, None, Ok, List, IfOk, IfSome, OnOk, OnErr, option_map};
ghost use Rattle.plai_terms.specs.declared.plain_row.PlainRow.{PlainRow};
ghost use Rattle.plai_clauses.specs.Program.{ProgramView};
ghost use Rattle.plai_assert.specs.Verdicts.{verdicts_of};
ghost use Rattle.plai_eval.specs.LeastTable.{IsLeastTable};
ghost use Rattle.plai_script.specs.Edits.{edited};
ghost use Rattle.plai_script.specs.Readable.{IsReadableEdit};
ghost use Rattle.plai_repair.specs.Lost.{AreTouched};
ghost use Rattle.plai_session.specs.Work.{IsWorkOf, IsCutOff};
ghost use Rattle.plai_session.specs.Sessions.{IsTableOf, AreRowsGiven, IsAnalysed, IsEdited, IsLost, IsRefusal, kept_program};

use crate::analysis::{Answered, analyse_edit};
use crate::answer::EditAnswer;
use indexmap::IndexSet;
use plai_analysis::{Analysed, rows_of_table};
use plai_assert::Verdict;
use plai_base::Steps;
use plai_clauses::Program;
use plai_domain::{Domain, Work};
use plai_render::{PlainRow, TextTable};
use plai_script::{Edit, EditFail, apply_noting};
use plai_terms::PredKey;
use std::alloc::{AllocError, Global};
use std::marker::Model;
use std::sync::ledger::Ledger;

/// A program under edits, with its table where there is one. Contracts see the domain, the limit of rows, the program, the
/// table as text, which is the least table of the program with its verdicts, and whether an edit met want of memory.
#[derive(Drop)]
pub struct Session<D: Domain> {
    domain: D,
    limit: u64,
    program: Program,
    analysed: Option<Analysed<D::Value>>,
    lost: bool,
}

impl<D: Domain> Model for Session<D> {
    ghost use Rattle.plai_session.specs.Codes.{session_code};
    ghost use Rattle.plai_session.specs.Sessions.{SessionView, IsKept, texts_in};

    ghost Value = { SessionView D };

    ghost coded = { session_code D.code };

    ghost view = { λ s. record { domain = s.domain; limit = s.limit; program = s.program; table = texts_in s.analysed; lost = s.lost } };

    ghost invariant = { λ s. IsKept D.value_of (D.plain s.domain) s.limit s.program s.analysed s.lost };
}

impl<D: Domain> Session<D> {
    /// Begins with a program and analyses it, as edit 0, with at most `limit` rows in the making: the work begins with
    /// `Mark(0)` and no rows. It never answers `Refused`. There is no session after want of memory.
    pub fn open<W: Work, L: Ledger>(
        alloc: Global,
        domain: D,
        program: Program,
        limit: u64,
        work: &mut W,
        steps: &mut Steps<L>,
    ) -> Result<(Session<D>, EditAnswer), AllocError>
        ensures begun { IfOk result (λ opened. (opened.0.domain ≡ domain) × (opened.0.limit ≡ limit) × (opened.0.program ≡ program) × (opened.0.lost ≡ false)) }
        ensures answer { IfOk result (λ opened. IsAnalysed (D.plain domain) limit program opened.0.table opened.1) }
        ensures work { IfOk result (λ opened. IsWorkOf (D.plain domain) limit None program 0 (W.entries work.old) (W.entries work.new) (steps.new - steps.old) opened.1) }
        ensures cut_off { OnErr result (IsCutOff (D.plain domain) limit None program 0 (W.entries work.old) (W.entries work.new)) }
    {
        let touched = IndexSet::new(alloc);
        let Answered { analysed, answer } = analyse_edit(
            alloc, &domain, &program, None, &program, &touched, limit, 0, work, steps,
        )?;
        let session = Session {
            domain,
            limit,
            program,
            analysed,
            lost: false,
        };
        Ok((session, answer))
    }

    /// Carries out the edit of this number. Refused exactly where the edit is, by its first cause: the session, the work and
    /// the steps are as before. Else the program is the edited one, the work of its analysis begins with `Mark(number)`, and the
    /// session has its table, or none after a stop. The terms in the edit are as those that were read: see
    /// [`read_edit`](plai_script::read_edit).
    ///
    /// The work begins with the rows of the table before the edit that the edit leaves, dormant, with their answers, and with
    /// no rows where there was no table. A quiet edit, which leaves the entries and the clauses of each predicate that has a row
    /// in that table, takes no step, and nothing is noted behind its mark.
    ///
    /// After want of memory the program is that from before the edit, there is no table, and every later edit answers want of
    /// memory.
    pub fn edit<W: Work, L: Ledger>(
        &mut self,
        alloc: Global,
        number: u64,
        edit: &Edit,
        work: &mut W,
        steps: &mut Steps<L>,
    ) -> Result<EditAnswer, AllocError>
        requires { IsReadableEdit edit.now }
        ensures answer { IfOk result (λ answer. IsEdited (D.plain self.old.domain) self.old self.new answer (edited self.old.program edit.now)) }
        ensures memory { OnErr result (IsLost self.old self.new) }
        ensures lost { self.old.lost ≡ true → OnOk result ⊥ }
        ensures work { IfOk result (λ answer. (program : ProgramView) → edited self.old.program edit.now ≡ Ok program
            → IsWorkOf (D.plain self.old.domain) self.old.limit (kept_program self.old) program number (W.entries work.old) (W.entries work.new) (steps.new - steps.old) answer) }
        ensures cut_off { OnErr result ((W.entries work.new ≡ W.entries work.old) ⊎ ((program : ProgramView) × (edited self.old.program edit.now ≡ Ok program)
            × IsCutOff (D.plain self.old.domain) self.old.limit (kept_program self.old) program number (W.entries work.old) (W.entries work.new))) }
        ensures noted { IfOk result (λ answer. IsRefusal answer → W.entries work.new ≡ W.entries work.old) }
        ensures steps { IfOk result (λ answer. IsRefusal answer → steps.new ≡ steps.old) }
    {
        if self.lost {
            return Err(AllocError);
        }
        let mut touched = IndexSet::new(alloc);
        match apply_noting(alloc, &self.program, edit, &mut touched) {
            Ok(program) => self.take_over(alloc, number, program, &touched, work, steps),
            Err(EditFail::Refused(cause)) => Ok(EditAnswer::Refused(cause)),
            Err(EditFail::Memory) => {
                self.lose();
                Err(AllocError)
            }
        }
    }

    /// Puts the program in the place of the present one, with what its analysis gives, which takes what is kept of the one
    /// before. The edit from that one touches these predicates.
    fn take_over<W: Work, L: Ledger>(
        &mut self,
        alloc: Global,
        number: u64,
        program: Program,
        touched: &IndexSet<PredKey>,
        work: &mut W,
        steps: &mut Steps<L>,
    ) -> Result<EditAnswer, AllocError>
        requires found { self.old.lost ≡ false }
        requires touched { AreTouched self.old.program program touched.now.keys }
        ensures answer { IfOk result (λ answer. (self.new.program ≡ program) × (self.new.domain ≡ self.old.domain) × (self.new.limit ≡ self.old.limit) × (self.new.lost ≡ false)
            × IsAnalysed (D.plain self.old.domain) self.old.limit program self.new.table answer) }
        ensures work { IfOk result (IsWorkOf (D.plain self.old.domain) self.old.limit (kept_program self.old) program number (W.entries work.old) (W.entries work.new) (steps.new - steps.old)) }
        ensures cut_off { OnErr result (IsCutOff (D.plain self.old.domain) self.old.limit (kept_program self.old) program number (W.entries work.old) (W.entries work.new)) }
        ensures memory { OnErr result (IsLost self.old self.new) }
    {
        let kept = self.analysed.take();
        match analyse_edit(
            alloc,
            &self.domain,
            &self.program,
            kept,
            &program,
            touched,
            self.limit,
            number,
            work,
            steps,
        ) {
            Ok(Answered { analysed, answer }) => {
                self.program = program;
                self.analysed = analysed;
                Ok(answer)
            }
            Err(_) => {
                self.lose();
                Err(AllocError)
            }
        }
    }

    /// Memory was wanting.
    fn lose(&mut self)
        ensures { IsLost self.old self.new }
    {
        self.analysed = None;
        self.lost = true;
    }

    /// The program. It takes no memory.
    pub fn program(&self) -> &Program
        ensures { result.now ≡ self.now.program }
    {
        &self.program
    }

    /// The program's table as text, its rows in the order of a table, and its verdicts on the program's assertions, one for
    /// each in the order of [`Program::checks`]. None exactly where the last accepted edit stopped, or an edit met want of
    /// memory. It takes no memory.
    pub fn table(&self) -> Option<&TextTable>
        ensures table { option_map (λ table. table.now) result ≡ self.now.table }
        ensures least { IfSome result (λ table. IsTableOf (D.plain self.now.domain) self.now.limit self.now.program table.now) }
    {
        match &self.analysed {
            Some(analysed) => Some(&analysed.texts),
            None => None,
        }
    }

    /// The rows of the program's least table as patterns, in the order of a table: those whose texts [`Session::table`] gives.
    /// None exactly where there is no table. The patterns are made when they are asked for.
    pub fn rows(&self, alloc: Global) -> Result<Option<Vec<PlainRow>>, AllocError>
        ensures { IfOk result (λ found. AreRowsGiven (D.plain self.now.domain) self.now.limit self.now.program self.now.table (option_map (λ rows. rows.items) found)) }
    {
        match &self.analysed {
            Some(analysed) => {
                let rows = rows_of_table(
                    alloc,
                    &self.domain,
                    &self.program,
                    &analysed.table,
                    self.limit,
                )?;
                Ok(Some(rows))
            }
            None => Ok(None),
        }
    }

    /// What the rows of the program's least table say of its assertions: a verdict for each, in the order of
    /// [`Program::checks`]. None exactly where there is no table.
    pub fn verdicts(&self, alloc: Global) -> Result<Option<Vec<Verdict>>, AllocError>
        ensures table { IfOk result (λ found. option_map (λ verdicts. verdicts.items) found ≡ option_map (λ table. table.verdicts) self.now.table) }
        ensures said { IfOk result (λ found. IfSome found (λ verdicts. (rows : List PlainRow) → IsLeastTable (D.plain self.now.domain) self.now.program rows
            → verdicts.items ≡ verdicts_of (D.plain self.now.domain) rows self.now.program.checks)) }
    {
        match &self.analysed {
            Some(analysed) => {
                let verdicts = Vec::from_slice(alloc, analysed.texts.verdicts.as_slice())?;
                Ok(Some(verdicts))
            }
            None => Ok(None),
        }
    }
}
