//! The analysis of the program behind an edit.
ghost use Rattle.std.specs.Prelude.{◌-◌, IfOk, IfErr, IfSome, OnOk, OnErr};
ghost use Rattle.plai_eval.specs.Stops.{IsOver};
ghost use Rattle.plai_analysis.specs.Table.{IsTextTable};
ghost use Rattle.plai_analysis.specs.Causes.{HasCause};
ghost use Rattle.plai_analysis.specs.Kept.{IsKeptTable};
ghost use Rattle.plai_analysis.specs.Work.{HasEnded, HasStopped};
ghost use Rattle.plai_repair.specs.Lost.{AreTouched};
ghost use Rattle.plai_session.specs.Sessions.{IsTableOf, IsAnalysed, program_of, texts_in};
ghost use Rattle.plai_session.specs.Work.{IsWorkOf, IsCutOff};

use crate::answer::EditAnswer;
use indexmap::IndexSet;
use plai_analysis::{Analysed, analyse, analyse_again};
use plai_base::Steps;
use plai_clauses::Program;
use plai_domain::{Domain, Work, WorkEntry};
use plai_fix::SolveFail;
use plai_terms::PredKey;
use std::alloc::{AllocError, Global};
use std::hash::Hash;
use std::sync::ledger::Ledger;

/// What an edit's analysis gave: the table with what is kept of it, if there is one, and the answer.
#[derive(Drop)]
pub struct Answered<V: Eq + Hash + Drop> {
    pub analysed: Option<Analysed<V>>,
    pub answer: EditAnswer,
}

/// Analyses the program from what is kept of the analysis of the program `was`, or from no row where nothing is kept. The edit
/// from the one to the other touches these predicates.
fn analyse_from<D: Domain, W: Work, L: Ledger>(
    alloc: Global,
    domain: &D,
    was: &Program,
    kept: Option<Analysed<D::Value>>,
    program: &Program,
    touched: &IndexSet<PredKey>,
    limit: u64,
    work: &mut W,
    steps: &mut Steps<L>,
) -> Result<Analysed<D::Value>, SolveFail>
    requires touched { AreTouched was.now program.now touched.now.keys }
    requires own { IfSome kept (λ a. IsTableOf (D.plain domain.now) limit was.now a.texts) }
    requires worked { IfSome kept (λ a. IsKeptTable D.value_of (D.plain domain.now) was.now limit a.table.rows a.arcs) }
    ensures table { IfOk result (λ analysed. IsTextTable (D.plain domain.now) program.now limit analysed.texts) }
    ensures kept { IfOk result (λ analysed. IsKeptTable D.value_of (D.plain domain.now) program.now limit analysed.table.rows analysed.arcs) }
    ensures not_over { OnOk result (¬ IsOver (D.plain domain.now) program.now) }
    ensures causes { IfErr result (HasCause (D.plain domain.now) program.now limit) }
    ensures work { OnOk result (HasEnded (D.plain domain.now) (program_of was.now kept) program.now limit (W.entries work.old) (W.entries work.new) (steps.new - steps.old)) }
    ensures stopped { IfErr result (HasStopped (D.plain domain.now) (program_of was.now kept) program.now limit (W.entries work.old) (W.entries work.new) (steps.new - steps.old)) }
{
    match kept {
        Some(kept) => analyse_again(
            alloc, domain, was, kept, program, touched, limit, work, steps,
        ),
        None => analyse(alloc, domain, program, limit, work, steps),
    }
}

/// Does so as the work of the edit of this number, and answers: its mark is noted, and a legal log behind it, or nothing where
/// the edit is quiet.
pub fn analyse_edit<D: Domain, W: Work, L: Ledger>(
    alloc: Global,
    domain: &D,
    was: &Program,
    kept: Option<Analysed<D::Value>>,
    program: &Program,
    touched: &IndexSet<PredKey>,
    limit: u64,
    number: u64,
    work: &mut W,
    steps: &mut Steps<L>,
) -> Result<Answered<D::Value>, AllocError>
    requires touched { AreTouched was.now program.now touched.now.keys }
    requires own { IfSome kept (λ a. IsTableOf (D.plain domain.now) limit was.now a.texts) }
    requires worked { IfSome kept (λ a. IsKeptTable D.value_of (D.plain domain.now) was.now limit a.table.rows a.arcs) }
    ensures answer { IfOk result (λ answered. IsAnalysed (D.plain domain.now) limit program.now (texts_in answered.analysed) answered.answer) }
    ensures worked { IfOk result (λ answered. IfSome answered.analysed (λ a. IsKeptTable D.value_of (D.plain domain.now) program.now limit a.table.rows a.arcs)) }
    ensures work { IfOk result (λ answered. IsWorkOf (D.plain domain.now) limit (program_of was.now kept) program.now number (W.entries work.old) (W.entries work.new) (steps.new - steps.old) answered.answer) }
    ensures cut_off { OnErr result (IsCutOff (D.plain domain.now) limit (program_of was.now kept) program.now number (W.entries work.old) (W.entries work.new)) }
{
    work.note(alloc, &WorkEntry::Mark(number))?;
    match analyse_from(
        alloc, domain, was, kept, program, touched, limit, work, steps,
    ) {
        Ok(analysed) => Ok(Answered {
            analysed: Some(analysed),
            answer: EditAnswer::Table,
        }),
        Err(SolveFail::Rows(most)) => Ok(Answered {
            analysed: None,
            answer: EditAnswer::StoppedRows(most),
        }),
        Err(
            SolveFail::Groups {
                row,
                clause,
                literal,
                place,
            },
        ) => Ok(Answered {
            analysed: None,
            answer: EditAnswer::StoppedGroups {
                row,
                clause,
                literal,
                place,
            },
        }),
        Err(SolveFail::Memory) => Err(AllocError),
    }
}
