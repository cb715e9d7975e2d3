// The blocks of a call: one for the loaded program and one for each edit, written one by one.
ghost use Rattle.std.specs.Prelude.{◌≡◌, ◌≤◌, ◌⊎◌, ◌∷◌, ◌&&◌, [], ℕ, List, Option, Result, Ok, cond, ◌++◌, Some, IfOk, IfErr, OnOk, IsErrOf};
ghost use Rattle.plai_base.specs.Causes.{Rose};
ghost use Rattle.plai_domain.specs.declared.work.WorkEntry.{WorkEntry};
ghost use Rattle.plai_clauses.specs.Program.{ProgramView};
ghost use Rattle.plai_clauses.specs.WellFormed.{IsWellFormed};
ghost use Rattle.plai_clauses.specs.declared.edit_cause.EditCause.{EditCause};
ghost use Rattle.plai_render.specs.declared.text_table.TextTable.{TextTable};
ghost use Rattle.plai_session.specs.Programs.{judged, kept, behind};
ghost use Rattle.plai_session.specs.Sessions.{kept_program};
ghost use Rattle.plai_script.specs.Readable.{IsReadableEdit};
ghost use Rattle.plai_top.specs.Blocks.{rows_text};
ghost use Rattle.plai_top.specs.Scripts.{AreReadable};
ghost use Rattle.plai_top.specs.Plans.{IsPlanStop};
ghost use Rattle.plai_top.specs.Working.{Span, between, kept_by, WorksBlocks};
ghost use Rattle.plai_top.specs.Writing.{WritesText, IsAnswerFor, IsBlockText, WritesBlock, WritesRefused, Wrote, WritesBlocks, shows_table};

use crate::form::Form;
use crate::render::{write_cause, write_limit, write_rows};
use crate::stop::Stop;
use plai_base::{Sink, Steps, write_whole};
use plai_clauses::Program;
use plai_domain::{Domain, Work};
use plai_script::{Edit, EditCause};
use plai_session::{EditAnswer, Session};
use std::alloc::{AllocError, Global};
use std::sync::ledger::Ledger;

fn shows_table(answer: &EditAnswer) -> bool
    ensures { result ≡ shows_table answer.now }
{
    matches!(answer, EditAnswer::Table)
}

/// Appends the block of a session's table, if it has one.
fn render_own<D: Domain>(
    alloc: Global,
    form: Form,
    number: u64,
    session: &Session<D>,
    out: &mut Vec<u8>,
) -> Result<(), AllocError>
    ensures { OnOk result ((table : TextTable) → session.now.table ≡ Some table
        → out.new.items ≡ out.old.items ++ rows_text form number table.rows session.now.program.checks table.verdicts) }
{
    let checks = session.program().checks();
    match session.table() {
        Some(table) => {
            let rows = table.rows.as_slice();
            write_rows(
                alloc,
                form,
                number,
                rows,
                checks,
                table.verdicts.as_slice(),
                out,
            )
        }
        None => Ok(()),
    }
}

/// Appends the text of the block of an answer to nothing.
fn render_answer<D: Domain>(
    alloc: Global,
    form: Form,
    number: u64,
    session: &Session<D>,
    answer: &EditAnswer,
    text: &mut Vec<u8>,
) -> Result<(), AllocError>
    requires { text.old.items ≡ [] }
    ensures { OnOk result ((was : Option ProgramView) (given : Result ProgramView EditCause) (span : Span)
        → IsAnswerFor (D.plain session.now.domain) session.now.limit was number session.now.program session.now.table answer.now span given
        → IsBlockText form (D.plain session.now.domain) session.now.limit was number given span text.new.items (shows_table answer.now)) }
{
    match answer {
        EditAnswer::Table => render_own(alloc, form, number, session, text),
        EditAnswer::Refused(cause) => write_cause(alloc, form, number, cause, text),
        EditAnswer::StoppedRows(rows) => write_limit(alloc, form, number, Some(*rows), text),
        EditAnswer::StoppedGroups { .. } => write_limit(alloc, form, number, None, text),
    }
}

/// The text of the block of an answer.
fn block_text<D: Domain>(
    alloc: Global,
    form: Form,
    number: u64,
    session: &Session<D>,
    answer: &EditAnswer,
) -> Result<Vec<u8>, AllocError>
    ensures { IfOk result (λ text. (was : Option ProgramView) (given : Result ProgramView EditCause) (span : Span)
        → IsAnswerFor (D.plain session.now.domain) session.now.limit was number session.now.program session.now.table answer.now span given
        → IsBlockText form (D.plain session.now.domain) session.now.limit was number given span text.items (shows_table answer.now)) }
{
    let mut text = Vec::new(alloc);
    render_answer(alloc, form, number, session, answer, &mut text)?;
    Ok(text)
}

fn write_text<K: Sink>(sink: &mut K, text: &[u8]) -> Result<(), Stop>
    ensures text { WritesText (K.taken sink.old) (K.taken sink.new) text.now result }
    ensures stop { IfErr result IsPlanStop }
    ensures later { K.faults sink.old ≤ K.faults sink.new }
    ensures failed { IsErrOf result Stop.WriteFault → Rose (K.faults sink.old) (K.faults sink.new) }
{
    match write_whole(sink, text) {
        Ok(()) => Ok(()),
        Err(_) => Err(Stop::WriteFault),
    }
}

/// Writes the block of an answer, and says whether it shows a table.
fn write_answer<D: Domain, K: Sink>(
    alloc: Global,
    form: Form,
    number: u64,
    session: &Session<D>,
    answer: &EditAnswer,
    sink: &mut K,
) -> Result<bool, Stop>
    ensures block { (was : Option ProgramView) (given : Result ProgramView EditCause) (span : Span)
        → IsAnswerFor (D.plain session.now.domain) session.now.limit was number session.now.program session.now.table answer.now span given
        → WritesBlock form (D.plain session.now.domain) session.now.limit was number given span (K.taken sink.old) (K.taken sink.new) result }
    ensures shows { IfOk result (λ shows. shows ≡ shows_table answer.now) }
    ensures stop { IfErr result IsPlanStop }
    ensures later { K.faults sink.old ≤ K.faults sink.new }
    ensures failed { IsErrOf result Stop.WriteFault → Rose (K.faults sink.old) (K.faults sink.new) }
{
    match block_text(alloc, form, number, session, answer) {
        Ok(text) => match write_text(sink, text.as_slice()) {
            Ok(()) => Ok(shows_table(answer)),
            Err(stop) => Err(stop),
        },
        Err(_) => Err(Stop::Memory),
    }
}

/// Writes the block of a term of the script that is no edit.
fn write_refused<K: Sink>(
    alloc: Global,
    form: Form,
    number: u64,
    cause: &EditCause,
    sink: &mut K,
) -> Result<bool, Stop>
    ensures block { WritesRefused form number cause.now (K.taken sink.old) (K.taken sink.new) result }
    ensures stop { IfErr result IsPlanStop }
    ensures later { K.faults sink.old ≤ K.faults sink.new }
    ensures failed { IsErrOf result Stop.WriteFault → Rose (K.faults sink.old) (K.faults sink.new) }
{
    let mut text = Vec::new(alloc);
    match write_cause(alloc, form, number, cause, &mut text) {
        Ok(()) => match write_text(sink, text.as_slice()) {
            Ok(()) => Ok(false),
            Err(stop) => Err(stop),
        },
        Err(_) => Err(Stop::Memory),
    }
}

/// Carries out the item of the script with this number and writes its block.
fn write_item<D: Domain, K: Sink, W: Work, L: Ledger>(
    alloc: Global,
    form: Form,
    number: u64,
    session: &mut Session<D>,
    item: &Result<Edit, EditCause>,
    sink: &mut K,
    work: &mut W,
    steps: &mut Steps<L>,
) -> Result<bool, Stop>
    requires { IfOk item.now IsReadableEdit }
    ensures block { WritesBlock form (D.plain session.old.domain) session.old.limit (kept_program session.old) number (judged session.old.program item.now)
        (between (W.entries work.old) (W.entries work.new) steps.old steps.new) (K.taken sink.old) (K.taken sink.new) result }
    ensures formed { OnOk result (IsWellFormed session.new.program) }
    ensures program { OnOk result (session.new.program ≡ kept session.old.program (judged session.old.program item.now)) }
    ensures keeps { IfOk result (λ shows. kept_program session.new ≡ kept_by (kept_program session.old) (judged session.old.program item.now) shows) }
    ensures stop { IfErr result IsPlanStop }
    ensures same { OnOk result ((session.new.domain ≡ session.old.domain) × (session.new.limit ≡ session.old.limit)) }
    ensures later { K.faults sink.old ≤ K.faults sink.new }
    ensures failed { IsErrOf result Stop.WriteFault → Rose (K.faults sink.old) (K.faults sink.new) }
{
    match item {
        Ok(edit) => match session.edit(alloc, number, edit, work, steps) {
            Ok(answer) => {
                session.program().is_program();
                write_answer(alloc, form, number, session, &answer, sink)
            }
            Err(_) => Err(Stop::Memory),
        },
        Err(cause) => {
            session.program().is_program();
            write_refused(alloc, form, number, cause, sink)
        }
    }
}

fn both(first: bool, second: bool) -> bool
    ensures { result ≡ (first && second) }
{
    first && second
}

fn status(are_tables: bool) -> u8
    ensures { result ≡ cond are_tables 0 1 }
{
    if are_tables { 0 } else { 1 }
}

/// Carries out the items of the script one by one, behind blocks that all show tables or don't, and writes a block for each
/// before the next is begun.
fn write_items<D: Domain, K: Sink, W: Work, L: Ledger>(
    alloc: Global,
    form: Form,
    session: Session<D>,
    is_table: bool,
    items: &[Result<Edit, EditCause>],
    sink: &mut K,
    work: &mut W,
    steps: &mut Steps<L>,
) -> Result<u8, Stop>
    requires { AreReadable items.now }
    ensures blocks { (givens : List (Result ProgramView EditCause)) (before : Option (List ℕ)) (begun : Option (List WorkEntry)) (counted : ℕ)
        → Wrote form (D.plain session.domain) session.limit givens before (K.taken sink.old) (between begun (W.entries work.old) counted steps.old)
        (behind session.program items.now) (kept_program session) 1 is_table
        → WritesBlocks form (D.plain session.domain) session.limit givens before (K.taken sink.new) result
        × WorksBlocks form (D.plain session.domain) session.limit givens before (K.taken sink.new)
        (between begun (W.entries work.new) counted steps.new) result }
    ensures status { IfOk result (λ status. (status ≡ 0) ⊎ (status ≡ 1)) }
    ensures stop { IfErr result IsPlanStop }
    ensures later { K.faults sink.old ≤ K.faults sink.new }
    ensures failed { IsErrOf result Stop.WriteFault → Rose (K.faults sink.old) (K.faults sink.new) }
{
    let mut session = session;
    let mut are_tables = is_table;
    let mut number: u64 = 1;
    for item in items {
        match write_item(alloc, form, number, &mut session, item, sink, work, steps) {
            Ok(shows_table) => are_tables = both(are_tables, shows_table),
            Err(stop) => return Err(stop),
        }
        number += 1;
    }
    Ok(status(are_tables))
}

/// Analyses the program, carries out the edits one by one, and writes a block for each before the next is begun. The answer is
/// 0 where each block shows a table, else 1.
pub fn write_blocks<D: Domain, K: Sink, W: Work, L: Ledger>(
    alloc: Global,
    form: Form,
    domain: D,
    program: Program,
    limit: u64,
    items: &[Result<Edit, EditCause>],
    sink: &mut K,
    work: &mut W,
    steps: &mut Steps<L>,
) -> Result<u8, Stop>
    requires { AreReadable items.now }
    ensures blocks { WritesBlocks form (D.plain domain) limit (Ok program ∷ behind program items.now) (K.taken sink.old) (K.taken sink.new) result }
    ensures worked { WorksBlocks form (D.plain domain) limit (Ok program ∷ behind program items.now) (K.taken sink.old) (K.taken sink.new)
        (between (W.entries work.old) (W.entries work.new) steps.old steps.new) result }
    ensures status { IfOk result (λ status. (status ≡ 0) ⊎ (status ≡ 1)) }
    ensures stop { IfErr result IsPlanStop }
    ensures later { K.faults sink.old ≤ K.faults sink.new }
    ensures failed { IsErrOf result Stop.WriteFault → Rose (K.faults sink.old) (K.faults sink.new) }
{
    program.is_program();
    match Session::open(alloc, domain, program, limit, work, steps) {
        Ok((session, answer)) => match write_answer(alloc, form, 0, &session, &answer, sink) {
            Ok(is_table) => write_items(alloc, form, session, is_table, items, sink, work, steps),
            Err(stop) => Err(stop),
        },
        Err(_) => Err(Stop::Memory),
    }
}
