// The script: its text, its tokens, and its edits.
ghost use Rattle.std.specs.Prelude.{◌≡◌, ◌+◌, ◌≤◌, ◌<◌, ◌⊎◌, length, IfOk, IfErr, IfSome, OnOk, IsErrOf};
ghost use Rattle.std.specs.Io.KnownBytes.{IsAtEnd};
ghost use Rattle.plai_base.specs.Causes.{Rose};
ghost use Rattle.plai_top.specs.Outcome.{IsByScript, longest_script, most_reads, silent};
ghost use Rattle.plai_top.specs.Plans.{IsInputStop};
ghost use Rattle.plai_top.specs.Scripts.{IsScriptOf, HasScriptLine, HasReadableEdits};
ghost use Rattle.plai_top.specs.Stops.{status_of, IsReadEnd};

use crate::refusal::script_refusal_line;
use crate::stop::Stop;
use plai_base::{ReadFail, Source, read_whole};
use plai_script::{Edit, EditCause, ScriptFail, read_script};
use std::alloc::Global;

/// The most bytes of the script: 16 mebibytes.
const MAX_SCRIPT: usize = 16_777_216;

/// What a script's text says.
#[derive(Debug, Drop)]
pub enum Script {
    /// Its edits, each or why it is none.
    Edits(Vec<Result<Edit, EditCause>>),
    /// A place has no token: the line that names it.
    Refused(Vec<u8>),
}

/// Reads the script's text to its end.
fn read_text<S: Source>(alloc: Global, script: &mut S) -> Result<Vec<u8>, Stop>
    ensures text { IfOk result (λ text. IfSome (S.left script.old) (λ told. text.items ≡ told)) }
    ensures short { IfOk result (λ text. length text.items ≤ longest_script) }
    ensures end { OnOk result (IsAtEnd (S.left script.new)) }
    ensures stop { IfErr result (λ stop. IsReadEnd stop ⊎ ((stop ≡ Stop.TooLarge) × IfSome (S.left script.old) (λ text. longest_script < length text))) }
    ensures later { S.faults script.old ≤ S.faults script.new }
    ensures reads { S.reads script.new ≤ S.reads script.old + most_reads }
    ensures failed { IsErrOf result Stop.ReadFault → Rose (S.faults script.old) (S.faults script.new) }
{
    let mut text = Vec::new(alloc);
    match read_whole(script, MAX_SCRIPT, &mut text) {
        Ok(()) => Ok(text),
        Err(ReadFail::TooLong) => Err(Stop::TooLarge),
        Err(ReadFail::Failed) => Err(Stop::ReadFault),
        Err(ReadFail::Memory) => Err(Stop::Memory),
    }
}

/// What the text says.
fn script_of(alloc: Global, text: &[u8]) -> Result<Script, Stop>
    requires { length text.now ≤ longest_script }
    ensures script { IfOk result (IsScriptOf text.now) }
    ensures line { IfOk result HasScriptLine }
    ensures readable { IfOk result HasReadableEdits }
    ensures stop { IfErr result (λ stop. (stop ≡ Stop.Memory) ⊎ IsByScript text.now (silent (status_of stop))) }
{
    match read_script(alloc, text) {
        Ok(items) => Ok(Script::Edits(items)),
        Err(ScriptFail::Lex { term, cause, at }) => match script_refusal_line(
            alloc, term, cause, at,
        ) {
            Ok(line) => Ok(Script::Refused(line)),
            Err(_) => Err(Stop::Memory),
        },
        Err(ScriptFail::Memory) => Err(Stop::Memory),
    }
}

/// Reads the script to its end, and its edits.
pub fn read_edits<S: Source>(alloc: Global, script: &mut S) -> Result<Script, Stop>
    ensures script { IfOk result (λ made. IfSome (S.left script.old) (λ text. IsScriptOf text made)) }
    ensures line { IfOk result HasScriptLine }
    ensures readable { IfOk result HasReadableEdits }
    ensures end { OnOk result (IsAtEnd (S.left script.new)) }
    ensures stop { IfErr result (λ stop. IsReadEnd stop ⊎ IfSome (S.left script.old) (λ text. IsByScript text (silent (status_of stop)))) }
    ensures which { IfErr result IsInputStop }
    ensures later { S.faults script.old ≤ S.faults script.new }
    ensures reads { S.reads script.new ≤ S.reads script.old + most_reads }
    ensures failed { IsErrOf result Stop.ReadFault → Rose (S.faults script.old) (S.faults script.new) }
{
    match read_text(alloc, script) {
        Ok(text) => script_of(alloc, text.as_slice()),
        Err(stop) => Err(stop),
    }
}
