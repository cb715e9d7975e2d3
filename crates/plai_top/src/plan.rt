// What a call is to do: the words, the files, their loading, and the script.
ghost use Rattle.std.specs.Prelude.{◌≡◌, ◌+◌, ◌≤◌, ◌⊎◌, ℕ, List, None, IfSome, IfOk, IfErr, MatchResult, IsErrOf};
ghost use Rattle.std.specs.Io.KnownBytes.{IsAtEnd};
ghost use Rattle.plai_base.specs.Causes.{Rose};
ghost use Rattle.plai_words.specs.Command.{settings_of, texts};
ghost use Rattle.plai_top.specs.Commands.{AskForMade, IsCommand, IsFitCommand};
ghost use Rattle.plai_top.specs.Loadings.{IsPrepared, HasLine};
ghost use Rattle.plai_top.specs.Outcome.{Outcome, IsByWords, IsEarly, IsByScript, IsOutcome, most_reads, silent};
ghost use Rattle.plai_top.specs.Outputs.{KeepsWords};
ghost use Rattle.plai_top.specs.Plans.{IsPlan, IsMadeBy, IsMadePlan, IsFitPlan, IsPlanFor, HasTaskBy, HasAnalysis, IsScripted, IsInputStop};
ghost use Rattle.plai_top.specs.Plans.{KeepsEarly, KeepsMade};
ghost use Rattle.plai_top.specs.Stops.{status_of, IsReadEnd};
ghost use Rattle.plai_top.specs.Tasks.{task_of};
ghost use Rattle.plai_top.specs.Told.{IfBothTold};

use crate::command::{Command, command_of};
use crate::input::read_files;
use crate::loading::{Loading, load_files};
use crate::script::{Script, read_edits};
use crate::stop::Stop;
use crate::task::{Task, task_of};
use plai_base::{Library, Source};
use plai_clauses::Program;
use plai_make::{made_edits, made_program};
use plai_script::{Edit, EditCause};
use plai_words::Settings;
use std::alloc::{AllocError, Global};

/// What the files of a command are loaded to, and what analysis it asks for.
#[derive(Debug, Drop)]
struct Prepared {
    task: Task,
    loading: Loading,
}

/// What a call is to do once its input is read.
#[derive(Debug, Drop)]
pub enum Plan {
    /// To write the line of a refusal.
    Line(Vec<u8>),
    /// To analyse a program and what edits make of it.
    Blocks {
        task: Task,
        program: Program,
        items: Vec<Result<Edit, EditCause>>,
    },
}

/// Reads the files and loads them.
fn prepare<B: Library>(
    alloc: Global,
    settings: &Settings,
    library: &mut B,
) -> Result<Prepared, Stop>
    requires fit { IsFitCommand (Command.Files settings.now) }
    ensures outcome { (words : List (List ℕ)) → IsCommand words settings.now → IfSome (B.files library.old) (λ files. MatchResult result
        (λ prepared. IsPrepared words files prepared.task prepared.loading)
        (λ stop. IsReadEnd stop ⊎ IsEarly words files (silent (status_of stop)))) }
    ensures line { IfOk result (λ prepared. HasLine prepared.loading) }
    ensures depth { IfOk result (λ prepared. (1 ≤ prepared.task.depth) × (prepared.task.depth ≤ 8)) }
    ensures task { IfOk result (λ prepared. prepared.task ≡ task_of settings.now) }
    ensures stop { IfErr result IsInputStop }
    ensures later { B.faults library.old ≤ B.faults library.new }
    ensures failed { IsErrOf result Stop.ReadFault → Rose (B.faults library.old) (B.faults library.new) }
{
    match read_files(alloc, settings.files.as_slice(), library) {
        Ok(files) => match load_files(alloc, files.as_slice()) {
            Ok(loading) => Ok(Prepared {
                task: task_of(settings),
                loading,
            }),
            Err(stop) => Err(stop),
        },
        Err(stop) => Err(stop),
    }
}

/// Reads the script, behind a loaded program.
fn with_script<S: Source>(
    alloc: Global,
    task: Task,
    program: Program,
    script: &mut S,
) -> Result<Plan, Stop>
    ensures plan { IfSome (S.left script.old) (λ text. MatchResult result (IsScripted task program text) (λ stop. IsReadEnd stop ⊎ IsByScript text (silent (status_of stop)))) }
    ensures fit { (1 ≤ task.depth) × (task.depth ≤ 8) → IfOk result IsFitPlan }
    ensures task { IfOk result (IsPlanFor task) }
    ensures end { IfOk result (λ plan. HasAnalysis plan → IsAtEnd (S.left script.new)) }
    ensures stop { IfErr result IsInputStop }
    ensures later { S.faults script.old ≤ S.faults script.new }
    ensures reads { S.reads script.new ≤ S.reads script.old + most_reads }
    ensures failed { IsErrOf result Stop.ReadFault → Rose (S.faults script.old) (S.faults script.new) }
{
    match read_edits(alloc, script) {
        Ok(Script::Edits(items)) => Ok(Plan::Blocks {
            task,
            program,
            items,
        }),
        Ok(Script::Refused(bytes)) => Ok(Plan::Line(bytes)),
        Err(stop) => Err(stop),
    }
}

/// The plan of a command over files.
fn over_files<B: Library, S: Source>(
    alloc: Global,
    settings: &Settings,
    library: &mut B,
    script: &mut S,
) -> Result<Plan, Stop>
    requires fit { IsFitCommand (Command.Files settings.now) }
    ensures outcome { (words : List (List ℕ)) → IsCommand words settings.now → IfBothTold (B.files library.old) (S.left script.old) (λ files text. MatchResult result
        (IsPlan words files text)
        (λ stop. IsReadEnd stop ⊎ IsOutcome words files text (silent (status_of stop)))) }
    ensures early { (words : List (List ℕ)) → IsCommand words settings.now → IfSome (B.files library.old) (λ files.
        KeepsEarly words files result (Rose (B.faults library.old) (B.faults library.new))) }
    ensures unread_script { (words : List (List ℕ)) → IsCommand words settings.now → IfSome (B.files library.old) (λ files. (outcome : Outcome) → IsEarly words files outcome
        → (S.left script.new ≡ S.left script.old) × (S.faults script.new ≡ S.faults script.old)) }
    ensures fit { IfOk result IsFitPlan }
    ensures task { IfOk result (IsPlanFor (task_of settings.now)) }
    ensures stop { IfErr result IsInputStop }
    ensures end { IfOk result (λ plan. HasAnalysis plan → IsAtEnd (S.left script.new)) }
    ensures library_later { B.faults library.old ≤ B.faults library.new }
    ensures script_later { S.faults script.old ≤ S.faults script.new }
    ensures reads { S.reads script.new ≤ S.reads script.old + most_reads }
    ensures failed { IsErrOf result Stop.ReadFault → Rose (B.faults library.old) (B.faults library.new) ⊎ Rose (S.faults script.old) (S.faults script.new) }
{
    match prepare(alloc, settings, library) {
        Ok(Prepared { task, loading }) => match loading {
            Loading::Program(program) => with_script(alloc, task, program, script),
            Loading::Refused(bytes) => Ok(Plan::Line(bytes)),
        },
        Err(stop) => Err(stop),
    }
}

/// The blocks of a made program of so many predicates.
fn made_blocks(alloc: Global, task: Task, count: u32) -> Result<Plan, AllocError>
    requires count { (1 ≤ count) × (count ≤ 2000) }
    ensures plan { IfOk result (IsMadeBy task count) }
    ensures fit { (1 ≤ task.depth) × (task.depth ≤ 8) → IfOk result IsFitPlan }
    ensures task { IfOk result (IsPlanFor task) }
{
    let program = made_program(alloc, count)?;
    let items = made_edits(alloc, count)?;
    Ok(Plan::Blocks {
        task,
        program,
        items,
    })
}

/// The plan of a made program of so many predicates: nothing is read.
fn over_made(alloc: Global, settings: &Settings, count: u32) -> Result<Plan, Stop>
    requires fit { IsFitCommand (Command.Make settings.now count) }
    ensures plan { MatchResult result (IsMadePlan settings.now count) (λ stop. stop ≡ Stop.Memory) }
    ensures fit { IfOk result IsFitPlan }
    ensures task { IfOk result (IsPlanFor (task_of settings.now)) }
{
    match made_blocks(alloc, task_of(settings), count) {
        Ok(plan) => Ok(plan),
        Err(_) => Err(Stop::Memory),
    }
}

/// Reads all that is to be read.
pub fn planned<B: Library, S: Source>(
    alloc: Global,
    words: &[&str],
    library: &mut B,
    script: &mut S,
) -> Result<Plan, Stop>
    // Where both tell, the plan or the stop is that of an outcome, if no read failed and there was memory.
    ensures outcome { IfBothTold (B.files library.old) (S.left script.old) (λ files text. MatchResult result
        (IsPlan (texts words.now) files text)
        (λ stop. IsReadEnd stop ⊎ IsOutcome (texts words.now) files text (silent (status_of stop)))) }
    ensures fit { IfOk result IsFitPlan }

    // Whether they tell or not, the domain, the limit and the form are those that the words name.
    ensures task { IfOk result (HasTaskBy (texts words.now)) }

    // What the words and the files decide doesn't depend on the script, nor what the words decide on the files.
    ensures early { IfSome (B.files library.old) (λ files.
        KeepsEarly (texts words.now) files result (Rose (B.faults library.old) (B.faults library.new))) }
    ensures words { KeepsWords (texts words.now) result }
    ensures made { KeepsMade (texts words.now) result }
    ensures command { IsErrOf result Stop.NoCommand → settings_of (texts words.now) ≡ None }
    ensures no_write { IsErrOf result Stop.WriteFault → ⊥ }
    ensures end { IfOk result (λ plan. HasAnalysis plan → IsAtEnd (S.left script.new) ⊎ AskForMade (texts words.now)) }
    ensures library_later { B.faults library.old ≤ B.faults library.new }
    ensures script_later { S.faults script.old ≤ S.faults script.new }
    ensures reads { S.reads script.new ≤ S.reads script.old + most_reads }
    ensures failed { IsErrOf result Stop.ReadFault → Rose (B.faults library.old) (B.faults library.new) ⊎ Rose (S.faults script.old) (S.faults script.new) }

    // What isn't reached isn't read.
    ensures unread_files { (outcome : Outcome) → IsByWords (texts words.now) outcome → (B.faults library.new ≡ B.faults library.old)
        × (S.left script.new ≡ S.left script.old) × (S.faults script.new ≡ S.faults script.old) }
    ensures unread_made { AskForMade (texts words.now) → (B.faults library.new ≡ B.faults library.old)
        × (S.left script.new ≡ S.left script.old) × (S.faults script.new ≡ S.faults script.old) }
    ensures unread_script { IfSome (B.files library.old) (λ files. (outcome : Outcome) → IsEarly (texts words.now) files outcome
        → (S.left script.new ≡ S.left script.old) × (S.faults script.new ≡ S.faults script.old)) }
{
    match command_of(alloc, words) {
        Ok(Command::Files(settings)) => over_files(alloc, &settings, library, script),
        Ok(Command::Make(settings, count)) => over_made(alloc, &settings, count),
        Err(stop) => Err(stop),
    }
}
