// The whole program: all that is read, and then the blocks.
ghost use Rattle.std.specs.Prelude.{◌≡◌, ◌+◌, ◌≤◌, ◌⊎◌, ℕ, List, None, IfSome, IfOk, IfErr, IsErrOf};
ghost use Rattle.std.specs.Io.KnownBytes.{Keeps, IsAtEnd};
ghost use Rattle.plai_base.specs.Causes.{Rose};
ghost use Rattle.plai_base.specs.Texts.{TextMap};
ghost use Rattle.plai_words.specs.Command.{settings_of, texts};
ghost use Rattle.plai_top.specs.Commands.{AskForMade};
ghost use Rattle.plai_top.specs.Ending.{IsFaultOrComes, EndsByEach, EndsWithin, EndsMade, EndsByWords, EndsEarly, IsSilent, IsBeforeWork, IsStatus, IsMadeStatus};
ghost use Rattle.plai_top.specs.Headline.{TakesPromised};
ghost use Rattle.plai_top.specs.Outcome.{Outcome, IsByWords, IsEarly, IsOutcome, OutcomeIsOne, most_reads};
ghost use Rattle.plai_top.specs.Plans.{IsFitPlan, HasAnalysis, CarriesOut, WorksPlan, IsPlanStatus, IsPlanStop};
ghost use Rattle.plai_top.specs.Told.{IfBothTold};
ghost use Rattle.plai_top.specs.Worked.{HasWorked};
ghost use Rattle.plai_top.specs.Working.{between};

use crate::analysis::analyse_all;
use crate::laws::printed_rows_describe_runs;
use crate::plan::{Plan, planned};
use crate::stop::Stop;
use crate::task::Task;
use plai_base::{Library, Sink, Source, Steps, write_whole};
use plai_domain::Work;
use plai_eval::least_table_is_one;
use std::alloc::Global;
use std::sync::ledger::Ledger;

/// A law: words, files and a script have one outcome at most, but that a stop may come in the place of a table or of the other stop.
pub fn outcome_is_one()
    ensures { OutcomeIsOne }
{
    least_table_is_one::<Task>();
}

/// Writes what the plan asks for, and gives the status.
fn carry_out<K: Sink, W: Work, L: Ledger>(
    alloc: Global,
    plan: Plan,
    sink: &mut K,
    work: &mut W,
    steps: &mut Steps<L>,
) -> Result<u8, Stop>
    requires { IsFitPlan plan }
    ensures written { CarriesOut (K.taken sink.old) (K.taken sink.new) plan result }
    ensures worked { WorksPlan (K.taken sink.old) (K.taken sink.new) (between (W.entries work.old) (W.entries work.new) steps.old steps.new) plan result }
    ensures status { IfOk result (IsPlanStatus plan) }
    ensures stop { IfErr result IsPlanStop }
    ensures later { K.faults sink.old ≤ K.faults sink.new }
    ensures failed { IsErrOf result Stop.WriteFault → Rose (K.faults sink.old) (K.faults sink.new) }
    ensures noted { (HasAnalysis plan → ⊥) → W.entries work.new ≡ W.entries work.old }
    ensures steps { (HasAnalysis plan → ⊥) → steps.new ≡ steps.old }
{
    match plan {
        Plan::Line(bytes) => match write_whole(sink, bytes.as_slice()) {
            Ok(()) => Ok(3),
            Err(_) => Err(Stop::WriteFault),
        },
        Plan::Blocks {
            task,
            program,
            items,
        } => analyse_all(alloc, program, items.as_slice(), task, sink, work, steps),
    }
}

/// Analyses the files that the words name, and what the edits of the script make of them, under the domain that the words name,
/// and writes a block for each: the least table with its verdicts on the program's assertions, the limit that the analysis met,
/// or why the edit is refused. Where the words ask for it, it analyses a made program and 50 edits on it instead, and writes a
/// line for each, which counts the rows. A block is written before the next edit is begun. The answer is the program's status,
/// from 0 to 7.
///
/// | Status | Comes |
/// |---|---|
/// | 0 | all was done, and each block is a table: the script was read to its end, and the sink took all blocks |
/// | 1 | all was done, and some block says that an edit is refused, or that its analysis met the limit of rows or of groups |
/// | 2 | the words form no command; nothing was written |
/// | 3 | loading refused a term, or a place of the script has no token; the sink took the line that names it |
/// | 4 | there are more than 64 files, a file has more than 4,194,304 bytes, or the script more than 16,777,216; nothing was written |
/// | 5 | the library or the script failed; nothing was written |
/// | 6 | the sink failed; a part of the output was written |
/// | 7 | memory is wanting; a part of the output was written |
pub fn run<B: Library, S: Source, K: Sink, W: Work, L: Ledger>(
    alloc: Global,
    words: &[&str],
    library: &mut B,
    script: &mut S,
    sink: &mut K,
    work: &mut W,
    steps: &mut Steps<L>,
) -> u8
    // Where both tell, the answer is the status of an outcome, and the sink took that outcome's bytes, if no
    // fault came and there was memory.
    ensures whole { IfBothTold (B.files library.old) (S.left script.old) (λ files text.
        IsFaultOrComes (IsOutcome (texts words.now) files text) result (K.taken sink.old) (K.taken sink.new)) }

    // At 0 and 1, where both tell, each block that shows a table is that of the least table of its program under the domain that
    // the words name, and every call and every answer in every left-to-right resolution, of any number of steps from a described
    // goal, is described by one printed row. What is printed as `checked` holds in all of them: of each call, or of each answer
    // to a call that had what is demanded of calls. What is printed as `false` holds of none of these.
    ensures described { IfBothTold (B.files library.old) (S.left script.old) (λ files text. (result ≡ 0) ⊎ (result ≡ 1)
        → TakesPromised (texts words.now) files text (K.taken sink.old) (K.taken sink.new)) }

    // Words that ask for a made program have an outcome that depends on nothing else, and nothing is read.
    ensures made { EndsMade (texts words.now) result (K.taken sink.old) (K.taken sink.new) }
    ensures made_status { AskForMade (texts words.now) → IsMadeStatus result }
    ensures unread_made { AskForMade (texts words.now) → (B.faults library.new ≡ B.faults library.old)
        × (S.left script.new ≡ S.left script.old) × (S.faults script.new ≡ S.faults script.old) }

    // Whatever the outcome is, the call ended by it, or by one with stops in the place of some of its blocks: at a fault too no
    // other byte was written.
    ensures every { IfBothTold (B.files library.old) (S.left script.old) (λ files text.
        EndsByEach (texts words.now) (IsOutcome (texts words.now) files text) result (K.taken sink.old) (K.taken sink.new)) }

    // At 6 and 7, where both tell, what was written is a prefix of the output: at 6 of the line of a refusal or of the first blocks,
    // at 7 whole blocks, or nothing. Of a made program this holds whatever both tell.
    ensures part { IfBothTold (B.files library.old) (S.left script.old) (λ files text.
        EndsWithin (texts words.now) files text result (K.taken sink.old) (K.taken sink.new)) }
    ensures made_part { AskForMade (texts words.now) → (files : TextMap) (text : List ℕ)
        → EndsWithin (texts words.now) files text result (K.taken sink.old) (K.taken sink.new) }

    // What the words decide comes before the files, and what the files decide before the script.
    ensures refused { EndsByWords (texts words.now) result }
    ensures early { IfSome (B.files library.old) (λ files.
        EndsEarly (texts words.now) files result (K.taken sink.old) (K.taken sink.new) (Rose (B.faults library.old) (B.faults library.new))) }
    ensures command { result ≡ 2 → settings_of (texts words.now) ≡ None }
    ensures known { IsStatus result }

    // Each fault has its cause.
    ensures read_fault { result ≡ 5 → Rose (B.faults library.old) (B.faults library.new) ⊎ Rose (S.faults script.old) (S.faults script.new) }
    ensures write_fault { result ≡ 6 → Rose (K.faults sink.old) (K.faults sink.new) }
    ensures library_later { B.faults library.old ≤ B.faults library.new }
    ensures script_later { S.faults script.old ≤ S.faults script.new }
    ensures sink_later { K.faults sink.old ≤ K.faults sink.new }

    // What isn't reached isn't read: the files where the words decide, the script where words and files do.
    ensures unread_files { (outcome : Outcome) → IsByWords (texts words.now) outcome → (B.faults library.new ≡ B.faults library.old)
        × (S.left script.new ≡ S.left script.old) × (S.faults script.new ≡ S.faults script.old) }
    ensures unread_script { IfSome (B.files library.old) (λ files. (outcome : Outcome) → IsEarly (texts words.now) files outcome
        → (S.left script.new ≡ S.left script.old) × (S.faults script.new ≡ S.faults script.old)) }

    // A script that counts its reads counts at most 16,777,217, one more than a script may have bytes. At 0 and 1 it was read to its
    // end, where no program is made, and at a status without output nothing was written.
    ensures reads { S.reads script.new ≤ S.reads script.old + most_reads }
    ensures end { (result ≡ 0) ⊎ (result ≡ 1) → IsAtEnd (S.left script.new) ⊎ AskForMade (texts words.now) }
    ensures nothing { IsSilent result → Keeps (K.taken sink.old) (K.taken sink.new) }

    // The work that is told is that of the blocks, whether or not library and script tell. At 0 and 1, and for a made program too:
    // the loaded program and each accepted edit have a mark with the block's number, and behind it a legal log, which ends where the
    // block is a table, and else stops by the cause that the block names; a refused edit notes nothing and takes no step; and the
    // steps are at most the sum of what these logs cost. At 6 and 7 it is that of the first blocks, and then of one whose block was
    // not written, or whose work was cut off in a legal log. Before the analysis nothing is noted, and no step is taken.
    ensures worked { HasWorked (texts words.now) (B.files library.old) (S.left script.old) result (K.taken sink.old) (K.taken sink.new)
        (between (W.entries work.old) (W.entries work.new) steps.old steps.new) }
    ensures noted { IsBeforeWork result → W.entries work.new ≡ W.entries work.old }
    ensures steps { IsBeforeWork result → steps.new ≡ steps.old }
{
    outcome_is_one();
    printed_rows_describe_runs();
    match planned(alloc, words, library, script) {
        Ok(plan) => match carry_out(alloc, plan, sink, work, steps) {
            Ok(status) => status,
            Err(stop) => stop.status(),
        },
        Err(stop) => stop.status(),
    }
}
