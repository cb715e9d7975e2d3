// The analysis of a program and its edits under the domain that the words name.
ghost use Rattle.std.specs.Prelude.{◌≤◌, ◌∷◌, Ok, IsErrOf};
ghost use Rattle.plai_base.specs.Causes.{Rose};
ghost use Rattle.plai_session.specs.Programs.{behind};
ghost use Rattle.plai_top.specs.Scripts.{AreReadable};
ghost use Rattle.plai_top.specs.Tasks.{domain_of};
ghost use Rattle.plai_top.specs.Working.{between, WorksBlocks};
ghost use Rattle.plai_top.specs.Writing.{WritesBlocks};

use crate::blocks::write_blocks;
use crate::stop::Stop;
use crate::task::Task;
use plai_base::{Sink, Steps};
use plai_clauses::Program;
use plai_depth::DepthK;
use plai_domain::Work;
use plai_pos::Ground;
use plai_script::{Edit, EditCause};
use plai_share::ShareFree;
use plai_words::DomainName;
use std::alloc::Global;
use std::sync::ledger::Ledger;

/// Analyses the program and what the edits make of it, as the task says, and writes the blocks.
pub fn analyse_all<K: Sink, W: Work, L: Ledger>(
    alloc: Global,
    program: Program,
    items: &[Result<Edit, EditCause>],
    task: Task,
    sink: &mut K,
    work: &mut W,
    steps: &mut Steps<L>,
) -> Result<u8, Stop>
    requires depth { (1 ≤ task.depth) × (task.depth ≤ 8) }
    requires readable { AreReadable items.now }
    ensures blocks { WritesBlocks task.form (domain_of task) task.rows (Ok program ∷ behind program items.now) (K.taken sink.old) (K.taken sink.new) result }
    ensures worked { WorksBlocks task.form (domain_of task) task.rows (Ok program ∷ behind program items.now) (K.taken sink.old) (K.taken sink.new)
        (between (W.entries work.old) (W.entries work.new) steps.old steps.new) result }
    ensures later { K.faults sink.old ≤ K.faults sink.new }
    ensures failed { IsErrOf result Stop.WriteFault → Rose (K.faults sink.old) (K.faults sink.new) }
{
    let limit = task.rows;
    let form = task.form;
    match task.domain {
        DomainName::Ground => {
            write_blocks(
                alloc,
                form,
                Ground::new(),
                program,
                limit,
                items,
                sink,
                work,
                steps,
            )
        }
        DomainName::Share => {
            write_blocks(
                alloc,
                form,
                ShareFree::new(),
                program,
                limit,
                items,
                sink,
                work,
                steps,
            )
        }
        DomainName::Depth => {
            let domain = DepthK::new(task.depth);
            write_blocks(
                alloc, form, domain, program, limit, items, sink, work, steps,
            )
        }
    }
}
