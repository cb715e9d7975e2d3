// What a printed table says of the runs of the program.
ghost use Rattle.std.specs.Prelude.{◌≤◌, ℕ, List};
ghost use Rattle.plai_terms.specs.declared.plain_row.PlainRow.{PlainRow};
ghost use Rattle.plai_clauses.specs.Program.{ProgramView};
ghost use Rattle.plai_clauses.specs.WellFormed.{IsWellFormed};
ghost use Rattle.plai_assert.specs.Verdicts.{verdicts_of};
ghost use Rattle.plai_eval.specs.LeastTable.{IsLeastTable};
ghost use Rattle.plai_render.specs.Block.{block_text};
ghost use Rattle.plai_top.specs.Headline.{IsPromised};
ghost use Rattle.plai_top.specs.Tasks.{domain_of};
ghost use Rattle.plai_top.specs.declared.task.Task.{Task};

use crate::task::Task;
use plai_depth_laws::{depth_k_is_lawful, depth_k_is_sound};
use plai_pos_laws::{groundness_is_lawful, groundness_is_sound};
use plai_share_laws::{sharing_is_lawful, sharing_is_sound};
use plai_sld::{closed_tables_describe_runs, verdicts_hold_of_runs};

/// A law: the block of a program's least table describes every call and every answer of every run of the program from a
/// described goal, and each of its verdicts keeps its promise in all of them, in each domain, whatever the number of the edit.
pub fn printed_rows_describe_runs()
    ensures { (task : Task) → 1 ≤ task.depth → (program : ProgramView) → IsWellFormed program → (rows : List PlainRow)
        → IsLeastTable (domain_of task) program rows → (number : ℕ)
        → IsPromised (domain_of task) program number (block_text number rows program.checks (verdicts_of (domain_of task) rows program.checks)) }
{
    closed_tables_describe_runs::<Task>();
    verdicts_hold_of_runs::<Task>();
    groundness_is_lawful();
    groundness_is_sound();
    sharing_is_lawful();
    sharing_is_sound();
    depth_k_is_lawful();
    depth_k_is_sound();
}
