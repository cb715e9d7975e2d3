// The text of a block, as a block of lines or as one line.
ghost use Rattle.std.specs.Prelude.{◌≡◌, ◌++◌, OnOk};
ghost use Rattle.plai_top.specs.Blocks.{rows_text, cause_text, limit_text};

use crate::form::Form;
use plai_assert::Verdict;
use plai_clauses::{Check, EditCause};
use plai_render::{
    TextRow, render_counts, render_made_refused, render_made_stopped, render_refused,
    render_stopped, render_texts,
};
use std::alloc::{AllocError, Global};

/// Appends the text of a table with its verdicts.
pub fn write_rows(
    alloc: Global,
    form: Form,
    number: u64,
    rows: &[TextRow],
    checks: &[Check],
    verdicts: &[Verdict],
    text: &mut Vec<u8>,
) -> Result<(), AllocError>
    ensures { OnOk result (text.new.items ≡ text.old.items ++ rows_text form number rows.now checks.now verdicts.now) }
{
    match form {
        Form::Tables => render_texts(alloc, number, rows, checks, verdicts, text),
        Form::Counts => render_counts(alloc, number, rows, text),
    }
}

/// Appends the text of an edit that is refused.
pub fn write_cause(
    alloc: Global,
    form: Form,
    number: u64,
    cause: &EditCause,
    text: &mut Vec<u8>,
) -> Result<(), AllocError>
    ensures { OnOk result (text.new.items ≡ text.old.items ++ cause_text form number cause.now) }
{
    match form {
        Form::Tables => render_refused(alloc, number, cause, text),
        Form::Counts => render_made_refused(alloc, number, cause, text),
    }
}

/// Appends the text of an analysis that met a limit: so many rows, or else the groups of a set.
pub fn write_limit(
    alloc: Global,
    form: Form,
    number: u64,
    rows: Option<u64>,
    text: &mut Vec<u8>,
) -> Result<(), AllocError>
    ensures { OnOk result (text.new.items ≡ text.old.items ++ limit_text form number rows) }
{
    match form {
        Form::Tables => render_stopped(alloc, number, rows, text),
        Form::Counts => render_made_stopped(alloc, number, rows, text),
    }
}
