// A session under a script of edits, beside the analysis anew of each program.
ghost use Rattle.std.specs.Prelude.{◌≡◌, ◌<◌};

use crate::draws::{Draws, PROGRAM};
use plai_base::Steps;
use plai_clauses::Program;
use plai_domain::{Domain, Tally, Work};
use plai_fix::SolveFail;
use plai_modules::{NamedText, Text, load};
use plai_script::read_script;
use plai_session::{EditAnswer, Session};
use plai_terms::Listed;
use std::alloc::Global;
use std::marker::Brand;
use std::sync::ledger::{Blank, Ledger};
use std::test::Fail;

/// The program of a file, at most a million bytes.
pub(crate) fn loaded(alloc: Global, text: &str) -> Result<Program, Fail> {
    if text.len() > 1_000_000 {
        return Err(Fail::new("a long file"));
    }
    let file = NamedText {
        name: Text::new(String::from_str(alloc, "a.pl")?),
        text: Listed::new(Vec::from_slice(alloc, text.as_bytes())?),
    };
    Ok(load(alloc, [file].as_slice())?)
}

/// Carries out the one edit of the text, at most 1,000 bytes, and says whether it was accepted.
pub(crate) fn carry_out<D: Domain, W: Work, L: Ledger>(
    alloc: Global,
    number: u64,
    text: &[u8],
    session: &mut Session<D>,
    work: &mut W,
    steps: &mut Steps<L>,
) -> Result<bool, Fail> {
    if text.len() > 1_000 {
        return Err(Fail::new("a long edit"));
    }
    let items = read_script(alloc, text)?;
    let mut accepted = false;
    for item in items.as_slice() {
        match item {
            Ok(edit) => match session.edit(alloc, number, edit, work, steps)? {
                EditAnswer::Refused(_) => {}
                EditAnswer::Table => accepted = session.table().is_some(),
                _ => accepted = session.table().is_none(),
            },
            Err(_) => return Err(Fail::new("no edit")),
        }
    }
    Ok(accepted)
}

/// Whether the session's table is that of its program's analysis anew, or neither has one. They may differ where one of them
/// alone meets the limit of rows.
fn is_as_anew<D: Domain, L: Ledger>(
    alloc: Global,
    domain: &D,
    limit: u64,
    session: &Session<D>,
    steps: &mut Steps<L>,
) -> Result<bool, Fail> {
    let anew = plai_analysis::analyse(
        alloc,
        domain,
        session.program(),
        limit,
        &mut Tally::new(),
        steps,
    );
    match (session.table(), anew) {
        (Some(own), Ok(anew)) => {
            let own = format!(in alloc; "{:?}", own)?;
            let anew = format!(in alloc; "{:?}", anew.texts)?;
            if own.as_bytes() == anew.as_bytes() {
                return Ok(true);
            }
            Err(Fail::new("another table"))
        }
        (None, Err(SolveFail::Rows(_))) => Ok(true),
        (_, Err(SolveFail::Memory)) => Err(Fail::new("no memory")),
        (_, Err(SolveFail::Groups { .. })) => Err(Fail::new("too many groups")),
        _ => Ok(false),
    }
}

/// What was counted behind edits that were accepted.
#[derive(Drop)]
pub(crate) struct Counts {
    /// How often the session differed from the analysis anew by a stop.
    pub(crate) differ: u64,
    /// How often the table had three rows or more.
    pub(crate) full: u64,
}

fn is_full<D: Domain>(session: &Session<D>) -> bool {
    match session.table() {
        Some(table) => table.rows.as_slice().len() >= 3,
        None => false,
    }
}

/// Carries out so many edits, and counts behind those that are accepted.
fn script_counted<D: Domain, L: Ledger>(
    alloc: Global,
    domain: D,
    other: &D,
    limit: u64,
    seed: u64,
    count: u64,
    blank: Blank,
) -> Result<Counts, Fail>
    requires name { blank.name ≡ L.name }
    requires parts { blank.parts ≡ L.parts }
    requires some { 0 < blank.parts }
{
    let mut steps = Steps::<L>::new(blank);
    let mut draws = Draws::new(seed);
    let program = loaded(alloc, PROGRAM)?;
    let (mut session, _) = Session::open(
        alloc,
        domain,
        program,
        limit,
        &mut Tally::new(),
        &mut steps,
    )?;
    let mut counts = Counts { differ: 0, full: 0 };
    for number in 0..count {
        let text = draws.edit()?;
        let accepted = carry_out(
            alloc,
            number.wrapping_add(1),
            text.as_bytes(),
            &mut session,
            &mut Tally::new(),
            &mut steps,
        )?;
        if accepted && !is_as_anew(alloc, other, limit, &session, &mut steps)? {
            counts.differ = counts.differ.saturating_add(1);
        }
        if accepted && is_full(&session) {
            counts.full = counts.full.saturating_add(1);
        }
    }
    Ok(counts)
}

/// Carries out so many edits drawn from the seed on.
pub(crate) fn script<D: Domain>(
    alloc: Global,
    domain: D,
    other: &D,
    limit: u64,
    seed: u64,
    count: u64,
) -> Result<Counts, Fail> {
    script_counted::<D, Brand>(alloc, domain, other, limit, seed, count, Blank::new(1))
}
