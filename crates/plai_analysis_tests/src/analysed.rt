// A program of text, and a program analysed.
ghost use Rattle.std.specs.Prelude.{◌≡◌, ◌<◌};

use plai_base::Steps;
use plai_clauses::Program;
use plai_domain::{Domain, Tally, Work};
use plai_fix::SolveFail;
use plai_modules::{NamedText, Text, load};
use plai_render::TextTable;
use plai_terms::Listed;
use std::alloc::Global;
use std::marker::Brand;
use std::sync::ledger::{Blank, Ledger};
use std::test::Fail;

/// The program of a file, at most a million bytes.
pub(crate) fn loaded(alloc: Global, text: &str) -> Result<Program, Fail> {
    if text.len() > 1_000_000 {
        return Err(Fail::new("a long file"));
    }
    let file = NamedText {
        name: Text::new(String::from_str(alloc, "a.pl")?),
        text: Listed::new(Vec::from_slice(alloc, text.as_bytes())?),
    };
    Ok(load(alloc, [file].as_slice())?)
}

fn work_counted<D: Domain, W: Work, L: Ledger>(
    alloc: Global,
    domain: &D,
    program: &Program,
    limit: u64,
    work: &mut W,
    blank: Blank,
) -> Result<TextTable, SolveFail>
    requires name { blank.name ≡ L.name }
    requires parts { blank.parts ≡ L.parts }
    requires some { 0 < blank.parts }
{
    let mut steps = Steps::<L>::new(blank);
    let analysed = plai_analysis::analyse(alloc, domain, program, limit, work, &mut steps)?;
    Ok(analysed.texts)
}

/// By legal work, of which this object is told.
pub(crate) fn by_told_work<D: Domain, W: Work>(
    alloc: Global,
    domain: &D,
    program: &Program,
    limit: u64,
    work: &mut W,
) -> Result<TextTable, SolveFail> {
    work_counted::<D, W, Brand>(alloc, domain, program, limit, work, Blank::new(1))
}

/// By legal work.
pub(crate) fn by_work<D: Domain>(
    alloc: Global,
    domain: &D,
    program: &Program,
    limit: u64,
) -> Result<TextTable, SolveFail> {
    by_told_work(alloc, domain, program, limit, &mut Tally::new())
}
