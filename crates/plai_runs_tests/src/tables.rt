// The rows of a program under a domain.
ghost use Rattle.std.specs.Prelude.{◌≡◌, ◌<◌, ◌≤◌, All, IfOk, length};

use crate::programs::BETWEEN;
use plai_analysis::analyse;
use plai_base::Steps;
use plai_clauses::Program;
use plai_domain::{Domain, Tally};
use plai_modules::{NamedText, Text, load};
use plai_render::TextRow;
use plai_terms::Listed;
use std::alloc::Global;
use std::marker::Brand;
use std::sync::ledger::{Blank, Ledger};
use std::test::Fail;

/// A file of at most a million bytes.
fn file(alloc: Global, text: &[u8]) -> Result<NamedText, Fail>
    ensures { IfOk result (λ file. length file.text ≤ 1000000) }
{
    if text.len() > 1_000_000 {
        return Err(Fail::new("a long file"));
    }
    Ok(NamedText {
        name: Text::new(String::from_str(alloc, "a.pl")?),
        text: Listed::new(Vec::from_slice(alloc, text)?),
    })
}

/// The files of a program, ten at most.
fn files_of(alloc: Global, program: &str) -> Result<Vec<NamedText>, Fail>
    ensures few { IfOk result (λ files. length files.items ≤ 10) }
    ensures short { IfOk result (λ files. All (λ file. length file.text ≤ 1000000) files.items) }
{
    let mut files = Vec::new(alloc);
    for text in program.split(BETWEEN) {
        if files.len() >= 10 {
            return Err(Fail::new("many files"));
        }
        files.push(file(alloc, text.as_bytes())?)?;
    }
    Ok(files)
}

pub(crate) fn loaded(alloc: Global, program: &str) -> Result<Program, Fail> {
    let files = files_of(alloc, program)?;
    Ok(load(alloc, files.as_slice())?)
}

fn counted<D: Domain, L: Ledger>(
    alloc: Global,
    domain: &D,
    program: &Program,
    blank: Blank,
) -> Result<Vec<TextRow>, Fail>
    requires name { blank.name ≡ L.name }
    requires parts { blank.parts ≡ L.parts }
    requires some { 0 < blank.parts }
{
    let mut steps = Steps::<L>::new(blank);
    let found = analyse(alloc, domain, program, 1000, &mut Tally::new(), &mut steps)?;
    Ok(found.texts.rows.into_vec())
}

/// The rows of the program's table, as they are printed.
pub(crate) fn rows<D: Domain>(
    alloc: Global,
    domain: &D,
    program: &Program,
) -> Result<Vec<TextRow>, Fail> {
    counted::<D, Brand>(alloc, domain, program, Blank::new(1))
}
