// Runs of the program over objects in memory.
ghost use Rattle.std.specs.Prelude.{◌≡◌, ◌<◌};

use plai_base::{
    HonestLibrary, Library, MemoryLibrary, MemorySink, MemorySource, Sink, Source, Steps,
};
use plai_domain::Tally;
use plai_top::run;
use std::alloc::{AllocError, Global};
use std::marker::Brand;
use std::sync::ledger::{Blank, Ledger};

/// A module without entries and clauses.
pub(crate) const EMPTY: &[u8] = b":- module(m, []).";

/// A module with an entry and two facts.
pub(crate) const FACTS: &[u8] =
    b":- module(m, []). :- entry p(X,Y) : ground(X). p(a,b). p(f(Z),Z).";

/// A file's name and its text.
pub(crate) type File<'a> = (&'a str, &'a [u8]);

fn counted<L: Ledger, B: Library, S: Source, K: Sink>(
    alloc: Global,
    words: &[&str],
    library: &mut B,
    script: &mut S,
    sink: &mut K,
    blank: Blank,
) -> u8
    requires name { blank.name ≡ L.name }
    requires parts { blank.parts ≡ L.parts }
    requires some { 0 < blank.parts }
{
    let mut steps = Steps::<L>::new(blank);
    run(
        alloc,
        words,
        library,
        script,
        sink,
        &mut Tally::new(),
        &mut steps,
    )
}

pub(crate) fn status<B: Library, S: Source, K: Sink>(
    alloc: Global,
    words: &[&str],
    library: &mut B,
    script: &mut S,
    sink: &mut K,
) -> u8 {
    counted::<Brand, B, S, K>(alloc, words, library, script, sink, Blank::new(1))
}

pub(crate) fn files_of(
    alloc: Global,
    files: &[File<'_>],
) -> Result<Vec<(String, Vec<u8>)>, AllocError> {
    let mut all = Vec::new(alloc);
    for (name, text) in files {
        all.push((String::from_str(alloc, name)?, text.to_vec(alloc)?))?;
    }
    Ok(all)
}

/// The status and the output of these words over these files and an empty script.
pub(crate) fn outcome(
    alloc: Global,
    words: &[&str],
    files: &[File<'_>],
) -> Result<(u8, Vec<u8>), AllocError> {
    edited(alloc, words, files, b"")
}

/// The status and the output of these words over these files and a script.
pub(crate) fn edited(
    alloc: Global,
    words: &[&str],
    files: &[File<'_>],
    script: &[u8],
) -> Result<(u8, Vec<u8>), AllocError> {
    let mut library = HonestLibrary::new(files_of(alloc, files)?);
    let mut script = MemorySource::new(script.to_vec(alloc)?, 7, Vec::new(alloc));
    let mut sink = MemorySink::new(alloc, 10_000, 10_000, Vec::new(alloc))?;
    let got = status(alloc, words, &mut library, &mut script, &mut sink);
    Ok((got, sink.bytes().to_vec(alloc)?))
}

/// Whether the words come to this status and output.
pub(crate) fn gives(
    alloc: Global,
    words: &[&str],
    files: &[File<'_>],
    status: u8,
    want: &[u8],
) -> Result<bool, AllocError> {
    let (got, bytes) = outcome(alloc, words, files)?;
    Ok(got == status && bytes.as_slice() == want)
}

/// Whether a file alone comes to this table.
pub(crate) fn has_table(alloc: Global, text: &[u8], want: &[u8]) -> Result<bool, AllocError> {
    gives(alloc, &["a.pl"], &[("a.pl", text)], 0, want)
}
