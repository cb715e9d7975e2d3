//! Runs plai on the examples in `data`, and tells of each whether it prints what stands beside it, with its status.
#![tactic(auto)]

ghost use Rattle.std.specs.Prelude.{◌≡◌, ◌<◌};

use plai_base::{FileLibrary, Library, MemorySink, MemorySource, Steps};
use plai_domain::Tally;
use plai_top::run;
use std::alloc::{AllocError, Global};
use std::io;
use std::marker::Brand;
use std::rt::Files;
use std::sync::ledger::{Blank, Ledger};

/// More bytes than an example's table has.
const ROOM: usize = 65_536;

/// The status that plai ends with for these words and a script, over the system's files.
fn status<L: Ledger, B: Library>(
    alloc: Global,
    words: &[&str],
    script: Vec<u8>,
    library: &mut B,
    sink: &mut MemorySink,
    blank: Blank,
) -> u8
    requires name { blank.name ≡ L.name }
    requires parts { blank.parts ≡ L.parts }
    requires some { 0 < blank.parts }
{
    let mut script = MemorySource::new(script, 64, Vec::new(alloc));
    let mut steps = Steps::<L>::new(blank);
    run(
        alloc,
        words,
        library,
        &mut script,
        sink,
        &mut Tally::new(),
        &mut steps,
    )
}

/// Whether plai prints, for these words and a script, what stands in that file, and ends with that status.
fn prints_table<B: Library>(
    alloc: Global,
    library: &mut B,
    words: &[&str],
    script: Vec<u8>,
    table: &str,
    wanted: u8,
) -> Result<bool, AllocError> {
    let mut want = Vec::new(alloc);
    if library.read(alloc, table, &mut want).is_err() {
        return Ok(false);
    }
    let mut sink = MemorySink::new(alloc, ROOM, ROOM, Vec::new(alloc))?;
    let status = status::<Brand, B>(alloc, words, script, library, &mut sink, Blank::new(1));
    Ok(status == wanted && sink.bytes() == want.as_slice())
}

fn tell<R: Files + Print + AllocGlobal>(
    rt: &R,
    words: &[&str],
    script: &[u8],
    table: &str,
    wanted: u8,
) -> io::Result<()> {
    let mut library = FileLibrary::new(rt);
    let script = script.to_vec(rt.alloc())?;
    let word = if prints_table(rt.alloc(), &mut library, words, script, table, wanted)? {
        "as expected"
    } else {
        "another table"
    };
    println!(rt; "{table}: {word}")
}

/// Tells of the example whose script stands in that file.
fn tell_edits<R: Files + Print + AllocGlobal>(
    rt: &R,
    words: &[&str],
    script: &str,
    table: &str,
    wanted: u8,
) -> io::Result<()> {
    let mut library = FileLibrary::new(rt);
    let mut text = Vec::new(rt.alloc());
    match library.read(rt.alloc(), script, &mut text) {
        Ok(()) => tell(rt, words, text.as_slice(), table, wanted),
        Err(_) => println!(rt; "{script}: not read"),
    }
}

fn main(rt: HostRuntime) -> io::Result<()> {
    tell(&rt, &["app.pl"], b"", "app.table", 0)?;
    tell(&rt, &["sort.pl", "lists.pl"], b"", "sort.table", 0)?;
    tell(&rt, &["len.pl"], b"", "len.table", 0)?;
    tell(&rt, &["deriv.pl"], b"", "deriv.table", 0)?;
    tell(&rt, &["fact.pl"], b"", "fact.table", 0)?;
    tell(&rt, &["never.pl"], b"", "never.table", 0)?;
    tell(
        &rt,
        &["--rows", "2", "sort.pl", "lists.pl"],
        b"",
        "rows.table",
        1,
    )?;
    tell(&rt, &["findall.pl"], b"", "findall.table", 3)?;
    tell_edits(
        &rt,
        &["sort.pl", "lists.pl"],
        "sort.edits",
        "edits.table",
        1,
    )?;
    tell(&rt, &["--make", "50"], b"", "made.table", 0)
}
