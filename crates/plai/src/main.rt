//! An incremental abstract interpreter for Prolog (Muthukumar and Hermenegildo 1992): the program, over the system's files
//! and streams.
#![tactic(auto)]

ghost use Rattle.std.specs.Prelude.{◌≡◌, ◌<◌, None, IfOk, map, string_bytes};
ghost use Rattle.plai_words.specs.Command.{settings_of, texts};
ghost use Rattle.plai_top.specs.Ending.{EndsByWords, IsStatus};

use plai_base::{FileLibrary, InputSource, OutputSink, Steps};
use plai_domain::Tally;
use plai_top::{Stop, run};
use std::alloc::{AllocError, Global};
use std::env::Env;
use std::marker::Brand;
use std::process::ExitCode;
use std::rt::Files;
use std::sync::ledger::{Blank, Ledger};
use std::{env, io};

/// The words of the command line, without the program's name.
fn words_of<R: Env + AllocGlobal>(rt: &R) -> io::Result<Vec<String>> {
    let mut words = Vec::new(rt.alloc());
    for word in env::args(rt)?.skip(1) {
        words.push(word)?;
    }
    Ok(words)
}

/// The texts of the words.
fn texts_of<'a>(alloc: Global, words: &'a [String]) -> Result<Vec<&'a str>, AllocError>
    ensures { IfOk result (λ list. texts list.items ≡ map string_bytes words.now) }
{
    let mut list = Vec::new(alloc);
    for word in words {
        list.push(word.as_str())?;
    }
    Ok(list)
}

/// Runs the program over the system's files and streams, and counts no steps.
fn start<L: Ledger, R: Env + Files + Input + Print + AllocGlobal>(
    rt: &R,
    words: &[String],
    blank: Blank,
) -> Result<u8, AllocError>
    requires name { blank.name ≡ L.name }
    requires parts { blank.parts ≡ L.parts }
    requires some { 0 < blank.parts }
    ensures known { IfOk result IsStatus }
    ensures refused { IfOk result (λ status. EndsByWords (map string_bytes words.now) status) }
    ensures command { IfOk result (λ status. status ≡ 2 → settings_of (map string_bytes words.now) ≡ None) }
{
    let words = texts_of(rt.alloc(), words)?;
    let mut steps = Steps::<L>::new(blank);
    Ok(run(
        rt.alloc(),
        words.as_slice(),
        &mut FileLibrary::new(rt),
        &mut InputSource::new(rt.reader()),
        &mut OutputSink::new(io::writer(rt)),
        &mut Tally::new(),
        &mut steps,
    ))
}

/// Words that aren't text form no command.
fn main(rt: HostRuntime) -> ExitCode {
    let status = match words_of(&rt) {
        Ok(words) => match start::<Brand, HostRuntime>(&rt, words.as_slice(), Blank::new(1)) {
            Ok(status) => status,
            Err(_) => Stop::Memory.status(),
        },
        Err(error) if error.kind() == io::ErrorKind::OutOfMemory => Stop::Memory.status(),
        Err(_) => Stop::NoCommand.status(),
    };
    ExitCode::from(status)
}
