//! How many steps runs take, and, where the word `times` is among the arguments, how long. A number there is the size by which runs
//! grow, and the name of a predicate asks for its run alone.
#![tactic(auto)]

ghost use Rattle.std.specs.Prelude.{◌≡◌, ◌<◌, ◌-◌, ◌^◌, All, IfOk, length};

use plai_clauses::Program;
use plai_modules::{LoadFail, NamedText, Text, load};
use plai_sld::{Front, Run, Stepped};
use plai_terms::{Listed, Name, PredKey, Term};
use std::alloc::{AllocError, Global};
use std::env::Env;
use std::time::{Clock, Instant};
use std::{env, io};

/// A loop that counts to a number, naive reverse of a list of so many numbers, and calls whose answer is a term so deep.
const PROGRAM: &[u8] = b":- module(m, []).
loop(N, R) :- count(0, N, R).
count(N, N, done).
count(M, N, R) :- M < N, K is M+1, count(K, N, R).
reverse(N, R) :- numbers(0, N, L), rev(L, R).
numbers(N, N, []).
numbers(M, N, [M|T]) :- K is M+1, numbers(K, N, T).
rev([], []).
rev([H|T], R) :- rev(T, L), app(L, [H], R).
app([], L, L).
app([H|T], L, [H|R]) :- app(T, L, R).
deep(N, T) :- deep(0, N, T).
deep(N, N, 0).
deep(M, N, s(T)) :- K is M+1, deep(K, N, T).
";

/// More steps than are taken.
const LIMIT: u64 = 1_000_000_000;

/// The program, or none where it is refused.
fn program(alloc: Global) -> Result<Option<Program>, AllocError> {
    let file = NamedText {
        name: Text::new(String::from_str(alloc, "m.pl")?),
        text: Listed::new(Vec::from_slice(alloc, PROGRAM)?),
    };
    if file.text.as_slice().len() > 1_000_000 {
        return Ok(None);
    }
    match load(alloc, std::slice::from_ref(&file)) {
        Ok(program) => Ok(Some(program)),
        Err(LoadFail::Refused { .. }) => Ok(None),
        Err(LoadFail::Memory) => Err(AllocError),
    }
}

fn name(alloc: Global, text: &str) -> Result<Name, AllocError> {
    Ok(Name::new(Vec::from_slice(alloc, text.as_bytes())?))
}

/// How many choices there are at the front.
fn ways(program: &Program, run: &Run) -> u64 {
    match run.front() {
        Front::Nothing => 0,
        Front::Call(pred, _) => program.clauses_of(pred).len() as u64,
        Front::Builtin | Front::Mark(_, _, _) => 1,
    }
}

/// Takes a step by the first choice that leads on, if there is one.
fn goes_on(alloc: Global, program: &Program, run: &mut Run) -> Result<bool, AllocError> {
    for choice in 1..=ways(program, run) {
        if run.step(alloc, program, choice)? == Stepped::Moved {
            return Ok(true);
        }
    }
    Ok(false)
}

/// How many steps lead on.
fn steps(alloc: Global, program: &Program, mut run: Run) -> Result<u64, AllocError> {
    for taken in 0..LIMIT {
        if !goes_on(alloc, program, &mut run)? {
            return Ok(taken);
        }
    }
    Ok(LIMIT)
}

/// The run of a predicate from the goal with this number and a variable.
fn run_of(
    alloc: Global,
    program: &Program,
    text: &str,
    size: u32,
) -> Result<Option<Run>, AllocError> {
    let pred = PredKey {
        module: name(alloc, "m")?,
        name: name(alloc, text)?,
        arity: 2,
    };
    let args = vec![in alloc; Term::Int(size as i128), Term::Var(0)]?;
    let goal = Term::Compound(name(alloc, text)?, plai_terms::Args::new(args));
    let args = goal.arguments();
    if args.len() != 2 || !goal.has_variables_below(alloc, 2_147_483_647)? {
        return Ok(None);
    }
    Ok(Some(Run::start(alloc, program, &pred, args)?))
}

/// Makes the run and prints how many steps it took.
fn report<R: Clock + Print + AllocGlobal>(
    rt: &R,
    program: &Program,
    text: &str,
    size: u32,
    timed: bool,
) -> io::Result<()> {
    let alloc = rt.alloc();
    let Some(run) = run_of(alloc, program, text, size)? else {
        return println!(rt; "{text}: no run");
    };
    let start = Instant::now(rt)?;
    let taken = steps(alloc, program, run)?;
    let millis = start.elapsed(rt)?.as_millis();
    if timed {
        println!(rt; "{text} {size}: {taken} steps, {millis} milliseconds")
    } else {
        println!(rt; "{text} {size}: {taken} steps")
    }
}

/// The predicates that runs begin with.
const PREDICATES: [&str; 3] = ["loop", "reverse", "deep"];

/// What the arguments ask for: a size, times or not, and one predicate alone, if they name one.
#[derive(Clone, Copy)]
struct Settings {
    size: u32,
    timed: bool,
    alone: Option<&'static str>,
}

/// The predicate of this name, if there is one.
fn named(word: &str) -> Option<&'static str> {
    for predicate in PREDICATES {
        if predicate == word {
            return Some(predicate);
        }
    }
    None
}

fn asked<R: Env + AllocGlobal>(rt: &R) -> io::Result<Settings> {
    let mut settings = Settings {
        size: 10,
        timed: false,
        alone: None,
    };
    for word in env::args(rt)?.skip(1) {
        if word.as_str() == "times" {
            settings.timed = true;
        } else if let Ok(number) = word.parse::<u32>() {
            settings.size = number;
        } else {
            settings.alone = named(word.as_str());
        }
    }
    Ok(settings)
}

fn main(rt: HostRuntime) -> io::Result<()> {
    let settings = asked(&rt)?;
    let Some(program) = program(rt.alloc())? else {
        return println!(rt; "the program is refused");
    };
    for predicate in PREDICATES {
        if settings.alone.unwrap_or(predicate) == predicate {
            report(&rt, &program, predicate, settings.size, settings.timed)?;
        }
    }
    Ok(())
}
