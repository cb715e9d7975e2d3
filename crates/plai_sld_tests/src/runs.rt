// Steps of runs by choices, and what they answer.
use plai_clauses::Program;
use plai_modules::{NamedText, Text, load};
use plai_sld::{Run, Stepped, laws_of_runs};
use plai_terms::{Args, Listed, Name, PredKey, Term};
use std::alloc::{AllocError, Global};
use std::slice;
use std::test::Fail;

/// The clauses have these numbers within their predicates: for `q/1`, 1 calls `p/1` and 2 is the fact.
const PROGRAM: &[u8] = b":- module(m, []).
p(X) :- q(X). q(X) :- p(X). q(a). r(X) :- X is 1.
count(X) :- X > 0, Y is X - 1, count(Y). count(0).";

fn program(alloc: Global) -> Result<Program, Fail> {
    let file = NamedText {
        name: Text::new(String::from_str(alloc, "m.pl")?),
        text: Listed::new(Vec::from_slice(alloc, PROGRAM)?),
    };
    if file.text.as_slice().len() > 1_000 {
        return Err(Fail::new("a long program"));
    }
    Ok(load(alloc, slice::from_ref(&file))?)
}

fn name(alloc: Global, text: &str) -> Result<Name, AllocError> {
    Ok(Name::new(Vec::from_slice(alloc, text.as_bytes())?))
}

/// The argument of a goal.
enum Argument {
    Var(u32),
    Int(i128),
    /// A variable under so many functors.
    Deep(u32),
}

fn term(alloc: Global, argument: &Argument) -> Result<Term, AllocError> {
    let count = match argument {
        Argument::Var(variable) => return Ok(Term::Var(*variable)),
        Argument::Int(value) => return Ok(Term::Int(*value)),
        Argument::Deep(count) => *count,
    };
    let mut term = Term::Var(7);
    for _ in 0..count {
        term = Term::Compound(name(alloc, "f")?, Args::new(vec![in alloc; term]?));
    }
    Ok(term)
}

/// The run from the goal of a predicate of the module m with one argument.
fn start(
    alloc: Global,
    program: &Program,
    predicate: &str,
    argument: &Argument,
) -> Result<Run, Fail> {
    let pred = PredKey {
        module: name(alloc, "m")?,
        name: name(alloc, predicate)?,
        arity: 1,
    };
    let argument = term(alloc, argument)?;
    if !argument.has_variables_below(alloc, 2_147_483_647)? {
        return Err(Fail::new("greater variables"));
    }
    Ok(Run::start(alloc, program, &pred, slice::from_ref(&argument))?)
}

fn letter(stepped: Stepped) -> u8 {
    match stepped {
        Stepped::Moved => b'm',
        Stepped::NoClause => b'n',
        Stepped::Clash => b'c',
        Stepped::Spent => b's',
        Stepped::Done => b'd',
    }
}

/// What the steps with these choices answer, each as a letter.
fn stepped(
    alloc: Global,
    program: &Program,
    run: &mut Run,
    choices: &[u8],
) -> Result<Vec<u8>, AllocError> {
    let mut letters = Vec::new(alloc);
    for choice in choices {
        let choice = u64::from(choice.saturating_sub(b'0'));
        letters.push(letter(run.step(alloc, program, choice)?))?;
    }
    Ok(letters)
}

/// Goals, choices of steps, and what these answer.
const RUNS: [(&str, Argument, &[u8], &[u8]); 7] = [
    ("p", Argument::Var(0), b"120001", b"mmmmdd"),
    ("p", Argument::Var(0), b"1302", b"mnnm"),
    ("q", Argument::Int(3), b"2112", b"cmmc"),
    ("r", Argument::Var(0), b"1999", b"mmmd"),
    ("r", Argument::Int(2), b"111", b"mcc"),
    // the numbers of variables are spent
    ("p", Argument::Var(2_147_483_646), b"119", b"mss"),
    ("p", Argument::Deep(20_000), b"121", b"mcm"),
];

#[test]
fn runs_move_and_end(rt: HostRuntime) -> Result<(), Fail> {
    laws_of_runs();
    let program = program(rt.alloc())?;
    for (predicate, argument, choices, wanted) in &RUNS {
        let mut run = start(rt.alloc(), &program, predicate, argument)?;
        let found = stepped(rt.alloc(), &program, &mut run, choices)?;
        assert!(rt; found.as_slice() == *wanted, "{predicate} {choices:?}");
    }
    Ok(())
}

// How far the loop of the test below counts. Each number takes four steps; with 250,000 it makes a million in some seconds.
const COUNTED: u32 = 2_500;

/// Three for each number and one for zero, one for each mark, and one more.
fn counted(
    alloc: Global,
    three: &[u8],
    zero: u8,
    mark: u8,
    more: u8,
) -> Result<Vec<u8>, AllocError> {
    let mut bytes = Vec::new(alloc);
    for _ in 0..COUNTED {
        bytes.extend_from_slice(three)?;
    }
    bytes.push(zero)?;
    for _ in 0..=COUNTED {
        bytes.push(mark)?;
    }
    bytes.push(more)?;
    Ok(bytes)
}

#[test]
fn a_counting_loop_takes_time_by_its_steps(rt: HostRuntime) -> Result<(), Fail> {
    let program = program(rt.alloc())?;
    let mut run = start(
        rt.alloc(),
        &program,
        "count",
        &Argument::Int(COUNTED as i128),
    )?;
    let choices = counted(rt.alloc(), b"111", b'2', b'0', b'0')?;
    let found = stepped(rt.alloc(), &program, &mut run, choices.as_slice())?;
    let wanted = counted(rt.alloc(), b"mmm", b'm', b'm', b'd')?;
    assert!(rt; found.as_slice() == wanted.as_slice());
    Ok(())
}
