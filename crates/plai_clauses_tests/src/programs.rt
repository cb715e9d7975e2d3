// Programs by their calls. One program is a copy of the other, with which it shares clauses, and stays as it is when that changes.
ghost use Rattle.std.specs.Prelude.{IfOk};
ghost use Rattle.plai_clauses.specs.WellFormed.{IsWellFormedClause, IsWellFormedEntry, IsWellFormedCheck};

use crate::reading::{key, name, term};
use plai_clauses::{Check, CheckKind, Clause, Entry, Imports, Module, Program};
use plai_terms::{Listed, print_term};
use std::alloc::{AllocError, Global};
use std::test::Fail;

/// A change of a program.
enum Change {
    /// This clause becomes the last one of its predicate in the module m.
    Add(&'static str),
    /// The clause of this number of `p/1` is taken away.
    Remove(u64),
    /// All clauses of `p/1` are taken away.
    Clear,
    /// An entry of this predicate of one argument becomes the last one.
    Entry(&'static str),
    /// A check of this predicate of one argument becomes the last one.
    Check(&'static str),
}

/// What is done with two programs.
enum Step {
    /// The second one becomes a copy of the first.
    Copy,
    /// The first one is changed.
    First(Change),
    /// The second one is changed.
    Second(Change),
}

fn put(out: &mut Vec<u8>, text: &str) -> Result<(), AllocError> {
    out.extend_from_slice(text.as_bytes())
}

/// The number of items, the first arguments of the clauses of `p/1`, the entries and the checks.
fn put_program(alloc: Global, program: &Program, out: &mut Vec<u8>) -> Result<(), AllocError> {
    put(out, format!(in alloc; "{}", program.items())?.as_str())?;
    for clause in program.clauses_of(&key(alloc, "m", "p", 1)?) {
        put(out, " ")?;
        for argument in clause.head.as_slice() {
            print_term(alloc, argument, out)?;
        }
    }
    for entry in program.entries() {
        put(out, " >")?;
        out.extend_from_slice(entry.pred.name.as_slice())?;
    }
    for check in program.checks() {
        put(out, " ?")?;
        out.extend_from_slice(check.pred.name.as_slice())?;
    }
    Ok(())
}

/// The program of the module m without clauses.
fn start(alloc: Global) -> Result<Program, Fail> {
    let mut program = Program::new(alloc);
    let module = Module {
        name: name(alloc, "m")?,
        exports: Listed::new(Vec::new(alloc)),
        imports: Imports::empty(alloc),
    };
    if program.module(&module.name).is_some() {
        return Err(Fail::new("a module"));
    }
    program.add_module(alloc, module)?;
    Ok(program)
}

fn clause(alloc: Global, text: &str) -> Result<Clause, Fail>
    ensures { IfOk result IsWellFormedClause }
{
    let term = term(alloc, text)?;
    match Clause::from_term(alloc, &name(alloc, "m")?, &Imports::empty(alloc), &term) {
        Ok(clause) => Ok(clause),
        Err(_) => Err(Fail::new("no clause")),
    }
}

fn add(alloc: Global, program: &mut Program, text: &str) -> Result<(), Fail> {
    let module = name(alloc, "m")?;
    let clause = clause(alloc, text)?;
    if program.module(&module).is_none() {
        return Err(Fail::new("no module"));
    }
    program.add_clause(alloc, &module, clause)?;
    Ok(())
}

fn remove(alloc: Global, program: &mut Program, number: u64) -> Result<(), Fail> {
    let pred = key(alloc, "m", "p", 1)?;
    if number < 1 || number > program.clauses_of(&pred).len() as u64 {
        return Err(Fail::new("no such clause"));
    }
    program.remove_clause(alloc, &pred, number)?;
    Ok(())
}

/// The module's entry of a predicate of one argument, without properties.
#[tactic(auto, using(crate::proofs::WithoutProperties::bare_entry))]
fn entry(alloc: Global, text: &str) -> Result<Entry, AllocError>
    ensures { IfOk result IsWellFormedEntry }
{
    Ok(Entry {
        module: name(alloc, "m")?,
        pred: key(alloc, "m", text, 1)?,
        pre: Listed::new(Vec::new(alloc)),
    })
}

fn add_entry(alloc: Global, program: &mut Program, text: &str) -> Result<(), Fail> {
    let entry = entry(alloc, text)?;
    if program.module(&entry.module).is_none() {
        return Err(Fail::new("no module"));
    }
    program.add_entry(alloc, entry)?;
    Ok(())
}

/// The module's check of the calls of a predicate of one argument, without properties.
#[tactic(auto, using(crate::proofs::WithoutProperties::bare_check))]
fn check(alloc: Global, text: &str) -> Result<Check, AllocError>
    ensures { IfOk result IsWellFormedCheck }
{
    Ok(Check {
        module: name(alloc, "m")?,
        kind: CheckKind::Calls,
        pred: key(alloc, "m", text, 1)?,
        pre: Listed::new(Vec::new(alloc)),
        post: Listed::new(Vec::new(alloc)),
    })
}

fn add_check(alloc: Global, program: &mut Program, text: &str) -> Result<(), Fail> {
    let check = check(alloc, text)?;
    if program.module(&check.module).is_none() {
        return Err(Fail::new("no module"));
    }
    program.add_check(alloc, check)?;
    Ok(())
}

fn carry_out(alloc: Global, program: &mut Program, change: &Change) -> Result<(), Fail> {
    match change {
        Change::Add(text) => add(alloc, program, text),
        Change::Remove(number) => remove(alloc, program, *number),
        Change::Clear => {
            program.clear(&key(alloc, "m", "p", 1)?);
            Ok(())
        }
        Change::Entry(text) => add_entry(alloc, program, text),
        Change::Check(text) => add_check(alloc, program, text),
    }
}

fn take(alloc: Global, first: &mut Program, second: &mut Program, step: &Step) -> Result<(), Fail> {
    match step {
        Step::Copy => {
            *second = first.copy(alloc)?;
            Ok(())
        }
        Step::First(change) => carry_out(alloc, first, change),
        Step::Second(change) => carry_out(alloc, second, change),
    }
}

fn shown(alloc: Global, first: &Program, second: &Program) -> Result<Vec<u8>, AllocError> {
    let mut out = Vec::new(alloc);
    put_program(alloc, first, &mut out)?;
    put(&mut out, " | ")?;
    put_program(alloc, second, &mut out)?;
    Ok(out)
}

/// Steps, and how the two programs show behind each.
const STEPS: [(Step, &str); 24] = [
    (Step::First(Change::Add("p(a).")), "1 a | 0"),
    (Step::Copy, "1 a | 1 a"),
    (Step::First(Change::Add("p(b).")), "2 a b | 1 a"),
    (Step::First(Change::Add("p(c).")), "3 a b c | 1 a"),
    (Step::Second(Change::Add("p(z).")), "3 a b c | 2 a z"),
    (Step::Copy, "3 a b c | 3 a b c"),
    (Step::Second(Change::Remove(2)), "3 a b c | 2 a c"),
    (Step::Second(Change::Remove(2)), "3 a b c | 1 a"),
    (Step::Second(Change::Remove(1)), "3 a b c | 0"),
    (Step::First(Change::Remove(3)), "2 a b | 0"),
    (Step::Copy, "2 a b | 2 a b"),
    (Step::Second(Change::Clear), "2 a b | 0"),
    (Step::Second(Change::Add("p(d).")), "2 a b | 1 d"),
    (Step::Copy, "2 a b | 2 a b"),
    (Step::First(Change::Clear), "0 | 2 a b"),
    (Step::Second(Change::Remove(1)), "0 | 1 b"),
    (Step::First(Change::Add("p(e).")), "1 e | 1 b"),
    (Step::First(Change::Entry("p")), "2 e >p | 1 b"),
    (Step::Copy, "2 e >p | 2 e >p"),
    (Step::Second(Change::Check("q")), "2 e >p | 3 e >p ?q"),
    (Step::Second(Change::Entry("r")), "2 e >p | 4 e >p >r ?q"),
    (Step::First(Change::Add("q.")), "3 e >p | 4 e >p >r ?q"),
    (
        Step::Second(Change::Add("p(f(Y,X,Y)) :- q(X).")),
        "3 e >p | 5 e f(_0,_1,_0) >p >r ?q",
    ),
    (Step::Copy, "3 e >p | 3 e >p"),
];

#[test]
fn a_copy_stays_as_it_is(rt: HostRuntime) -> Result<(), Fail> {
    let alloc = rt.alloc();
    let mut first = start(alloc)?;
    let mut second = start(alloc)?;
    for (step, wanted) in &STEPS {
        take(alloc, &mut first, &mut second, step)?;
        let found = shown(alloc, &first, &second)?;
        assert_eq!(rt; found.as_slice(), wanted.as_bytes());
    }
    Ok(())
}
