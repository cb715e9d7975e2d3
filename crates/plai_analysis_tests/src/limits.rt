// A program with several entries and with assertions: from the first limit of rows that is enough on, its table is one and
// the same.
use crate::analysed::{by_work, loaded};
use plai_clauses::Program;
use plai_fix::SolveFail;
use plai_pos::Ground;
use std::alloc::Global;
use std::process::Abort;
use std::test::Fail;

/// Recursion, two entries of one predicate, and calls of a predicate with several patterns.
const PROGRAM: &str =
    ":- module(m, []). :- entry g(X) : ground(X). :- entry g(Y). :- entry rev(X,Y) : ground(X).
:- check success g(X) => ground(X). :- check calls k(X) : ground(X).
g(f(Y)) :- h(Y,Y).
h(X,Y) :- k(X), k(Y). h(X,Y) :- rev(X,Y).
k(1). k(s(X)) :- k(X).
rev(X,Y) :- rev(X,[],Y). rev([],A,A). rev([H|T],A,R) :- rev(T,[H|A],R).";

/// Whether the limit stops the analysis and is named.
fn is_stopped(alloc: Global, program: &Program, limit: u64) -> Result<bool, Fail> {
    match by_work(alloc, &Ground::new(), program, limit) {
        Ok(_) => Ok(false),
        Err(SolveFail::Rows(named)) => Ok(named == limit),
        Err(fail) => Err(Fail::from(fail)),
    }
}

/// The first limit that gives a table, at most 1,000.
fn need(alloc: Global, program: &Program) -> Result<u64, Fail> {
    for limit in 0..1_000 {
        match by_work(alloc, &Ground::new(), program, limit) {
            Ok(_) => return Ok(limit),
            Err(_) => {}
        }
    }
    Err(Fail::new("no table"))
}

#[test]
fn the_first_limit_that_is_enough(rt: HostRuntime) -> Result<(), Fail> {
    let alloc = rt.alloc();
    let program = loaded(alloc, PROGRAM)?;
    let need = need(alloc, &program)?;
    assert_eq!(rt; need, 13);
    for limit in 0..need {
        assert!(rt; is_stopped(alloc, &program, limit)?, "{limit}");
    }
    let wanted = by_work(alloc, &Ground::new(), &program, 1_000)?;
    assert_eq!(rt; wanted.rows.as_slice().len(), 13);
    assert_eq!(rt; wanted.verdicts.as_slice().len(), 2);
    for limit in [need, need + 1] {
        let found = by_work(alloc, &Ground::new(), &program, limit)?;
        let found = format!(in alloc; "{:?}", found)?;
        assert_eq!(rt; found, format!(in alloc; "{:?}", wanted)?, "{limit}");
    }
    Ok(())
}
