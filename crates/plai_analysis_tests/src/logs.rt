// What is told of the work on a small program.
use crate::analysed::{by_told_work, loaded};
use plai_base::Mask;
use plai_domain::{WorkEntry, WorkLog};
use plai_pos::Ground;
use plai_terms::{Abs, RowName};
use std::test::Fail;

/// A step of the work, of predicates of one argument. A pattern is given by its models: none is ground, or the argument.
#[derive(Clone, Copy)]
enum Told<'a> {
    Made(&'a str, &'a [u64]),
    Evaluated(&'a str, &'a [u64], u64),
    Grew(&'a str, &'a [u64], &'a [u64]),
}

const OPEN: &[u64] = &[0, 1];

const CLOSED: &[u64] = &[1];

fn are_masks(masks: &[Mask], models: &[u64]) -> bool {
    for (mask, model) in masks.iter().zip(models) {
        if mask.bits() != *model {
            return false;
        }
    }
    masks.len() == models.len()
}

fn is_pattern(pattern: &Abs, models: &[u64]) -> bool {
    match pattern {
        Abs::Pos(arity, masks) => *arity == 1 && are_masks(masks.as_slice(), models),
        _ => false,
    }
}

fn is_row(row: &RowName, name: &str, call: &[u64]) -> bool {
    row.pred.module.as_slice() == b"m".as_slice()
        && row.pred.name.as_slice() == name.as_bytes()
        && row.pred.arity == 1
        && is_pattern(&row.call, call)
}

fn is_told(entry: &WorkEntry, told: Told<'_>) -> bool {
    match (entry, told) {
        (WorkEntry::Made(row), Told::Made(name, call)) => is_row(row, name, call),
        (WorkEntry::Evaluated(row, clause), Told::Evaluated(name, call, number)) => {
            is_row(row, name, call) && *clause == number
        }
        (WorkEntry::Grew(row, answer), Told::Grew(name, call, models)) => {
            is_row(row, name, call) && is_pattern(answer, models)
        }
        _ => false,
    }
}

#[test]
fn a_log_is_told(rt: HostRuntime) -> Result<(), Fail> {
    let alloc = rt.alloc();
    let text = ":- module(m, []). :- entry p(X). p(X) :- q(X). q(a). q(f(Y)) :- q(Y). q(_).";
    let wanted = [
        Told::Made("p", OPEN),
        Told::Evaluated("p", OPEN, 1),
        Told::Made("q", OPEN),
        Told::Evaluated("q", OPEN, 1),
        Told::Grew("q", OPEN, CLOSED),
        Told::Evaluated("q", OPEN, 2),
        Told::Evaluated("q", OPEN, 3),
        Told::Grew("q", OPEN, OPEN),
        Told::Evaluated("q", OPEN, 2),
        Told::Evaluated("p", OPEN, 1),
        Told::Grew("p", OPEN, OPEN),
    ];
    let mut log = WorkLog::new(alloc);
    let program = loaded(alloc, text)?;
    let table = by_told_work(alloc, &Ground::new(), &program, 2, &mut log)?;
    assert_eq!(rt; table.rows.as_slice().len(), 2);
    assert_eq!(rt; log.entries().len(), wanted.len());
    for (entry, told) in log.entries().iter().zip(&wanted) {
        assert!(rt; is_told(entry, *told), "{entry:?}");
    }
    Ok(())
}
