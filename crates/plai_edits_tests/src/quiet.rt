// What is told of the work behind edits.
ghost use Rattle.std.specs.Prelude.{◌≡◌, ◌<◌};

use crate::edits::{carry_out, loaded};
use plai_base::Steps;
use plai_domain::{WorkEntry, WorkLog};
use plai_pos::Ground;
use plai_session::Session;
use std::alloc::Global;
use std::marker::Brand;
use std::sync::ledger::{Blank, Ledger};
use std::test::Fail;

/// Only `p/1` and `q/1` have rows.
const PROGRAM: &str = ":- module(m, []). :- entry p(X). p(X) :- q(X). q(a). other(X) :- p(X).";

/// How many entries are told of the work of the last edit, its mark among them.
fn told(log: &WorkLog) -> u64 {
    let mut count: u64 = 0;
    for entry in log.entries() {
        if let WorkEntry::Mark(_) = entry {
            count = 0;
        }
        count = count.saturating_add(1);
    }
    count
}

/// How many entries are told of the work of the edit.
fn told_counted<L: Ledger>(alloc: Global, text: &[u8], blank: Blank) -> Result<u64, Fail>
    requires name { blank.name ≡ L.name }
    requires parts { blank.parts ≡ L.parts }
    requires some { 0 < blank.parts }
{
    let mut steps = Steps::<L>::new(blank);
    let mut log = WorkLog::new(alloc);
    let program = loaded(alloc, PROGRAM)?;
    let (mut session, _) = Session::open(alloc, Ground::new(), program, 10, &mut log, &mut steps)?;
    if carry_out(alloc, 1, text, &mut session, &mut log, &mut steps)? {
        return Ok(told(&log));
    }
    Err(Fail::new("refused"))
}

fn told_of(alloc: Global, text: &str) -> Result<u64, Fail> {
    told_counted::<Brand>(alloc, text.as_bytes(), Blank::new(1))
}

#[test]
fn of_a_quiet_edit_its_mark_is_told(rt: HostRuntime) -> Result<(), Fail> {
    assert_eq!(rt; told_of(rt.alloc(), "add(m,other(b)).")?, 1);
    assert_eq!(rt; told_of(rt.alloc(), "del(m,other/1,1).")?, 1);
    assert_eq!(rt; told_of(rt.alloc(), "drop(m,other/1).")?, 1);
    Ok(())
}

#[test]
fn of_others_more_is_told(rt: HostRuntime) -> Result<(), Fail> {
    assert!(rt; told_of(rt.alloc(), "add(m,q(b)).")? > 1);
    assert!(rt; told_of(rt.alloc(), "del(m,q/1,1).")? > 1);
    assert!(rt; told_of(rt.alloc(), "entry(m,other(X)).")? > 1);
    Ok(())
}
