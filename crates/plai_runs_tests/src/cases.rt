// In each domain a printed row describes each call and each answer of random runs from described goals.
use crate::programs::{JOINED, NEVER, PROGRAMS, SORTED};
use crate::runs::{Table, followed};
use crate::tables::{loaded, rows};
use crate::texts::Pattern;
use plai_depth::DepthK;
use plai_domain::Domain;
use plai_pos::Ground;
use plai_share::ShareFree;
use std::process::Abort;
use std::test::Fail;

/// Looks up the runs of the program, which come to answers, or don't.
fn check<D: Domain, R: AllocGlobal + Abort>(
    rt: &R,
    domain: &D,
    pattern: Pattern,
    text: &str,
    answers: bool,
) -> Result<(), Fail> {
    let alloc = rt.alloc();
    let program = loaded(alloc, text)?;
    let rows = rows(alloc, domain, &program)?;
    let table = Table {
        rows: rows.as_slice(),
        pattern,
    };
    let found = followed(alloc, &program, &table)?;
    assert!(rt; found.described, "{text}");
    assert!(rt; (found.answers > 0) == answers, "{text}");
    Ok(())
}

fn check_all<D: Domain, R: AllocGlobal + Abort>(
    rt: &R,
    domain: &D,
    pattern: Pattern,
) -> Result<(), Fail> {
    for text in &PROGRAMS {
        check(rt, domain, pattern, text, true)?;
    }
    check(rt, domain, pattern, NEVER, false)
}

#[test]
fn runs_are_described_under_groundness(rt: HostRuntime) -> Result<(), Fail> {
    check_all(&rt, &Ground::new(), Pattern::Ground)
}

#[test]
fn runs_are_described_under_sharing(rt: HostRuntime) -> Result<(), Fail> {
    check_all(&rt, &ShareFree::new(), Pattern::Share)
}

#[test]
fn runs_are_described_under_depth(rt: HostRuntime) -> Result<(), Fail> {
    check_all(&rt, &DepthK::new(1), Pattern::Depth)?;
    check_all(&rt, &DepthK::new(3), Pattern::Depth)
}

/// Takes away each row in turn from those of a program that has one for each predicate: runs come to what no other row describes.
fn check_without<D: Domain, R: AllocGlobal + Abort>(
    rt: &R,
    domain: &D,
    pattern: Pattern,
    text: &str,
) -> Result<(), Fail> {
    let alloc = rt.alloc();
    let program = loaded(alloc, text)?;
    for number in 0..rows(alloc, domain, &program)?.len() {
        let mut left = rows(alloc, domain, &program)?;
        assert!(rt; number < left.len());
        left.remove(number);
        let table = Table {
            rows: left.as_slice(),
            pattern,
        };
        assert!(rt;
            !followed(alloc, &program, &table)?.described,
            "{text} without {number}"
        );
    }
    Ok(())
}

#[test]
fn a_row_that_is_taken_away_is_missed(rt: HostRuntime) -> Result<(), Fail> {
    check_without(&rt, &Ground::new(), Pattern::Ground, SORTED)?;
    for text in [JOINED, NEVER] {
        check_without(&rt, &Ground::new(), Pattern::Ground, text)?;
        check_without(&rt, &ShareFree::new(), Pattern::Share, text)?;
        check_without(&rt, &DepthK::new(1), Pattern::Depth, text)?;
    }
    Ok(())
}
