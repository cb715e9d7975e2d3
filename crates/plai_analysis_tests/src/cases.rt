// Each limit of rows below what a made program needs stops the work.

use crate::analysed::by_work;
use plai_depth::DepthK;
use plai_domain::Domain;
use plai_fix::SolveFail;
use plai_make::made_program;
use plai_pos::Ground;
use plai_share::ShareFree;
use std::process::Abort;
use std::test::Fail;

/// Tries the limits from 1 on, each of which must stop the work and be named, until one is enough. It gives that one.
fn check_limits<D: Domain, R: AllocGlobal + Abort>(rt: &R, domain: &D) -> Result<u64, Fail> {
    let alloc = rt.alloc();
    let program = made_program(alloc, 40)?;
    for limit in 1..200_u64 {
        match by_work(alloc, domain, &program, limit) {
            Ok(_) => return Ok(limit),
            Err(SolveFail::Rows(named)) => assert_eq!(rt; named, limit),
            Err(other) => return Err(other.into()),
        }
    }
    Err(Fail::new("no limit is enough"))
}

#[test]
fn each_limit_below_the_need_stops(rt: HostRuntime) -> Result<(), Fail> {
    let need = check_limits(&rt, &Ground::new())?;
    assert!(rt; need > 20, "{need}");
    let need = check_limits(&rt, &ShareFree::new())?;
    assert!(rt; need > 20, "{need}");
    let need = check_limits(&rt, &DepthK::new(2))?;
    assert!(rt; need > 20, "{need}");
    Ok(())
}
