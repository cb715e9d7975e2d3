// Scripts under each domain: with room for all rows, and at small limits, where a session and an analysis anew may meet the
// limit at other rows in the making.
use crate::edits::script;
use plai_depth::DepthK;
use plai_pos::Ground;
use plai_share::ShareFree;
use std::process::Abort;
use std::test::Fail;

/// Nothing stops any edit where there is room.
const ROOM: u64 = 10_000;

#[test]
fn each_table_is_as_anew_under_groundness(rt: HostRuntime) -> Result<(), Fail> {
    let counts = script(rt.alloc(), Ground::new(), &Ground::new(), ROOM, 1, 200)?;
    assert_eq!(rt; counts.differ, 0);
    assert!(rt; counts.full >= 100, "{}", counts.full);
    Ok(())
}

#[test]
fn each_table_is_as_anew_under_sharing(rt: HostRuntime) -> Result<(), Fail> {
    let counts = script(
        rt.alloc(),
        ShareFree::new(),
        &ShareFree::new(),
        ROOM,
        1,
        200,
    )?;
    assert_eq!(rt; counts.differ, 0);
    assert!(rt; counts.full >= 100, "{}", counts.full);
    Ok(())
}

#[test]
fn each_table_is_as_anew_under_depth(rt: HostRuntime) -> Result<(), Fail> {
    let counts = script(rt.alloc(), DepthK::new(2), &DepthK::new(2), ROOM, 1, 200)?;
    assert_eq!(rt; counts.differ, 0);
    assert!(rt; counts.full >= 100, "{}", counts.full);
    Ok(())
}

#[test]
fn stops_seldom_differ_under_groundness(rt: HostRuntime) -> Result<(), Fail> {
    for limit in 3..8_u64 {
        let counts = script(rt.alloc(), Ground::new(), &Ground::new(), limit, limit, 40)?;
        assert!(rt; counts.differ <= 8, "{limit} {}", counts.differ);
    }
    Ok(())
}

#[test]
fn stops_seldom_differ_under_sharing(rt: HostRuntime) -> Result<(), Fail> {
    for limit in 3..8_u64 {
        let counts = script(
            rt.alloc(),
            ShareFree::new(),
            &ShareFree::new(),
            limit,
            limit,
            40,
        )?;
        assert!(rt; counts.differ <= 8, "{limit} {}", counts.differ);
    }
    Ok(())
}

#[test]
fn stops_seldom_differ_under_depth(rt: HostRuntime) -> Result<(), Fail> {
    for limit in 3..8_u64 {
        let counts = script(
            rt.alloc(),
            DepthK::new(2),
            &DepthK::new(2),
            limit,
            limit,
            40,
        )?;
        assert!(rt; counts.differ <= 8, "{limit} {}", counts.differ);
    }
    Ok(())
}
