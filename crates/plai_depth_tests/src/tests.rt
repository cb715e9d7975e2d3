//! Generated clauses at each depth.
use crate::second::Trees;
use plai_compare::{compare_clauses, compare_properties};
use plai_depth::DepthK;
use std::marker::Brand;
use std::sync::ledger::Blank;

#[test]
fn clauses_have_the_same_trees(rt: HostRuntime) {
    for depth in 1..=8 {
        let found = compare_clauses::<DepthK, Trees, Brand>(
            rt.alloc(),
            &DepthK::new(depth),
            &Trees { depth },
            150,
            1984,
            Blank::new(1),
        );
        match found {
            Ok(values) => assert!(rt; values > 25, "{values} values at depth {depth}"),
            Err(fail) => assert!(rt; false, "{fail:?} at depth {depth}"),
        }
    }
}

#[test]
fn properties_have_the_same_trees(rt: HostRuntime) {
    for arity in 0..4 {
        let found = compare_properties(rt.alloc(), &DepthK::new(2), &Trees { depth: 2 }, arity);
        assert_eq!(rt; found, Ok(()), "{arity} arguments");
    }
}
