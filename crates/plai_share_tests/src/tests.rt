//! Generated clauses, and sets near the limit of groups.
use crate::limits::{begins, calls};
use crate::second::Sharing;
use plai_compare::{CompareFail, Operation, compare_clauses, compare_properties};
use plai_share::ShareFree;
use std::marker::Brand;
use std::sync::ledger::Blank;

#[test]
fn clauses_share_the_same(rt: HostRuntime) {
    let found = compare_clauses::<ShareFree, Sharing, Brand>(
        rt.alloc(),
        &ShareFree::new(),
        &Sharing {},
        150,
        1992,
        Blank::new(1),
    );
    match found {
        Ok(values) => assert!(rt; values > 25, "{values} values"),
        Err(fail) => assert!(rt; false, "{fail:?}"),
    }
}

#[test]
fn properties_share_the_same(rt: HostRuntime) {
    for arity in 0..4 {
        let found = compare_properties(rt.alloc(), &ShareFree::new(), &Sharing {}, arity);
        assert_eq!(rt; found, Ok(()), "{arity} arguments");
    }
}

#[test]
fn heads_stop_where_a_set_is_too_large(rt: HostRuntime) {
    let united = Err(CompareFail::Over(Operation::Enter, 2));
    let all = Err(CompareFail::Over(Operation::Enter, 4));
    for (others, variables, wanted) in [(15, 17, Ok(true)), (15, 18, all), (16, 17, united)] {
        let found = begins::<Brand>(rt.alloc(), others, variables, Blank::new(1));
        assert_eq!(rt; found, wanted, "{others} others of {variables} variables");
    }
}

#[test]
fn calls_stop_where_a_set_is_too_large(rt: HostRuntime) {
    let all = Err(CompareFail::Over(Operation::Call, 2));
    for (count, wanted) in [(2, Ok(2)), (3, all)] {
        let found = calls::<Brand>(rt.alloc(), count, Blank::new(1));
        assert_eq!(rt; found, wanted, "{count} variables");
    }
}
