//! Whether entries and assertions are equal one by one.
ghost use Rattle.std.specs.Prelude.{◌≡◌, ◌↔◌, true};

use plai_clauses::{Check, CheckKind, Entry};
use plai_terms::Prop;

/// Whether the properties are equal one by one.
fn same_properties(one: &[Prop], two: &[Prop]) -> bool
    ensures { (result ≡ true) ↔ (one.now ≡ two.now) }
{
    one == two
}

/// Whether these are equal.
fn same_entry(one: &Entry, two: &Entry) -> bool
    ensures { (result ≡ true) ↔ (one.now ≡ two.now) }
{
    let modules = one.module == two.module;
    let preds = one.pred == two.pred;
    let properties = same_properties(one.pre.as_slice(), two.pre.as_slice());
    modules & preds & properties
}

/// Whether the entries are equal one by one.
pub(crate) fn same_entries(one: &[Entry], two: &[Entry]) -> bool
    ensures { (result ≡ true) ↔ (one.now ≡ two.now) }
{
    if one.len() != two.len() {
        return false;
    }
    let mut place: usize = 0;
    while place < one.len() {
        if !same_entry(&one[place], &two[place]) {
            return false;
        }
        place += 1;
    }
    true
}

/// Whether these are equal.
fn same_kind(one: CheckKind, two: CheckKind) -> bool
    ensures { (result ≡ true) ↔ (one ≡ two) }
{
    match (one, two) {
        (CheckKind::Calls, CheckKind::Calls) | (CheckKind::Success, CheckKind::Success) => true,
        _ => false,
    }
}

/// Whether these are equal.
fn same_check(one: &Check, two: &Check) -> bool
    ensures { (result ≡ true) ↔ (one.now ≡ two.now) }
{
    let modules = one.module == two.module;
    let kinds = same_kind(one.kind, two.kind);
    let preds = one.pred == two.pred;
    let before = same_properties(one.pre.as_slice(), two.pre.as_slice());
    let after = same_properties(one.post.as_slice(), two.post.as_slice());
    modules & kinds & preds & before & after
}

/// Whether the assertions are equal one by one. It takes no memory.
pub fn same_checks(one: &[Check], two: &[Check]) -> bool
    ensures { (result ≡ true) ↔ (one.now ≡ two.now) }
{
    if one.len() != two.len() {
        return false;
    }
    let mut place: usize = 0;
    while place < one.len() {
        if !same_check(&one[place], &two[place]) {
            return false;
        }
        place += 1;
    }
    true
}
