// Two refused edits in an `all`: a cause for which the term is no `all` of edits comes before those of its edits, of which the
// first counts.
use crate::full::full;
use crate::shown::answer;
use std::alloc::{AllocError, Global};
use std::test::Fail;

/// Edits of a full program of which each is refused: the place of the cause among those of which the least counts, wherever it
/// stands, and the cause.
const FAULTS: [(&str, u32, &str); 15] = [
    ("add(m,p) x", 0, "syntax"),
    ("add(m,p(@))", 1, "too_deep"),
    ("add(m,p(#))", 2, "term_arity"),
    ("frob(m)", 3, "bad_edit"),
    ("add(zz,p)", 4, "unknown_module"),
    ("add(m,3)", 4, "not_a_clause"),
    ("add(m,nl)", 4, "unsupported nl/0"),
    ("entry(m,3)", 4, "bad_property"),
    ("check(m,3)", 4, "bad_property"),
    ("add(m,q)", 4, "import_clash"),
    ("del(m,none/0,1)", 4, "no_such_clause 1 0"),
    ("unentry(m,7)", 4, "no_such_entry 7 0"),
    ("uncheck(m,0)", 4, "no_such_check 0 0"),
    ("add(m,p)", 4, "too_many_items"),
    ("entry(n,p)", 4, "too_many_items"),
];

/// The cause that counts.
fn first_cause(
    first: &(&str, u32, &'static str),
    second: &(&str, u32, &'static str),
) -> &'static str {
    if second.1 < first.1 {
        second.2
    } else {
        first.2
    }
}

/// An `all` of two edits.
fn pair(alloc: Global, first: &str, second: &str) -> Result<String, AllocError> {
    format!(in alloc; "all([{first},{second}]).")
}

#[test]
fn of_two_refused_edits_the_first_counts(rt: HostRuntime) -> Result<(), Fail> {
    let alloc = rt.alloc();
    let program = full(alloc)?;
    for first in &FAULTS {
        for second in &FAULTS {
            let script = pair(alloc, first.0, second.0)?;
            let found = answer(alloc, program.copy(alloc)?, script.as_str())?;
            let wanted = first_cause(first, second);
            assert_eq!(rt; found.as_slice(), wanted.as_bytes(), "{script}");
        }
    }
    Ok(())
}
