// Edits of a program with as many items as there may be. What is expected is what an independent implementation of the same
// definitions answers.
use crate::shown::{answer, program_of};
use crate::texts::{IMPORTED, repeated};
use plai_clauses::Program;
use std::alloc::Global;
use std::test::Fail;

/// Scripts, and what each edit makes of the program.
const FULL: [(&str, &str); 22] = [
    ("add(m,r(@)).", "too_deep"),
    ("add(m,r(#)).", "term_arity"),
    ("add(m,a) x.", "syntax"),
    ("add(m,a,b).", "bad_edit"),
    ("add(m,a).", "too_many_items"),
    ("add(m,q).", "import_clash"),
    ("add(m,nl).", "unsupported nl/0"),
    ("add(m,3).", "not_a_clause"),
    ("add(zz,a).", "unknown_module"),
    ("entry(m,p).", "too_many_items"),
    ("entry(m,3).", "bad_property"),
    ("entry(zz,p).", "unknown_module"),
    ("check(m,(calls p(X):ground(X))).", "too_many_items"),
    ("check(m,3).", "bad_property"),
    ("check(zz,3).", "unknown_module"),
    ("del(m,none/0,1).", "no_such_clause 1 0"),
    ("unentry(m,1).", "no_such_entry 1 0"),
    (
        "all([del(m,p/0,1),add(m,a)]). add(m,a).",
        "ok 65536\ntoo_many_items",
    ),
    (
        "del(m,p/0,65535). entry(n,p). check(m,(calls p(X):ground(X))). add(n,a).",
        "ok 65535\nok 65536 n>n:p/0[]\ntoo_many_items\ntoo_many_items",
    ),
    (
        "del(m,p/0,1). check(m,(calls p(X):ground(X))). add(m,a). uncheck(m,1). add(m,a).",
        "ok 65535\nok 65536 m?m:p/1\ntoo_many_items\nok 65535\nok 65536",
    ),
    (
        "all([add(m,a),del(m,p/0,1)]). drop(m,p/0). add(m,a).",
        "too_many_items\nok 1\nok 2",
    ),
    ("all([drop(m,p/0),add(m,p),entry(m,p)]).", "ok 3 m>m:p/0[;]"),
];

/// The program of 65,536 clauses: all but one are of one predicate.
pub(crate) fn full(alloc: Global) -> Result<Program, Fail> {
    let before = ":- module(m,[]). :- use_module(n,[q/0]).";
    let text = repeated(alloc, before, " p.", 65535, "")?;
    program_of(alloc, text.as_str(), IMPORTED)
}

#[test]
fn a_full_program(rt: HostRuntime) -> Result<(), Fail> {
    let alloc = rt.alloc();
    let program = full(alloc)?;
    for (script, wanted) in &FULL {
        let found = answer(alloc, program.copy(alloc)?, script)?;
        assert_eq!(rt; found.as_slice(), wanted.as_bytes(), "{script}");
    }
    Ok(())
}
