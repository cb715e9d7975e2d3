// Edits that are carried out. What is expected is what an independent implementation of the same definitions answers.
use crate::shown::{answer, program_of};
use crate::texts::{IMPORTED, IMPORTING};
use std::test::Fail;

/// Scripts, and what each edit makes of the program.
const ACCEPTED: [(&str, &str); 26] = [
    ("add(m,p(b)).", "ok 5 m>m:p/1[a;_0 n:q/0;b;]"),
    (
        "add(m,(p(f(Y,X,Y)):-q(Y),q,nl)).",
        "ok 5 m>m:p/1[a;_0 n:q/0;f(_0,_1,_0) m:q/1 n:q/0 #;]",
    ),
    ("add(n,q).", "ok 5 m>m:p/1[a;_0 n:q/0;]"),
    (
        "add(n,r(X)). entry(n,r(Y):ground(Y)). add(n,r(k)).",
        "ok 5 m>m:p/1[a;_0 n:q/0;]\nok 6 m>m:p/1[a;_0 n:q/0;] n>n:r/1[_0;]\nok 7 m>m:p/1[a;_0 n:q/0;] n>n:r/1[_0;k;]",
    ),
    ("del(m,p/1,1).", "ok 3 m>m:p/1[_0 n:q/0;]"),
    ("del(m,p/1,2).", "ok 3 m>m:p/1[a;]"),
    (
        "del(m,p/1,1). del(m,p/1,1). del(m,p/1,1).",
        "ok 3 m>m:p/1[_0 n:q/0;]\nok 2 m>m:p/1[]\nno_such_clause 1 0",
    ),
    ("drop(m,p/1).", "ok 2 m>m:p/1[]"),
    (
        "drop(m,p/1). add(m,p(c)).",
        "ok 2 m>m:p/1[]\nok 3 m>m:p/1[c;]",
    ),
    (
        "drop(m,none/3). drop(n,nl/0). drop(m,q/0).",
        "ok 4 m>m:p/1[a;_0 n:q/0;]\nok 4 m>m:p/1[a;_0 n:q/0;]\nok 4 m>m:p/1[a;_0 n:q/0;]",
    ),
    (
        "entry(m,p(Y):ground(Y)).",
        "ok 5 m>m:p/1[a;_0 n:q/0;] m>m:p/1[a;_0 n:q/0;]",
    ),
    (
        "entry(m,q). del(n,q/0,1).",
        "ok 5 m>m:p/1[a;_0 n:q/0;] m>n:q/0[;]\nok 4 m>m:p/1[a;_0 n:q/0;] m>n:q/0[]",
    ),
    (
        "entry(n,p(X)). unentry(n,1).",
        "ok 5 m>m:p/1[a;_0 n:q/0;] n>n:p/1[]\nok 4 m>m:p/1[a;_0 n:q/0;]",
    ),
    ("unentry(m,1).", "ok 3"),
    (
        "entry(m,q). unentry(m,1). unentry(m,1). unentry(m,1).",
        "ok 5 m>m:p/1[a;_0 n:q/0;] m>n:q/0[;]\nok 4 m>n:q/0[;]\nok 3\nno_such_entry 1 0",
    ),
    (
        "check(m,(calls p(X):var(X))). uncheck(m,1).",
        "ok 5 m>m:p/1[a;_0 n:q/0;] m?m:p/1\nok 4 m>m:p/1[a;_0 n:q/0;]",
    ),
    (
        "check(n,(success p(X)=>int(X))). check(m,(success q=>int(X))).",
        "ok 5 m>m:p/1[a;_0 n:q/0;] n!n:p/1\nbad_property",
    ),
    (
        "check(n,(success s(X,Y)=>indep(X,Y))). check(m,(calls t(Z):int(Z))). uncheck(n,1).",
        "ok 5 m>m:p/1[a;_0 n:q/0;] n!n:s/2\nok 6 m>m:p/1[a;_0 n:q/0;] m?m:t/1 n!n:s/2\nok 5 m>m:p/1[a;_0 n:q/0;] m?m:t/1",
    ),
    ("all([]).", "ok 4 m>m:p/1[a;_0 n:q/0;]"),
    (
        "all([add(m,p(b)),del(m,p/1,1),entry(n,q)]).",
        "ok 5 m>m:p/1[_0 n:q/0;b;] n>n:q/0[;]",
    ),
    ("all([add(m,z),del(m,z/0,1)]).", "ok 4 m>m:p/1[a;_0 n:q/0;]"),
    (
        "all([drop(m,p/1),add(m,p(A)),add(m,(p(B):-p(A,B)))]).",
        "ok 4 m>m:p/1[_0;_0 m:p/2;]",
    ),
    ("% nothing", ""),
    (
        "all([check(m,(calls p(X):var(X))),unentry(m,1),uncheck(m,1)]).",
        "ok 3",
    ),
    (
        "add(m,p(-1)). add(m,p('A b')). add(m,p([])).",
        "ok 5 m>m:p/1[a;_0 n:q/0;-1;]\nok 6 m>m:p/1[a;_0 n:q/0;-1;'A b';]\nok 7 m>m:p/1[a;_0 n:q/0;-1;'A b';[];]",
    ),
    (
        "add(m,r($)). add(m,r(&)).",
        "ok 5 m>m:p/1[a;_0 n:q/0;]\nok 6 m>m:p/1[a;_0 n:q/0;]",
    ),
];

#[test]
fn edits_are_carried_out(rt: HostRuntime) -> Result<(), Fail> {
    let alloc = rt.alloc();
    let program = program_of(alloc, IMPORTING, IMPORTED)?;
    for (script, wanted) in &ACCEPTED {
        let found = answer(alloc, program.copy(alloc)?, script)?;
        assert_eq!(rt; found.as_slice(), wanted.as_bytes(), "{script}");
    }
    Ok(())
}
