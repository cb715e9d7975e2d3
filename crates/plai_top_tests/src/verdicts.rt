// Verdicts on assertions.
use crate::world::{File, edited, gives};
use std::test::Fail;

/// Two rows of `p`, of which the entry's alone entails what is demanded of answers; a call that excludes what is demanded of calls;
/// a predicate without rows; and one without answers.
const CHECKS: &[u8] = b":- module(m, []).
:- entry p(X) : ground(X). :- entry q. :- entry s(X) : ground(X). :- entry f(X).
:- check success p(X) => ground(X). :- check success (s(X) : var(X)) => int(X).
:- check success r(X) => ground(X). :- check calls r(X) : ground(X).
:- check success s(X) => var(X). :- check calls s(X) : var(X).
:- check success f(X) => var(X). :- check success f(X) => ground(X).
:- check calls p(X) : ground(X). :- check calls s(X) : ground(X).
q :- p(_). p(_). s(_). f(_) :- fail.";

#[test]
fn verdicts_over_all_rows(rt: HostRuntime) -> Result<(), Fail> {
    let alloc = rt.alloc();
    let ground = b"edit 0
row m:f/1 call t answer none
row m:p/1 call (1 t f) answer (1 t f)
row m:p/1 call t answer t
row m:q/0 call t answer t
row m:s/1 call (1 t f) answer (1 t f)
check m 1 check
check m 2 checked
check m 3 checked
check m 4 checked
check m 5 false
check m 6 false
check m 7 checked
check m 8 checked
check m 9 check
check m 10 checked
end
";
    let share = b"edit 0
row m:f/1 call sh={1} fr={} answer none
row m:p/1 call sh={1} fr={1} answer sh={1} fr={1}
row m:p/1 call sh={} fr={} answer sh={} fr={}
row m:q/0 call sh={} fr={} answer sh={} fr={}
row m:s/1 call sh={} fr={} answer sh={} fr={}
check m 1 check
check m 2 checked
check m 3 checked
check m 4 checked
check m 5 false
check m 6 false
check m 7 checked
check m 8 checked
check m 9 check
check m 10 checked
end
";
    let depth = b"edit 0
row m:f/1 call (any) answer none
row m:p/1 call (any) answer (any)
row m:q/0 call () answer ()
row m:s/1 call (any) answer (any)
check m 1 check
check m 2 check
check m 3 checked
check m 4 checked
check m 5 check
check m 6 check
check m 7 checked
check m 8 checked
check m 9 check
check m 10 check
end
";
    let cases: [(&[&str], &[u8]); 3] = [
        (&["a.pl"], ground),
        (&["--domain", "share", "a.pl"], share),
        (&["--domain", "depth", "a.pl"], depth),
    ];
    let files: [File<'_>; 1] = [("a.pl", CHECKS)];
    for (words, want) in cases {
        assert!(rt; gives(alloc, words, &files, 0, want)?);
    }
    Ok(())
}

/// Two modules with assertions, the later one's file first.
const TWO: [File<'_>; 2] = [
    (
        "m.pl",
        b":- module(m, []). :- entry p(X). :- check success p(X) => ground(X). :- check calls p(X) : ground(X). p(a).",
    ),
    (
        "a.pl",
        b":- module('A', []). :- entry t(X). :- check success t(X) => ground(X). t(b).",
    ),
];

#[test]
fn assertions_are_numbered_within_modules(rt: HostRuntime) -> Result<(), Fail> {
    let alloc = rt.alloc();
    let script =
        b"add(m,p(_)). uncheck(m,1). check('A',(success (t(X):var(X)) => ground(X))). uncheck(m,2). check(m,(success p(X))). all([uncheck('A',1),del(m,p/1,2)]).";
    let rows = "row 'A':t/1 call t answer (1 t f)\nrow m:p/1 call t answer";
    let blocks = [
        "(1 t f)\ncheck 'A' 1 checked\ncheck m 1 checked\ncheck m 2 check\nend\n",
        "t\ncheck 'A' 1 checked\ncheck m 1 check\ncheck m 2 check\nend\n",
        "t\ncheck 'A' 1 checked\ncheck m 1 check\nend\n",
        "t\ncheck 'A' 1 checked\ncheck 'A' 2 checked\ncheck m 1 check\nend\n",
        "(1 t f)\ncheck 'A' 1 checked\ncheck m 1 check\nend\n",
    ];
    let refused = "edit 4\nrefused no_such_check 2 1\nend\nedit 5\nrefused bad_property\nend\n";
    let [loaded, added, taken, more, both] = blocks;
    let want = format!(in alloc;
        "edit 0\n{rows} {loaded}edit 1\n{rows} {added}edit 2\n{rows} {taken}edit 3\n{rows} {more}{refused}edit 6\n{rows} {both}"
    )?;
    let (status, bytes) = edited(alloc, &["m.pl", "a.pl"], &TWO, script)?;
    assert_eq!(rt; status, 1);
    assert!(rt; bytes.as_slice() == want.as_str().as_bytes());
    Ok(())
}
