// Small programs of one to four files: what is loaded, or the number of the file and that of the term that is refused first,
// and why.
use crate::shown::answer;
use std::test::Fail;

/// Files, and the number of items of the program, each entry with the predicate that it speaks of and what the clauses of
/// that one call, and each check.
const PROGRAMS: [(&str, &str); 19] = [
    (":- module(m,[]).", "ok 0"),
    (":- module(m,[p/0]). p.", "ok 1"),
    (":- module([],[]). :- entry [].", "ok 1 []>[]:[]/0[]"),
    (
        ":- module(m,[]). :- entry p(X). p(X) :- q(X), nl, nope.",
        "ok 2 m>m:p/1[m:q/1,#,m:nope/0;]",
    ),
    (
        ":- module(m,[]). :- use_module(n). :- entry p. p :- q, r. r.----:- module(n,[q/0]). q :- r.",
        "ok 4 m>m:p/0[n:q/0,m:r/0;]",
    ),
    (
        ":- module(m,[]). :- entry p. p :- q, q(X), q. :- use_module(n,[q/0]).----:- module(n,[q/0,q/1]). q. q(a).",
        "ok 4 m>m:p/0[n:q/0,m:q/1,n:q/0;]",
    ),
    (
        ":- module(n,[q/0]). q.----:- module(m,[]). :- use_module(n,[q/0]). :- entry p. p :- q.",
        "ok 3 m>m:p/0[n:q/0;]",
    ),
    (
        ":- module(m,[p/0]). :- use_module(n). p :- q. :- entry p.----:- module(n,[q/0]). :- use_module(m). q :- p. :- entry q. :- entry p.",
        "ok 5 m>m:p/0[n:q/0;] n>n:q/0[m:p/0;] n>m:p/0[n:q/0;]",
    ),
    (
        ":- module(m,[]). :- use_module(n). :- entry p.----:- module(n,[p/0]). :- use_module(l).----:- module(l,[p/0]). p.",
        "ok 2 m>n:p/0[]",
    ),
    (
        ":- module(m,[]). :- use_module(n,[]). :- entry q. q.----:- module(n,[q/0]). q.",
        "ok 3 m>m:q/0[;]",
    ),
    (
        ":- module(m,[]). :- use_module(n,[q/0,q/0]). :- use_module(n). :- entry q.----:- module(n,[q/0,q/0]). q. q.",
        "ok 3 m>n:q/0[;;]",
    ),
    (
        ":- module(m,[]). :- use_module(n,[q/1]). :- entry q. q. :- entry q(X).----:- module(n,[q/0,q/1]). q.",
        "ok 4 m>m:q/0[;] m>n:q/1[]",
    ),
    (
        ":- module(m,[]). :- entry q. :- use_module(n). :- check calls q(X) : ground(X).----:- module(n,[q/0,q/1]).",
        "ok 2 m>n:q/0[] m?n:q/1",
    ),
    (
        ":- module(n,[]). :- entry a. :- check calls c(X) : int(X).----:- module(m,[]). :- entry b. :- entry c. :- check success d(X,Y) => indep(X,Y).",
        "ok 5 m>m:b/0[] m>m:c/0[] n>n:a/0[] m?m:d/2 n?n:c/1",
    ),
    (
        ":- module(m,[]). :- op(700,xfx,===>). :- entry p(X) : ground(X). p(a ===> b).----:- module(n,[]). :- entry p.",
        "ok 3 m>m:p/1[;] n>n:p/0[]",
    ),
    (
        ":- module(m,[nope/3]). :- entry p. p :- nope(a,b,c).",
        "ok 2 m>m:p/0[m:nope/3;]",
    ),
    (
        ":- module(m,[]). :- use_module(n). :- entry p. p :- q, nl, q.----:- module(n,[q/0]).",
        "ok 2 m>m:p/0[n:q/0,#,n:q/0;]",
    ),
    (
        ":- module(m,[]). :- use_module(l,[q/0]). :- use_module(n,[r/0]). :- entry p. p :- q, r.----:- module(n,[q/0,r/0]).----:- module(l,[q/0,r/0]).",
        "ok 2 m>m:p/0[l:q/0,n:r/0;]",
    ),
    (
        ":- module(m,[]). :- use_module(n,[p/0]). :- use_module(l,[q/0]).----:- module(n,[p/0]).----:- module(l,[p/0,q/0]).",
        "ok 0",
    ),
];

/// Files of which the second pass refuses one: a module that stands twice, and imports.
const IMPORTS: [(&str, &str); 25] = [
    (":- module(m,[]). :- use_module(n).", "1 2 unknown_module"),
    (
        ":- module(m,[]). p. :- use_module(n,[]).",
        "1 3 unknown_module",
    ),
    (
        ":- module(m,[]). :- use_module(zz).----:- module(m,[]).",
        "1 2 unknown_module",
    ),
    (
        ":- module(m,[]). p. :- use_module(zz). :- use_module(n).----:- module(n,[p/0]).",
        "1 3 unknown_module",
    ),
    (
        ":- module(m,[]). :- use_module(zz). :- use_module(n,[x/0]).----:- module(n,[p/0]).",
        "1 2 unknown_module",
    ),
    (
        ":- module(m,[]). :- use_module(n).----:- module(n,[p/0]). :- use_module(zz).----:- module(l,[]). p. :- use_module(n).",
        "2 2 unknown_module",
    ),
    (
        ":- module(m,[]). :- use_module(n,[p/0]).----:- module(n,[p/1]). p.",
        "1 2 not_exported",
    ),
    (
        ":- module(m,[]). :- use_module(n,[q/0,p/0]).----:- module(n,[q/0]).",
        "1 2 not_exported",
    ),
    (
        ":- module(m,[]). :- use_module(n,[p/0]).----:- module(n,[]).----:- module(n,[p/0]).",
        "1 2 not_exported",
    ),
    (
        ":- module(m,[]). p. :- use_module(n,[p/0,q/0]).----:- module(n,[p/0]).",
        "1 3 not_exported",
    ),
    (
        ":- module(m,[]). p. :- use_module(n,[q/0,p/0]).----:- module(n,[p/0]).",
        "1 3 not_exported",
    ),
    (
        ":- module(m,[]). p. :- use_module(n,[x/0]). :- use_module(n).----:- module(n,[p/0]).",
        "1 3 not_exported",
    ),
    (
        ":- module(m,[]). :- use_module(n,[x/0]). :- use_module(zz).----:- module(n,[p/0]).",
        "1 2 not_exported",
    ),
    (
        ":- module(m,[]). p. :- use_module(n,[p/0]).----:- module(n,[p/0]).",
        "1 3 import_clash",
    ),
    (
        ":- module(m,[]). :- use_module(n). a. p :- a.----:- module(n,[p/0]).",
        "1 2 import_clash",
    ),
    (
        ":- module(m,[]). :- use_module(n). p(X) :- q(X).----:- module(n,[q/1,p/1]).",
        "1 2 import_clash",
    ),
    (
        ":- module(m,[]). :- use_module(n). :- use_module(l).----:- module(n,[p/0]).----:- module(l,[p/0]).",
        "1 3 import_clash",
    ),
    (
        ":- module(m,[]). :- use_module(n,[p/0]). :- use_module(l,[q/0,p/0]).----:- module(n,[p/0]).----:- module(l,[p/0,q/0]).",
        "1 3 import_clash",
    ),
    (
        ":- module(m,[]). p. :- use_module(n). :- use_module(zz).----:- module(n,[p/0]).",
        "1 3 import_clash",
    ),
    (
        ":- module(m,[]). p. :- use_module(n). :- use_module(n,[x/0]).----:- module(n,[p/0]).",
        "1 3 import_clash",
    ),
    (
        ":- module(m,[]). :- use_module(n). p.----:- module(n,[p/0]). :- use_module(zz).",
        "1 2 import_clash",
    ),
    (
        ":- module(m,[]).----:- module(m,[]).",
        "2 1 duplicate_module",
    ),
    (
        ":- module(m,[]).----:- module(m,[]). :- use_module(zz).",
        "2 1 duplicate_module",
    ),
    (
        ":- module(m,[]). :- use_module(n,[p/0]).----:- module(n,[p/0]).----:- module(n,[]).",
        "3 1 duplicate_module",
    ),
    (
        ":- module(l,[]). :- use_module(n).----:- module(n,[]).----:- module(l,[]). :- use_module(zz).----:- module(n,[]).",
        "3 1 duplicate_module",
    ),
];

/// Files of which the first pass refuses one: each cause, with the numbers of the file and of the term.
const TERMS: [(&str, &str); 30] = [
    (
        ":- module(m,[]). -->(a). :- entry p. p :- a --> b.",
        "1 4 syntax",
    ),
    (":- module(m,[]). p :- q", "1 2 syntax"),
    (":- module(m,[]). 0'ab.", "1 2 syntax"),
    (
        ":- module(m,[]). :- op(700,xfx,===>).----:- module(n,[]). p(a ===> b).",
        "2 2 syntax",
    ),
    ("p(a).", "1 1 no_module"),
    ("", "1 1 no_module"),
    ("% nothing", "1 1 no_module"),
    (":- module(m,[]).----", "2 1 no_module"),
    (":- module(m,[true/0]).", "1 1 no_module"),
    (":- module(m,[]). :- use_module(zz).----p.", "2 1 no_module"),
    (":- module(m,[]).----:- module(m,[]).----", "3 1 no_module"),
    (":- module(m,[]). :- module(m,[]).", "1 2 bad_directive"),
    (":- module(m,[]). :- use_module(m).", "1 2 bad_directive"),
    (":- module(m,[]). ?- p.", "1 2 bad_directive"),
    (
        ":- module(m,[]). :- use_module(n,[call/1]).----:- module(n,[]).",
        "1 2 bad_directive",
    ),
    (
        ":- module(m,[]). p. :- use_module(n).----:- module(n,[p/0]). ?- p.",
        "2 2 bad_directive",
    ),
    (
        ":- module(m,[]).----:- module(m,[]). :- foo.----p.",
        "2 2 bad_directive",
    ),
    (":- module(m,[]). :- entry true.", "1 2 bad_property"),
    (":- module(m,[]). :- check p(X).", "1 2 bad_property"),
    (":- module(m,[]). :- op(700,xfx,[]).", "1 2 bad_operator"),
    (
        ":- module(m,[]). p(L) :- findall(X, q(X), L).",
        "1 2 unsupported",
    ),
    (
        ":- module(m,[]). :- use_module(n,[x/0]). p :- X.----:- module(n,[p/0]).",
        "1 3 unsupported",
    ),
    (":- module(m,[]). p :- 3.", "1 2 not_a_clause"),
    (":- module(m,[]). \"abc", "1 2 open_quote"),
    (":- module(m,[]). p(a) /* q", "1 2 open_comment"),
    (":- module(m,[]). p({).", "1 2 bad_character"),
    (":- module(m,[]). p('\\q').", "1 2 bad_escape"),
    (
        ":- module(m,[]).----:- module(n,[]). p. q(170141183460469231731687303715884105728).",
        "2 3 number_too_large",
    ),
    (
        ":- module(m,[]). p(A,B,C,D,E,F,G,H,I,J,K,L,M,N,O,P,Q).",
        "1 2 pred_arity",
    ),
    (
        ":- module(m,[]). p([_,_,_,_,_,_,_,_,_,_,_,_,_,_,_,_,_,_,_,_,_,_,_,_,_,_,_,_,_,_,_,_],[_,_,_,_,_,_,_,_,_,_,_,_,_,_,_,_,_,_,_,_,_,_,_,_,_,_,_,_,_,_,_]).",
        "1 2 too_many_slots",
    ),
];

#[test]
fn small_programs(rt: HostRuntime) -> Result<(), Fail> {
    let alloc = rt.alloc();
    for cases in [PROGRAMS.as_slice(), IMPORTS.as_slice(), TERMS.as_slice()] {
        for (files, wanted) in cases {
            let found = answer(alloc, files)?;
            assert_eq!(rt; found.as_slice(), wanted.as_bytes(), "{files}");
        }
    }
    Ok(())
}
