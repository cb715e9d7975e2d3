// Texts and their items, or the first refusal. What is expected is what an independent implementation of the same
// definitions answers.
use crate::shown::answer;
use std::alloc::{AllocError, Global};
use std::test::Fail;

/// Texts, how many items stand in earlier files, and what each text says.
const FILES: [(&str, u64, &str); 12] = [
    (
        ":- module(m,[p/1,q/0]). p(X) :- q, r(X,_). q.",
        0,
        "m[p/1,q/0]; 2::-(p(_0),','(q,r(_0,_1))); 3:q #2",
    ),
    (
        ":- module([],['[]'/0]). :- entry [].",
        0,
        "[][[]/0]; 2:entry []/0 #1",
    ),
    (
        ":- module(m,[]). :- use_module(n). :- use_module(n,[p/1]). :- use_module(k,[]). p.",
        0,
        "m[]; 2:use n; 3:use n[p/1]; 4:use k[]; 5:p #1",
    ),
    (
        ":- module(m,[]). :- op(700,xfx,===). p :- a === b. :- op(0,xfx,===). :- op(200,xfy,[++,--]). q(a ++ b -- c).",
        0,
        "m[]; 3::-(p,===(a,b)); 6:q(++(a,--(b,c))) #2",
    ),
    (
        ":- module(m,[]). :- entry p(X,Y). :- entry p(X,Y) : (ground(X),(var(Y),indep(Y,X)),nonvar(X),int(Y)).",
        0,
        "m[]; 2:entry p/2; 3:entry p/2 g1 v2 d2-1 n1 i2 #2",
    ),
    (
        ":- module(m,[]). :- check calls p(X) : ground(X). :- check success p(X) => int(X). :- check success (p(X,Y) : ground(X)) => indep(X,Y).",
        0,
        "m[]; 2:calls p/1 g1 =>; 3:success p/1 => i1; 4:success p/2 g1 => d1-2 #3",
    ),
    (
        ":- module(m,[]). :- use_module(n). :- op(0,xfx,a).",
        65536,
        "m[]; 2:use n #65536",
    ),
    (":- module(m,[]). p.", 65535, "m[]; 2:p #65536"),
    (
        ":- module(m,[]). :- entry p(A,B,C,D,E,F,G,H,I,J,K,L,M,N,O,P) : indep(P,A).",
        0,
        "m[]; 2:entry p/16 d16-1 #1",
    ),
    (
        ":- module(m,[]). (a --> b) :- p.",
        0,
        "m[]; 2::-(-->(a,b),p) #1",
    ),
    (
        "% a file\n:- module('M',[p/16,p/0]).\n/* of */ p.",
        3,
        "M[p/16,p/0]; 2:p #4",
    ),
    (":- module(m,[]).", 0, "m[] #0"),
];

/// Texts, how many items stand in earlier files, and the first refused term with its cause.
const REFUSED: [(&str, u64, &str); 27] = [
    ("{", 0, "1 bad_character 0"),
    (":- module(m,[]). p. q({). 3.", 0, "3 bad_character 22"),
    (":- module(m,[]). p q 'a .", 0, "2 open_quote 21"),
    (":- module(m,[]). p. /* q.", 0, "3 open_comment 20"),
    (":- module(m,[]). p('\\q').", 0, "2 bad_escape 20"),
    (
        ":- module(m,[]). p(170141183460469231731687303715884105728).",
        0,
        "2 number_too_large 19",
    ),
    (":- module(m,[]). 3. {", 0, "2 not_a_clause"),
    (":- module(m,[]). p( . /* ", 0, "2 syntax"),
    (":- module(m,[]). p q. {", 0, "2 syntax"),
    (":- module(m,[]). p. q", 0, "3 syntax"),
    ("p q.", 0, "1 syntax"),
    (":- module(m,[]). p q. 3.", 0, "2 syntax"),
    (
        ":- module(m,[]). p :- a === b. :- op(700,xfx,===).",
        0,
        "2 syntax",
    ),
    (":- module(m,[]). f(). ", 65536, "2 syntax"),
    (":- module(m,[is/2]).", 0, "1 syntax"),
    (":- module(m,[]) . :- module(m,[]).", 0, "2 bad_directive"),
    (":- module(m,[]). ?- p.", 0, "2 bad_directive"),
    (
        ":- module(m,[]). :- use_module(n). p. :- entry q. :- check success q => ground(X).",
        7,
        "5 bad_property",
    ),
    (":- module(m,[]). 3. :- foo. {", 0, "2 not_a_clause"),
    (":- module(m,[]). :- foo. 3.", 0, "2 bad_directive"),
    (":- module(m,[]). p.", 65536, "2 too_many_items"),
    (":- module(m,[]). p. q. r.", 65534, "4 too_many_items"),
    (":- module(m,[]). :- entry p(X).", 65536, "2 too_many_items"),
    (
        ":- module(m,[]). :- check calls p(X) : ground(X).",
        65536,
        "2 too_many_items",
    ),
    (":- module(m,[]). 3.", 65536, "2 not_a_clause"),
    ("3.", 65536, "1 no_module"),
    (":- module(m,[]). :- entry 3. q", 65536, "2 bad_property"),
];

#[test]
fn texts_and_their_items(rt: HostRuntime) -> Result<(), Fail> {
    let alloc = rt.alloc();
    for cases in [FILES.as_slice(), REFUSED.as_slice()] {
        for (text, there, wanted) in cases {
            let found = answer(alloc, text.as_bytes(), *there)?;
            assert_eq!(rt; found.as_slice(), wanted.as_bytes(), "{text}");
        }
    }
    Ok(())
}

fn push_repeated(text: &str, times: u32, out: &mut Vec<u8>) -> Result<(), AllocError> {
    for _ in 0..times {
        out.extend_from_slice(text.as_bytes())?;
    }
    Ok(())
}

/// Compounds as deep as this, of which the innermost has so many arguments and one more.
fn nested(alloc: Global, before: &str, depth: u32, width: u32) -> Result<Vec<u8>, AllocError> {
    let mut out = Vec::from_slice(alloc, before.as_bytes())?;
    push_repeated("f(", depth, &mut out)?;
    push_repeated("a,", width, &mut out)?;
    out.extend_from_slice(b"a")?;
    push_repeated(")", depth, &mut out)?;
    out.extend_from_slice(b".")?;
    Ok(out)
}

/// What stands before, the depth and the width of the term behind it, how many items stand in earlier files, and the
/// refusal.
const NESTED: [(&str, u32, u32, u64, &str); 9] = [
    (":- module(m,[]). ", 2000, 0, 0, "2 too_deep"),
    (":- module(m,[]). ", 2000, 0, 65536, "2 too_deep"),
    (":- module(m,[]). ", 2000, 255, 0, "2 too_deep"),
    (":- module(m,[]). ", 1999, 255, 0, "2 term_arity"),
    (":- module(m,[]). ", 1, 255, 65536, "2 term_arity"),
    (":- module(m,[]). ", 1, 254, 0, "2 pred_arity 255"),
    ("", 2000, 0, 0, "1 too_deep"),
    ("", 1, 255, 0, "1 term_arity"),
    ("", 1, 254, 0, "1 no_module"),
];

#[test]
fn deep_and_wide_terms(rt: HostRuntime) -> Result<(), Fail> {
    let alloc = rt.alloc();
    for (before, depth, width, there, wanted) in &NESTED {
        let text = nested(alloc, before, *depth, *width)?;
        let found = answer(alloc, text.as_slice(), *there)?;
        assert_eq!(rt; found.as_slice(), wanted.as_bytes());
    }
    Ok(())
}
