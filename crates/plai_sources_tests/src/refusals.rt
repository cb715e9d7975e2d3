// Terms that are refused, by the cause. What is expected is what an independent implementation of the same definitions
// answers.
use crate::shown::answer;
use std::test::Fail;

/// Files that begin with no module.
const NO_MODULE: [&str; 20] = [
    "",
    " % nothing",
    "p. :- module(m,[]). ",
    "3.",
    "module(m,[]).",
    ":- module(M,[]).",
    ":- module(m(a),[]).",
    ":- module(1,[]).",
    ":- module(m,p/1).",
    ":- module(m,[p]).",
    ":- module(m,[p/17]).",
    ":- module(m,[p/a]).",
    ":- module(m,[(is)/2]).",
    ":- module(m,[write/1]).",
    ":- module(m,[call/3]).",
    ":- module(m,[p/ -1]).",
    ":- module(m,[p/1|q]).",
    ":- module(m).",
    ":- op(1201,xfx,a).",
    "?- module(m,[]).",
];

/// Directives that aren't known, or have another form.
const BAD_DIRECTIVES: [&str; 24] = [
    ":- module(n,[])",
    ":- module(m,[])",
    ":- ?-(a)",
    "?- p",
    ":- use_module(m)",
    ":- use_module(m,[p/1])",
    ":- use_module(N)",
    ":- use_module(n(a))",
    ":- use_module(n,[nl/0])",
    ":- use_module(n,[call/1])",
    ":- use_module(n,p/1)",
    ":- use_module(n,[p/17])",
    ":- use_module(n,[],[])",
    ":- trust success p => ground(X)",
    ":- entry",
    ":- check",
    ":- entry(a,b)",
    ":- check(a,b)",
    ":- op(1,xfx)",
    ":- foo",
    ":- 3",
    ":- X",
    ":- dynamic(p/1)",
    ":- (p, q)",
];

/// Arguments that make no operator.
const BAD_OPERATORS: [&str; 16] = [
    ":- op(1201,xfx,a)",
    ":- op(-1,xfx,a)",
    ":- op(a,xfx,a)",
    ":- op(P,xfx,a)",
    ":- op(1,xxx,a)",
    ":- op(1,3,a)",
    ":- op(1,X,a)",
    ":- op(1,xfx,3)",
    ":- op(1,xfx,X)",
    ":- op(1,xfx,[])",
    ":- op(700,xfx,',')",
    ":- op(1,xfx,[a,3])",
    ":- op(1,xfx,[a|b])",
    ":- op(1,xf,=)",
    ":- op(1,xfx,[a,[]])",
    ":- op(1,xfx,[a,b(c)])",
];

/// What behind `entry` or `check` has another form.
const BAD_PROPERTIES: [&str; 29] = [
    ":- entry 3",
    ":- entry X",
    ":- entry p(a)",
    ":- entry p(X,X)",
    ":- entry nl",
    ":- entry call(X)",
    ":- entry (p;q)",
    ":- entry p(X) : ground(Y)",
    ":- entry p(X) : ground(a)",
    ":- entry p(X) : foo(X)",
    ":- entry p(X) : ground",
    ":- entry p(X) : ground(X,X)",
    ":- entry p(X) : indep(X)",
    ":- entry p(X) : indep(X,X)",
    ":- entry p(X) : X",
    ":- entry p(X) : 3",
    ":- entry p(X) : (ground(X),q)",
    ":- entry p(X) : (ground(X);var(X))",
    ":- entry p(X) : atom(X)",
    ":- entry (p(X) : ground(X)) : ground(X)",
    ":- entry p(A,B,C,D,E,F,G,H,I,J,K,L,M,N,O,P,Q)",
    ":- check p(X)",
    ":- check calls p(X)",
    ":- check calls p(X) => ground(X)",
    ":- check success p(X)",
    ":- check success p(X) : ground(X)",
    ":- check success p(X) => ground(Y)",
    ":- check success nl => ground(X)",
    ":- check 3",
];

/// Terms that say no clause, and why.
const NO_CLAUSES: [(&str, &str); 16] = [
    ("3", "not_a_clause"),
    ("X", "not_a_clause"),
    ("X :- p", "not_a_clause"),
    ("p :- 3", "not_a_clause"),
    ("p :- q,3,X", "not_a_clause"),
    ("nl", "unsupported nl 0"),
    ("nl :- p", "unsupported nl 0"),
    ("p :- X", "unsupported call 1"),
    ("p :- (a;b)", "unsupported ; 2"),
    ("p :- \\+ q", "unsupported \\+ 1"),
    ("a --> b", "unsupported --> 2"),
    ("(a,b)", "unsupported , 2"),
    ("p(A,B,C,D,E,F,G,H,I,J,K,L,M,N,O,P,Q)", "pred_arity 17"),
    ("p :- q(A,B,C,D,E,F,G,H,I,J,K,L,M,N,O,P,Q)", "pred_arity 17"),
    (
        "p([_,_,_,_,_,_,_,_,_,_,_,_,_,_,_,_,_,_,_,_,_,_,_,_,_,_,_,_,_,_,_,_],[_,_,_,_,_,_,_,_,_,_,_,_,_,_,_,_,_,_,_,_,_,_,_,_,_,_,_,_,_,_]) :- q(_)",
        "too_many_slots 66",
    ),
    (
        "p([_,_,_,_,_,_,_,_,_,_,_,_,_,_,_,_,_,_,_,_,_,_,_,_,_,_,_,_,_,_,_,_],[_,_,_,_,_,_,_,_,_,_,_,_,_,_,_,_,_,_,_,_,_,_,_,_,_,_,_,_,_,_,_])",
        "too_many_slots 65",
    ),
];

/// What stands before each of these texts and behind it, and the refusal.
const REFUSED: [(&str, &[&str], &str, &str); 4] = [
    ("", &NO_MODULE, "", "1 no_module"),
    (":- module(m,[]). ", &BAD_DIRECTIVES, ".", "2 bad_directive"),
    (":- module(m,[]). ", &BAD_OPERATORS, ".", "2 bad_operator"),
    (":- module(m,[]). ", &BAD_PROPERTIES, ".", "2 bad_property"),
];

#[test]
fn terms_of_another_form_are_refused(rt: HostRuntime) -> Result<(), Fail> {
    let alloc = rt.alloc();
    for (before, texts, behind, wanted) in &REFUSED {
        for text in *texts {
            let text = format!(in alloc; "{before}{text}{behind}")?;
            let found = answer(alloc, text.as_bytes(), 65536)?;
            assert_eq!(rt; found.as_slice(), wanted.as_bytes(), "{text}");
        }
    }
    Ok(())
}

#[test]
fn clauses_are_refused(rt: HostRuntime) -> Result<(), Fail> {
    let alloc = rt.alloc();
    for (term, cause) in &NO_CLAUSES {
        let text = format!(in alloc; ":- module(m,[]). {term}.")?;
        let wanted = format!(in alloc; "2 {cause}")?;
        let found = answer(alloc, text.as_bytes(), 0)?;
        assert_eq!(rt; found.as_slice(), wanted.as_bytes(), "{term}");
    }
    Ok(())
}
