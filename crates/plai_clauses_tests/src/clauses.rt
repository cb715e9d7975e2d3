// The clauses that terms say, and why others say none.
use crate::reading::{imports, many, name, term};
use plai_clauses::{Clause, ClauseCause, ClauseFail, Literal, Target};
use plai_terms::{Term, print_term};
use std::alloc::{AllocError, Global};
use std::test::Fail;

fn put(out: &mut Vec<u8>, text: &str) -> Result<(), AllocError> {
    out.extend_from_slice(text.as_bytes())
}

fn put_number(alloc: Global, out: &mut Vec<u8>, number: u32) -> Result<(), AllocError> {
    put(out, format!(in alloc; "{number}")?.as_str())
}

fn put_terms(alloc: Global, out: &mut Vec<u8>, terms: &[Term]) -> Result<(), AllocError> {
    for term in terms {
        put(out, " ")?;
        print_term(alloc, term, out)?;
    }
    Ok(())
}

fn put_literal(alloc: Global, out: &mut Vec<u8>, literal: &Literal) -> Result<(), AllocError> {
    match &literal.target {
        Target::Builtin => put(out, "; #")?,
        Target::Pred(pred) => {
            put(out, "; ")?;
            out.extend_from_slice(pred.module.as_slice())?;
            put(out, ":")?;
            out.extend_from_slice(pred.name.as_slice())?;
            put(out, "/")?;
            put_number(alloc, out, pred.arity)?;
            put(out, " ")?;
        }
    }
    out.extend_from_slice(literal.name.as_slice())?;
    put_terms(alloc, out, literal.args.as_slice())
}

// The number of variables, the head, and of each literal what it calls, its name and its arguments.
fn put_clause(alloc: Global, out: &mut Vec<u8>, clause: &Clause) -> Result<(), AllocError> {
    put_number(alloc, out, clause.variables)?;
    put(out, " ")?;
    out.extend_from_slice(clause.name.as_slice())?;
    put_terms(alloc, out, clause.head.as_slice())?;
    for literal in clause.body.as_slice() {
        put_literal(alloc, out, literal)?;
    }
    Ok(())
}

fn put_cause(alloc: Global, out: &mut Vec<u8>, cause: &ClauseCause) -> Result<(), AllocError> {
    match cause {
        ClauseCause::NotAClause => put(out, "not a clause"),
        ClauseCause::Unsupported(name, arity) => {
            put(out, "unsupported ")?;
            out.extend_from_slice(name.as_slice())?;
            put(out, "/")?;
            put_number(alloc, out, *arity)
        }
        ClauseCause::ArityTooLarge(arity) => {
            put(out, "arity ")?;
            put_number(alloc, out, *arity)
        }
        ClauseCause::TooManySlots(slots) => {
            put(out, "slots ")?;
            put_number(alloc, out, *slots)
        }
    }
}

/// The clause of a text in the module m, which imports `q/0` from n, or why it says none.
fn answer(alloc: Global, text: &str) -> Result<Vec<u8>, Fail> {
    let read = term(alloc, text)?;
    let home = name(alloc, "m")?;
    let mut out = Vec::new(alloc);
    match Clause::from_term(alloc, &home, &imports(alloc)?, &read) {
        Ok(clause) => put_clause(alloc, &mut out, &clause)?,
        Err(ClauseFail::Refused(cause)) => put_cause(alloc, &mut out, &cause)?,
        Err(ClauseFail::Memory) => put(&mut out, "memory")?,
    }
    Ok(out)
}

/// Texts of terms, and the clauses that they say.
const CLAUSES: [(&str, &str); 16] = [
    ("p.", "0 p"),
    ("p(X,b,X,_).", "2 p _0 b _0 _1"),
    ("p :- true.", "0 p; #true"),
    ("p :- q.", "0 p; n:q/0 q"),
    ("p :- q(a).", "0 p; m:q/1 q a"),
    ("q :- p.", "0 q; m:p/0 p"),
    (
        "p(X) :- r(X,Y), Y is X.",
        "2 p _0; m:r/2 r _0 _1; #is _1 _0",
    ),
    ("p :- (a,q),(nl,b).", "0 p; m:a/0 a; n:q/0 q; #nl; m:b/0 b"),
    (
        "p :- a,(b,(c,d)).",
        "0 p; m:a/0 a; m:b/0 b; m:c/0 c; m:d/0 d",
    ),
    ("call.", "0 call"),
    ("p :- call.", "0 p; m:call/0 call"),
    ("(a --> b) :- p.", "0 --> a b; m:p/0 p"),
    ("p :- (a --> b).", "0 p; m:-->/2 --> a b"),
    ("f((a:-b)).", "0 f :-(a,b)"),
    ("write(a,b) :- nl(a).", "0 write a b; m:nl/1 nl a"),
    ("','(a) :- 'is'(b).", "0 , a; m:is/1 is b"),
];

/// Texts of terms that say no clause, and why: of several causes that of the head, then that of the first goal.
const REFUSED: [(&str, &str); 33] = [
    ("3.", "not a clause"),
    ("X.", "not a clause"),
    ("X :- p.", "not a clause"),
    ("3 :- p.", "not a clause"),
    ("p :- 3.", "not a clause"),
    ("p :- q, -1.", "not a clause"),
    ("p :- X.", "unsupported call/1"),
    ("true.", "unsupported true/0"),
    ("!.", "unsupported !/0"),
    ("X is Y.", "unsupported is/2"),
    ("a = b :- p.", "unsupported =/2"),
    ("functor(X,Y,Z).", "unsupported functor/3"),
    ("a ; b.", "unsupported ;/2"),
    ("a , b.", "unsupported ,/2"),
    (":- p.", "unsupported :-/1"),
    ("?- p.", "unsupported ?-/1"),
    ("(a :- b) :- c.", "unsupported :-/2"),
    ("a --> b.", "unsupported -->/2"),
    ("call(p).", "unsupported call/1"),
    ("call(p,a,b) :- p.", "unsupported call/3"),
    ("p :- \\+ q.", "unsupported \\+/1"),
    ("p :- (a -> b).", "unsupported ->/2"),
    ("p :- m:q.", "unsupported :/2"),
    ("p :- findall(X,q(X),L).", "unsupported findall/3"),
    ("p :- assert(q), 3.", "unsupported assert/1"),
    ("p :- call(X,a).", "unsupported call/2"),
    ("p :- 3, X.", "not a clause"),
    ("p :- X, 3.", "unsupported call/1"),
    ("p :- (a,(X,3)), 4.", "unsupported call/1"),
    ("nl :- 3.", "unsupported nl/0"),
    ("3 :- X.", "not a clause"),
    ("X :- 3.", "not a clause"),
    ("p :- (a;b), (c->d).", "unsupported ;/2"),
];

#[test]
fn terms_say_clauses_or_none(rt: HostRuntime) -> Result<(), Fail> {
    let alloc = rt.alloc();
    for cases in [CLAUSES.as_slice(), REFUSED.as_slice()] {
        for (text, wanted) in cases {
            let found = answer(alloc, text)?;
            assert_eq!(rt; found.as_slice(), wanted.as_bytes(), "{text}");
        }
    }
    Ok(())
}

/// A head of so many arguments, of which the last is a list of so many variables, with a goal before two of so many
/// arguments each; and why the clause is refused.
const WIDE: [(u32, u32, &str, u32, u32, &str); 13] = [
    (16, 47, "a", 1, 1, ""),
    (16, 48, "a", 1, 1, "slots 65"),
    (1, 48, "a", 15, 2, ""),
    (1, 48, "a", 2, 15, ""),
    (1, 48, "a", 16, 2, "slots 65"),
    (1, 48, "a", 2, 16, "slots 65"),
    (16, 100, "a", 16, 16, "slots 132"),
    (17, 0, "a", 1, 1, "arity 17"),
    (1, 0, "a", 17, 1, "arity 17"),
    (1, 100, "a", 1, 20, "arity 20"),
    (17, 100, "3", 20, 20, "arity 17"),
    (16, 100, "3", 20, 20, "not a clause"),
    (1, 0, "a", 18, 17, "arity 18"),
];

// The arguments before the last of so many.
fn before(alloc: Global, count: u32) -> Result<String, AllocError> {
    let mut text = String::new(alloc);
    for _ in 1..count {
        text.push_str("a,")?;
    }
    Ok(text)
}

fn wide(alloc: Global, case: &(u32, u32, &str, u32, u32, &str)) -> Result<String, AllocError> {
    let (head, variables, goal, first, second, _) = case;
    let mut text = String::from_str(alloc, "p(")?;
    text.push_str(before(alloc, *head)?.as_str())?;
    text.push_str("[")?;
    text.push_str(many(alloc, "_", *variables)?.as_str())?;
    text.push_str("]) :- ")?;
    text.push_str(goal)?;
    text.push_str(", r(")?;
    text.push_str(many(alloc, "b", *first)?.as_str())?;
    text.push_str("), s(")?;
    text.push_str(many(alloc, "c", *second)?.as_str())?;
    text.push_str(").")?;
    Ok(text)
}

#[test]
fn slots_are_counted_with_the_widest_literal(rt: HostRuntime) -> Result<(), Fail> {
    let alloc = rt.alloc();
    for case in &WIDE {
        let text = wide(alloc, case)?;
        let found = answer(alloc, text.as_str())?;
        if !case.5.is_empty() {
            assert_eq!(rt; found.as_slice(), case.5.as_bytes(), "{text}");
        } else {
            assert!(rt; found.as_slice().ends_with(b"c"), "{text}");
        }
    }
    Ok(())
}
