// Unification of terms, also of many equations and of deep terms.
use crate::terms::name;
use plai_terms::{Args, Outcome, Subst, Term, print_term, unifiers_are_most_general, unify};
use std::alloc::{AllocError, Global};
use std::test::Fail;

/// Takes the last term, or an integer where there is none.
fn last(terms: &mut Vec<Term>) -> Term {
    match terms.pop() {
        Some(term) => term,
        None => Term::Int(0),
    }
}

/// The first term, with the second in place of variable 0.
fn replaced(alloc: Global, term: &Term, second: Term) -> Result<Term, AllocError> {
    Subst::single(alloc, 0, second)?.apply(alloc, term)
}

// f(first,second)
fn pair(alloc: Global, first: Term, second: Term) -> Result<Term, AllocError> {
    let items = vec![in alloc; first, second]?;
    Ok(Term::Compound(name(alloc, b"f")?, Args::new(items)))
}

// f(only)
fn single(alloc: Global, only: Term) -> Result<Term, AllocError> {
    let items = vec![in alloc; only]?;
    Ok(Term::Compound(name(alloc, b"f")?, Args::new(items)))
}

/// What a sign makes of the last terms: `,` a compound of two, `=` the first of two with the second in place of variable 0,
/// `^` the last one with itself there, any other a compound of one.
fn joined(alloc: Global, sign: u8, terms: &mut Vec<Term>) -> Result<Term, AllocError> {
    let second = last(terms);
    match sign {
        b',' => pair(alloc, last(terms), second),
        b'=' => replaced(alloc, &last(terms), second),
        b'^' => replaced(alloc, &second, second.copy(alloc)?),
        _ => single(alloc, second),
    }
}

/// What letters and signs make one after the other: a digit or a capital letter is a variable, a small letter an atom.
fn term(alloc: Global, text: &str) -> Result<Term, AllocError> {
    let mut terms = Vec::new(alloc);
    for letter in text.as_bytes() {
        let next = match *letter {
            b'0'..=b'9' => Term::Var(u32::from(*letter - b'0')),
            b'A'..=b'Z' => Term::Var(u32::from(*letter - b'A') + 10),
            b'a'..=b'z' => Term::Atom(name(alloc, &[*letter])?),
            sign => joined(alloc, sign, &mut terms)?,
        };
        terms.push(next)?;
    }
    Ok(last(&mut terms))
}

fn write_bindings(alloc: Global, subst: &Subst, out: &mut Vec<u8>) -> Result<(), AllocError> {
    for binding in subst.as_slice() {
        print_term(alloc, &Term::Var(binding.0), out)?;
        out.push(b'=')?;
        print_term(alloc, &binding.1, out)?;
    }
    Ok(())
}

/// The bindings of a unification of two terms, each as `variable=term`, or why there is none.
fn unification(alloc: Global, left: &str, right: &str) -> Result<Vec<u8>, AllocError> {
    let left = [term(alloc, left)?];
    let right = [term(alloc, right)?];
    let mut out = Vec::new(alloc);
    match unify(alloc, &left, &right)? {
        Outcome::Unified(subst) => write_bindings(alloc, &subst, &mut out)?,
        Outcome::Clash => out.extend_from_slice(b"clash")?,
        Outcome::Occurs => out.extend_from_slice(b"occurs")?,
    }
    Ok(out)
}

/// f(f(..,b),b), 4,096 levels deep, with the variable 0 in the middle.
const DEEP: &str = "0b,^^^^^^^^^^^^";

/// Two terms, how the text of their unification begins, and how long it is. Of the deep ones the arguments are moved: copied at
/// each level, they would be over thirty million subterms.
const PAIRS: [(&str, &str, &str, usize); 7] = [
    ("0b,", "a1,", "_0=a_1=b", 8),
    ("0", "0!", "occurs", 6),
    ("a", "b", "clash", 5),
    ("1", DEEP, "_1=f(f(f(", 20_485),
    (DEEP, "0", "occurs", 6),
    (DEEP, "0b,^^^^^^^^^^^^a=", "_0=a", 4),
    (
        "0123456789ABCDEFGHIJz,,,,,,,,,,,,,,,,,,,,",
        "abcdefghijklmnopqrstz,,,,,,,,,,,,,,,,,,,,",
        "_0=a_1=b_2=c",
        90,
    ),
];

#[test]
fn terms_unify_or_not(rt: HostRuntime) -> Result<(), Fail> {
    unifiers_are_most_general();
    for (left, right, start, length) in &PAIRS {
        let found = unification(rt.alloc(), left, right)?;
        let is_so = found.len() == *length && found.as_slice().starts_with(start.as_bytes());
        assert!(rt; is_so, "{left} {right}");
    }
    Ok(())
}

/// How many subterms and arguments a term has.
fn sizes(alloc: Global, term: &Term) -> Result<(usize, usize), AllocError> {
    Ok((term.nodes(alloc)?.len(), term.arguments().len()))
}

#[test]
fn deep_terms_are_walked(rt: HostRuntime) -> Result<(), Fail> {
    let found = sizes(rt.alloc(), &term(rt.alloc(), DEEP)?)?;
    assert!(rt; found == (8193, 2));
    Ok(())
}
