// The terms of a text one by one, and what terms look like.
use plai_lex::{LexCause, Lexer};
use plai_reader::{OpTable, read_term};
use plai_sources::{
    LoadCause, Stop, TermFail, atom, check, entry, list_items, next_term, number_up_to,
    one_argument, two_arguments, variable,
};
use plai_terms::Term;
use std::alloc::Global;
use std::test::Fail;

/// The number of tokens of the next term, 0 at the end of the text.
fn next_count(alloc: Global, lexer: &mut Lexer) -> Result<usize, TermFail> {
    match next_term(alloc, lexer)? {
        Some(tokens) => Ok(tokens.len()),
        None => Ok(0),
    }
}

/// The numbers of tokens of the terms of a text, then `;` at its end, or why a term has none.
fn counts(alloc: Global, text: &str) -> Result<Vec<u8>, Fail> {
    let mut out = Vec::new(alloc);
    let mut lexer = Lexer::new(text.as_bytes());
    for _ in 0..100u32 {
        match next_count(alloc, &mut lexer) {
            Ok(0) => {
                out.push(b';')?;
                break;
            }
            Ok(count) => out.extend_from_slice(format!(in alloc; "{count} ")?.as_bytes())?,
            Err(TermFail::Refused(LoadCause::Lex(LexCause::BadCharacter, at))) => {
                out.extend_from_slice(format!(in alloc; "at {at}")?.as_bytes())?;
                break;
            }
            Err(TermFail::Refused(LoadCause::Syntax)) => {
                out.extend_from_slice(b"open")?;
                break;
            }
            Err(TermFail::Refused(_)) => return Err(Fail::new("another cause")),
            Err(TermFail::Memory) => return Err(Fail::new("memory")),
        }
    }
    Ok(out)
}

#[test]
fn terms_come_one_by_one(rt: HostRuntime) -> Result<(), Fail> {
    let alloc = rt.alloc();
    for (text, wanted) in [
        ("", ";"),
        ("% p.", ";"),
        ("p. q(X) :- r. ", "2 7 ;"),
        ("p. q", "2 open"),
        (". .", "1 1 ;"),
        ("p q. {", "3 at 5"),
        ("p {.", "at 2"),
    ] {
        let found = counts(alloc, text)?;
        assert_eq!(rt; found.as_slice(), wanted.as_bytes(), "{text}");
    }
    Ok(())
}

/// The first term of a text.
fn term(alloc: Global, text: &str) -> Result<Term, Fail> {
    let ops = OpTable::standard(alloc)?;
    let mut lexer = Lexer::new(text.as_bytes());
    let tokens = match next_term(alloc, &mut lexer) {
        Ok(Some(tokens)) => tokens,
        _ => return Err(Fail::new("no tokens")),
    };
    if tokens.len() > 1000 {
        return Err(Fail::new("a long term"));
    }
    match read_term(alloc, &ops, tokens.as_slice()) {
        Ok(read) => Ok(read.term),
        Err(_) => Err(Fail::new("no term")),
    }
}

#[test]
fn arguments_are_found_by_name_and_number(rt: HostRuntime) -> Result<(), Fail> {
    let alloc = rt.alloc();
    let one = term(alloc, "f(a).")?;
    let two = term(alloc, "f(a,7).")?;
    let wanted = term(alloc, "a.")?;
    assert!(rt; one_argument(b"f", &one) == Some(&wanted));
    assert!(rt; one_argument(b"g", &one).is_none() && one_argument(b"f", &two).is_none());
    assert!(rt; two_arguments(b"f", &two) == Some((&wanted, &Term::Int(7))));
    assert!(rt; two_arguments(b"g", &two).is_none() && two_arguments(b"f", &one).is_none());
    assert!(rt; one_argument(b"a", &wanted).is_none() && two_arguments(b"a", &wanted).is_none());
    Ok(())
}

#[test]
fn atoms_variables_and_numbers(rt: HostRuntime) -> Result<(), Fail> {
    let alloc = rt.alloc();
    for (text, is_atom, number, value) in [
        ("a.", true, None, None),
        ("[].", true, None, None),
        ("f(a).", false, None, None),
        ("X.", false, Some(0), None),
        ("0.", false, None, Some(0)),
        ("16.", false, None, Some(16)),
        ("17.", false, None, None),
        ("-1.", false, None, None),
        (
            "170141183460469231731687303715884105727.",
            false,
            None,
            None,
        ),
    ] {
        let term = term(alloc, text)?;
        assert_eq!(rt; atom(&term).is_some(), is_atom, "{text}");
        assert_eq!(rt; variable(&term), number, "{text}");
        assert_eq!(rt; number_up_to(16, &term), value, "{text}");
    }
    Ok(())
}

#[test]
fn lists_end_with_nil(rt: HostRuntime) -> Result<(), Fail> {
    let alloc = rt.alloc();
    for (text, wanted) in [
        ("[].", Some(0)),
        ("[a].", Some(1)),
        ("[a,X,[b,c]].", Some(3)),
        ("[a|b].", None),
        ("[a|X].", None),
        ("a.", None),
        ("f(a,[]).", None),
    ] {
        let term = term(alloc, text)?;
        let found = match list_items(alloc, &term) {
            Ok(items) => Some(items.len()),
            Err(Stop::Unfit) => None,
            Err(Stop::Memory) => return Err(Fail::new("memory")),
        };
        assert_eq!(rt; found, wanted, "{text}");
    }
    Ok(())
}

#[test]
fn entries_and_checks_of_terms(rt: HostRuntime) -> Result<(), Fail> {
    let alloc = rt.alloc();
    let Ok(found) = entry(alloc, &term(alloc, "p(X,Y) : ground(X).")?) else {
        return Err(Fail::new("no entry"));
    };
    assert_eq!(rt; found.name.as_slice(), b"p".as_slice());
    assert!(rt; found.arity == 2 && found.pre.as_slice().len() == 1);
    let Ok(found) = check(alloc, &term(alloc, "success(p(X) => (int(X),ground(X))).")?) else {
        return Err(Fail::new("no check"));
    };
    assert_eq!(rt; found.name.as_slice(), b"p".as_slice());
    assert!(rt; found.arity == 1 && found.pre.as_slice().is_empty());
    assert_eq!(rt; found.post.as_slice().len(), 2);
    for text in ["3.", "p(a).", "p(X) => ground(X)."] {
        assert!(rt;
            matches!(check(alloc, &term(alloc, text)?), Err(Stop::Unfit)),
            "{text}"
        );
    }
    Ok(())
}
