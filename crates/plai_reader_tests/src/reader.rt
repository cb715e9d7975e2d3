ghost use Rattle.std.specs.Prelude.{◌≤◌, All, IfOk, length};
ghost use Rattle.plai_lex.specs.Tokens.{IsWritten};

use plai_lex::{Lexer, Token};
use plai_reader::{OpKind, OpTable, ReadTermFail, read_term};
use plai_terms::{Args, Name, Term, print_term};
use std::alloc::Global;
use std::test::Fail;

fn tokens_of(alloc: Global, text: &[u8]) -> Result<Vec<Token>, Fail>
    ensures written { IfOk result (λ tokens. All (λ token. IsWritten token.kind) tokens.items) }
    ensures few { IfOk result (λ tokens. length tokens.items ≤ 300000) }
{
    let mut lexer = Lexer::new(text);
    let mut tokens = Vec::new(alloc);
    for count in 0..300_000u32 {
        match lexer.next(alloc)? {
            Some(token) => tokens.push(token)?,
            None => break,
        }
    }
    Ok(tokens)
}

/// The text of the term, or the name of the refusal.
fn answer(alloc: Global, ops: &OpTable, text: &str) -> Result<Vec<u8>, Fail> {
    let tokens = tokens_of(alloc, text.as_bytes())?;
    let mut out = Vec::new(alloc);
    match read_term(alloc, ops, tokens.as_slice()) {
        Ok(read) => print_term(alloc, &read.term, &mut out)?,
        Err(ReadTermFail::Memory) => out.extend_from_slice(b"memory")?,
        Err(ReadTermFail::Syntax) => out.extend_from_slice(b"syntax")?,
        Err(ReadTermFail::TooDeep) => out.extend_from_slice(b"too deep")?,
        Err(ReadTermFail::ArityTooLarge) => out.extend_from_slice(b"arity too large")?,
    }
    Ok(out)
}

/// The texts of some terms, and how they print in functional notation, or why they are refused.
const READINGS: [(&str, &str); 31] = [
    ("- - 1.", "-(-(1))"),
    ("- -1.", "-(-1)"),
    ("-(1).", "-(1)"),
    ("- (1).", "-(1)"),
    ("- 1.", "-(1)"),
    ("-1.", "-1"),
    ("1.5.", "syntax"),
    ("a -1.", "-(a,1)"),
    ("a:-b,c.", ":-(a,','(b,c))"),
    ("1-2-3.", "-(-(1,2),3)"),
    ("2^3^4.", "^(2,^(3,4))"),
    ("- = x.", "=(-,x)"),
    ("X = \\+ b.", "syntax"),
    ("a = b = c.", "syntax"),
    ("a", "syntax"),
    ("a b.", "syntax"),
    ("f(=,\"ab\").", "f(=,'.'(97,'.'(98,[])))"),
    ("p(X,_,Y,X,_).", "p(_0,_1,_2,_0,_3)"),
    ("[].", "[]"),
    ("[ ].", "[]"),
    ("[a,B|C].", "'.'(a,'.'(_0,_1))"),
    ("[a|b,c].", "syntax"),
    ("[a|].", "syntax"),
    ("(a|b).", "syntax"),
    ("f().", "syntax"),
    ("(,).", "syntax"),
    ("f(a:-b).", "syntax"),
    ("f((a:-b)).", "f(:-(a,b))"),
    ("f(a ',' b).", "syntax"),
    ("','(a,b).", "','(a,b)"),
    ("((a)).", "a"),
];

#[test]
fn readings(rt: HostRuntime) -> Result<(), Fail> {
    let alloc = rt.alloc();
    let ops = OpTable::standard(alloc)?;
    for (text, expected) in &READINGS {
        let found = answer(alloc, &ops, text)?;
        assert!(rt; found.as_slice() == expected.as_bytes(), "{text}");
    }
    Ok(())
}

/// So many times the first, then the middle, so many times the last, and the end.
fn nested(
    alloc: Global,
    count: u32,
    first: &str,
    middle: &str,
    last: &str,
    end: &str,
) -> Result<String, Fail> {
    let mut text = String::new(alloc);
    for _ in 0..count {
        text.push_str(first)?;
    }
    text.push_str(middle)?;
    for _ in 0..count {
        text.push_str(last)?;
    }
    text.push_str(end)?;
    Ok(text)
}

/// What texts are made of, how their answers begin, and how long these are.
const LIMITS: [(u32, &str, &str, &str, &str, &str, usize); 10] = [
    (1_999, "f(", "a", ")", ".", "f(f(f(", 5_998),
    (2_000, "f(", "a", ")", ".", "too deep", 8),
    (100_000, "(", "a", ")", ".", "a", 1),
    (10_000, "f(", "a", ")", ".", "too deep", 8),
    (10_000, "f(", "a b", ")", ".", "syntax", 6),
    (1_998, "a,", "[a", "", ".", "syntax", 6),
    (1_998, "", "[a", ",a", "].", "'.'(a,'.'(a,", 13_995),
    (1_999, "", "[a", ",a", "].", "too deep", 8),
    (254, "", "f(a", ",a", ").", "f(a,a", 512),
    (255, "", "f(a", ",a", ").", "arity too large", 15),
];

#[test]
fn limits(rt: HostRuntime) -> Result<(), Fail> {
    let alloc = rt.alloc();
    let ops = OpTable::standard(alloc)?;
    for (count, first, middle, last, end, start, length) in &LIMITS {
        let text = nested(alloc, *count, first, middle, last, end)?;
        let found = answer(alloc, &ops, text.as_str())?;
        let is_so = found.len() == *length && found.as_slice().starts_with(start.as_bytes());
        assert!(rt; is_so, "{count} {middle}");
    }
    Ok(())
}

fn name_of(alloc: Global, text: &str) -> Result<Name, Fail> {
    Ok(Name::new(Vec::from_slice(alloc, text.as_bytes())?))
}

/// Operators that are added one after the other, why one isn't, and how a text is read behind each.
const OPERATORS: [(u32, OpKind, &str, &str, &str, &str); 5] = [
    (
        1300,
        OpKind::Xfx,
        "+",
        "Err(BadPriority)",
        "a + b.",
        "+(a,b)",
    ),
    (700, OpKind::Xfx, ",", "Err(BadName)", "a + b.", "+(a,b)"),
    (
        700,
        OpKind::Xf,
        "+",
        "Err(InfixAndPostfix)",
        "a + b.",
        "+(a,b)",
    ),
    (
        100,
        OpKind::Yf,
        "!",
        "Ok(())",
        "- a ! ! + b.",
        "+(-(!(!(a))),b)",
    ),
    (0, OpKind::Xfx, "+", "Ok(())", "a + b.", "syntax"),
];

#[test]
fn operators(rt: HostRuntime) -> Result<(), Fail> {
    let alloc = rt.alloc();
    let mut ops = OpTable::standard(alloc)?;
    for (priority, kind, name, told, text, read) in &OPERATORS {
        let name = name_of(alloc, name)?;
        let added = ops.add(alloc, *priority, *kind, &name);
        let added = format!(in alloc; "{added:?}")?;
        let found = answer(alloc, &ops, text)?;
        let is_so = added.as_str() == *told && found.as_slice() == read.as_bytes();
        assert!(rt; is_so, "{priority} {text}");
    }
    Ok(())
}

/// Names that print bare or in quotes: words, operators of each kind, symbols, and what is neither.
const NAMES: [&str; 21] = [
    "a",
    "aB_1",
    "entry",
    "mod",
    "is",
    "+",
    "-",
    "\\+",
    "=",
    ":-",
    ";",
    "!",
    "..",
    ",",
    "|",
    "{}",
    "",
    "A b",
    "it's",
    "a\\\n\x07",
    "/*",
];

/// Atoms, integers and a variable: what stands within the terms that are printed and read.
fn leaves(alloc: Global) -> Result<Vec<Term>, Fail> {
    let mut leaves = Vec::new(alloc);
    for name in &NAMES {
        leaves.push(Term::Atom(name_of(alloc, name)?))?;
    }
    for name in ["[]", ".", "\u{e4}"] {
        leaves.push(Term::Atom(name_of(alloc, name)?))?;
    }
    for value in [0, -1, i128::MAX, i128::MIN + 1] {
        leaves.push(Term::Int(value))?;
    }
    leaves.push(Term::Var(0))?;
    Ok(leaves)
}

/// `f(first,f(second))`.
fn nested_in(alloc: Global, name: &str, first: &Term, second: &Term) -> Result<Term, Fail> {
    let inner = Args::new(vec![in alloc; second.copy(alloc)?]?);
    let second = Term::Compound(name_of(alloc, name)?, inner);
    let args = Args::new(vec![in alloc; first.copy(alloc)?, second]?);
    Ok(Term::Compound(name_of(alloc, name)?, args))
}

fn is_read_back(alloc: Global, ops: &OpTable, term: &Term) -> Result<bool, Fail> {
    let mut text = Vec::new(alloc);
    print_term(alloc, term, &mut text)?;
    text.extend_from_slice(b" .")?;
    let tokens = tokens_of(alloc, text.as_slice())?;
    match read_term(alloc, ops, tokens.as_slice()) {
        Ok(read) => Ok(read.term == *term),
        Err(_) => Ok(false),
    }
}

#[test]
fn printed_terms_are_read_back(rt: HostRuntime) -> Result<(), Fail> {
    let alloc = rt.alloc();
    let ops = OpTable::standard(alloc)?;
    let leaves = leaves(alloc)?;
    for first in leaves.as_slice() {
        assert!(rt; is_read_back(alloc, &ops, first)?);
        for second in leaves.as_slice() {
            for name in &NAMES {
                let term = nested_in(alloc, name, first, second)?;
                assert!(rt; is_read_back(alloc, &ops, &term)?, "{term:?}");
            }
        }
    }
    Ok(())
}
