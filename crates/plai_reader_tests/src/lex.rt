// Tokens, integers and failures of short texts, as the standard and its tables give them.
use plai_lex::{LexCause, LexFail, Lexer, Token, TokenKind};
use plai_terms::{Term, print_term};
use std::alloc::{AllocError, Global};
use std::test::Fail;

/// The first letter of the kind and the bytes that the token holds, or the token's own byte.
fn shown(kind: &TokenKind) -> (&str, &[u8]) {
    match kind {
        TokenKind::Name(name) => (" n:", name.as_slice()),
        TokenKind::Quoted(name) => (" q:", name.as_slice()),
        TokenKind::Var(name) => (" v:", name.as_slice()),
        TokenKind::Text(name) => (" t:", name.as_slice()),
        TokenKind::Int(_) => (" ", b"".as_slice()),
        TokenKind::Open => (" (", b"".as_slice()),
        TokenKind::Close => (" )", b"".as_slice()),
        TokenKind::OpenList => (" [", b"".as_slice()),
        TokenKind::CloseList => (" ]", b"".as_slice()),
        TokenKind::Comma => (" ,", b"".as_slice()),
        TokenKind::Bar => (" |", b"".as_slice()),
        TokenKind::End => (" .", b"".as_slice()),
    }
}

/// Writes the kind, what the token holds, its place, and a mark where layout or nothing stands before it.
fn write_token(alloc: Global, token: &Token, out: &mut Vec<u8>) -> Result<(), AllocError> {
    let (kind, bytes) = shown(&token.kind);
    out.extend_from_slice(kind.as_bytes())?;
    out.extend_from_slice(bytes)?;
    if let TokenKind::Int(value) = &token.kind {
        print_term(alloc, &Term::Int(*value), out)?;
    }
    out.push(b'@')?;
    print_term(alloc, &Term::Int(token.at as i128), out)?;
    if !token.tight {
        out.push(b'_')?;
    }
    Ok(())
}

fn cause_text(cause: LexCause) -> &'static str {
    match cause {
        LexCause::BadCharacter => " bad character@",
        LexCause::OpenQuote => " open quote@",
        LexCause::OpenComment => " open comment@",
        LexCause::BadEscape => " bad escape@",
        LexCause::NumberTooLarge => " number too large@",
    }
}

/// The tokens of a text, and the failure behind them.
fn tokens(alloc: Global, text: &[u8]) -> Result<Vec<u8>, AllocError> {
    let mut lexer = Lexer::new(text);
    let mut out = Vec::new(alloc);
    for _ in 0..=text.len() {
        match lexer.next(alloc) {
            Ok(Some(token)) => write_token(alloc, &token, &mut out)?,
            Ok(None) => break,
            Err(LexFail::Memory) => return Err(AllocError),
            Err(LexFail::At { cause, at }) => {
                out.extend_from_slice(cause_text(cause).as_bytes())?;
                print_term(alloc, &Term::Int(at as i128), &mut out)?;
                break;
            }
        }
    }
    Ok(out)
}

/// Texts and their tokens: of each its kind by a letter or its own byte, its bytes or its value, its place, and `_`
/// where it isn't tight; then the failure, if there is one, and its place.
const TOKENS: [(&[u8], &[u8]); 49] = [
    (
        b"pX(Y_1,'it''s\\x41\\\\\n \xc3')--> [_|\"a\"\"\\60\\'\t\"] /* * */.(! % .\n; - 1 -1.../*/. .%",
        b" n:pX@0_ (@2 v:Y_1@3 ,@6 q:it'sA \xc3@7 )@23 n:-->@24 [@28_ v:_@29 |@30 t:a\"0'\t@31 ]@42 n:.@51_ (@52 n:!@53 n:;@59_ n:-@61_ 1@63_ n:-@65_ 1@66 n:.../*/.@67 .@75_",
    ),
    (b"0", b" 0@0_"),
    (b"007.", b" 7@0_ .@3"),
    (b"0x1Fg", b" 31@0_ n:g@4"),
    (b"0xg", b" 0@0_ n:xg@1"),
    (b"0o178", b" 15@0_ 8@4"),
    (b"0o8", b" 0@0_ n:o8@1"),
    (b"0b1012", b" 5@0_ 2@5"),
    (b"0b", b" 0@0_ n:b@1"),
    (b"0'a.", b" 97@0_ .@3"),
    (b"0'''", b" 39@0_"),
    (b"0' ", b" 32@0_"),
    (b"0'\"", b" 34@0_"),
    (b"0'\\n", b" 10@0_"),
    (b"0'\\'", b" 39@0_"),
    (b"0'\\x7f\\0", b" 127@0_ 0@7"),
    (b"0'\\101\\", b" 65@0_"),
    (
        b"170141183460469231731687303715884105727",
        b" 170141183460469231731687303715884105727@0_",
    ),
    (
        b"0x7fffffffffffffffffffffffffffffff",
        b" 170141183460469231731687303715884105727@0_",
    ),
    (b"a {", b" n:a@0_ bad character@2"),
    (b"`", b" bad character@0"),
    (b"p(\xe9)", b" n:p@0_ (@1 bad character@2"),
    (b"\0", b" bad character@0"),
    (b"'a\x01'", b" bad character@2"),
    (b" \"\xc3\"", b" bad character@2"),
    (b"'a\r'", b" bad character@2"),
    (b"x 'ab", b" n:x@0_ open quote@2"),
    (b"'ab\n'", b" open quote@0"),
    (b"\"ab''", b" open quote@0"),
    (b"'\\\n", b" open quote@0"),
    (b"a /* b", b" n:a@0_ open comment@2"),
    (b"/*/", b" open comment@0"),
    (b"'a\\q'", b" bad escape@2"),
    (b"'ab\\", b" bad escape@3"),
    (b"'\\x\\'", b" bad escape@1"),
    (b"'\\x80\\'", b" bad escape@1"),
    (b"'\\200\\'", b" bad escape@1"),
    (b"'\\x41 '", b" bad escape@1"),
    (b"'\\8\\'", b" bad escape@1"),
    (b"0'", b" bad escape@0"),
    (b"- 0'\\q", b" n:-@0_ bad escape@2"),
    (b"0'\\\n", b" bad escape@0"),
    (b"0''", b" bad escape@0"),
    (b"0'\t", b" bad escape@0"),
    (b"0'\xc3", b" bad escape@0"),
    (
        b"1 170141183460469231731687303715884105728",
        b" 1@0_ number too large@2",
    ),
    (
        b"0x80000000000000000000000000000000",
        b" number too large@0",
    ),
    (b"'\\q\n", b" bad escape@1"),
    (b"'\x02\\q", b" bad character@1"),
];

#[test]
fn tokens_have_their_kinds_and_places_and_failures_their_causes(
    rt: HostRuntime,
) -> Result<(), Fail> {
    for (text, wanted) in &TOKENS {
        let found = tokens(rt.alloc(), text)?;
        assert!(rt; found.as_slice() == *wanted, "{text:?}");
    }
    Ok(())
}
