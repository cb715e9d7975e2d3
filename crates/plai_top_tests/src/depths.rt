// Tables of terms cut at a depth. Those of programs that stand in no article come from an independent implementation of the
// definitions.
use crate::world::gives;
use std::test::Fail;

#[test]
fn tables_at_depths(rt: HostRuntime) -> Result<(), Fail> {
    let alloc = rt.alloc();
    let cases: [(&[&str], &[u8], u8, &[u8]); 7] = [
        (
            &["--domain", "depth", "--depth", "2", "a.pl"],
            b":- module(m, []).\n:- entry n(X). n(0). n(s(X)) :- n(X).",
            0,
            b"edit 0\nrow m:n/1 call (any) answer (any)\nend\n",
        ),
        (
            &["--domain", "depth", "--depth", "1", "a.pl"],
            b":- module(m, []).\n:- entry p(X,Y). p(f(a),1). p(f(b),2).",
            0,
            b"edit 0\nrow m:p/2 call (any,any) answer (f(any),int)\nend\n",
        ),
        (
            &["--domain", "depth", "--depth", "2", "a.pl"],
            b":- module(m, []).\n:- entry len(X,Y). len([],0). len([_|T],N) :- len(T,M), N is M+1.",
            0,
            b"edit 0\nrow m:len/2 call (any,any) answer (any,int)\nend\n",
        ),
        (
            &["--domain", "depth", "--depth", "1", "a.pl"],
            b":- module(m, []).\n:- entry run(S,I) : ground(I). run(S,I) :- go(off,I,S). go(S,[],S). go(off,[press|I],S) :- go(on(0),I,S). go(on(N),[press|I],S) :- M is N+1, go(on(M),I,S). go(on(_),[reset|I],S) :- go(off,I,S).",
            0,
            b"edit 0\nrow m:go/3 call (off,any,any) answer (off,any,any)\nrow m:go/3 call (on(any),any,any) answer (on(any),any,any)\nrow m:run/2 call (any,any) answer (any,any)\nend\n",
        ),
        (
            &["--domain", "depth", "--depth", "2", "a.pl"],
            b":- module(m, []).\n:- entry run(S,I) : ground(I). run(S,I) :- go(off,I,S). go(S,[],S). go(off,[press|I],S) :- go(on(0),I,S). go(on(N),[press|I],S) :- M is N+1, go(on(M),I,S). go(on(_),[reset|I],S) :- go(off,I,S).",
            0,
            b"edit 0\nrow m:go/3 call (off,any,any) answer (off,any,any)\nrow m:go/3 call (on(0),any,any) answer (on(0),any,any)\nrow m:go/3 call (on(int),any,any) answer (on(int),any,any)\nrow m:run/2 call (any,any) answer (any,any)\nend\n",
        ),
        (
            &["--domain=depth", "a.pl"],
            b":- module(m, []).\n:- entry run(S,I) : ground(I). run(S,I) :- go(off,I,S). go(S,[],S). go(off,[press|I],S) :- go(on(0),I,S). go(on(N),[press|I],S) :- M is N+1, go(on(M),I,S). go(on(_),[reset|I],S) :- go(off,I,S).",
            0,
            b"edit 0\nrow m:go/3 call (off,any,any) answer (off,any,any)\nrow m:go/3 call (on(0),any,any) answer (on(0),any,any)\nrow m:go/3 call (on(int),any,any) answer (on(int),any,any)\nrow m:run/2 call (any,any) answer (any,any)\nend\n",
        ),
        (
            &["--domain=depth", "--depth=8", "a.pl"],
            b":- module(m, []).\n:- entry p. p.",
            0,
            b"edit 0\nrow m:p/0 call () answer ()\nend\n",
        ),
    ];
    for (words, text, status, want) in cases {
        assert!(rt; gives(alloc, words, &[("a.pl", text)], status, want)?);
    }
    Ok(())
}
