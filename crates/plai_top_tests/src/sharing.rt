// Tables under sharing and freeness. Those of programs that stand in no article come from an independent implementation of the
// definitions.
use crate::world::gives;
use std::test::Fail;

#[test]
fn tables_under_sharing(rt: HostRuntime) -> Result<(), Fail> {
    let alloc = rt.alloc();
    let cases: [(&[&str], &[u8], u8, &[u8]); 10] = [
        (
            &["--domain", "share", "a.pl"],
            b":- module(m, []).\n:- entry p(X,Y) : (var(X), var(Y), indep(X,Y)). p(X,Y) :- X = Y.",
            0,
            b"edit 0\nrow m:p/2 call sh={1,2} fr={1,2} answer sh={1.2} fr={1,2}\nend\n",
        ),
        (
            &["--domain", "share", "a.pl"],
            b":- module(m, []).\n:- entry p(X,Y,Z) : (indep(X,Y), indep(X,Z), indep(Y,Z)). p(X,Y,Z) :- X = f(Y,Z).",
            0,
            b"edit 0\nrow m:p/3 call sh={1,2,3} fr={} answer sh={1.2,1.2.3,1.3} fr={}\nend\n",
        ),
        (
            &["--domain", "share", "a.pl"],
            b":- module(m, []).\n:- entry p(X,Y,Z) : (indep(X,Y), indep(X,Z), indep(Y,Z), var(X)). p(X,Y,Z) :- X = f(Y,Z).",
            0,
            b"edit 0\nrow m:p/3 call sh={1,2,3} fr={1} answer sh={1.2,1.3} fr={}\nend\n",
        ),
        (
            &["--domain", "share", "a.pl"],
            b":- module(m, []).\n:- entry p(X) : var(X). p(X) :- q(X,X). q(f(_),_).",
            0,
            b"edit 0\nrow m:p/1 call sh={1} fr={1} answer sh={1} fr={}\nrow m:q/2 call sh={1.2} fr={1,2} answer sh={1.2} fr={}\nend\n",
        ),
        (
            &["--domain", "share", "a.pl"],
            b":- module(m, []).\n:- entry p(X) : ground(X). p(X) :- var(X), X = a.",
            0,
            b"edit 0\nrow m:p/1 call sh={} fr={} answer none\nend\n",
        ),
        (
            &["--domain", "share", "a.pl"],
            b":- module(m, []).\n:- entry app(X,Y,Z) : (ground(X), ground(Y)). app([],L,L). app([H|T],L,[H|R]) :- app(T,L,R).",
            0,
            b"edit 0\nrow m:app/3 call sh={3} fr={} answer sh={} fr={}\nend\n",
        ),
        (
            &["--domain", "share", "a.pl"],
            b":- module(m, []).\n:- entry q(X,Y) : (var(X), ground(Y)). q(X,Y) :- d(X-T), T = Y. d([a|T]-T). d(L-T) :- L = [b|M], d(M-T).",
            0,
            b"edit 0\nrow m:d/1 call sh={1} fr={} answer sh={1} fr={}\nrow m:q/2 call sh={1} fr={1} answer sh={1} fr={}\nend\n",
        ),
        (
            &["--domain", "share", "a.pl"],
            b":- module(m, []).\n:- entry r(X,Y). r(X,Y) :- X =.. [_|Y], nonvar(X), true. r(X,Y) :- copy_term(X,Y), integer(X). r(X,Y) :- arg(X,Y,Z), atom(Z), X == Y.",
            0,
            b"edit 0\nrow m:r/2 call sh={1,1.2,2} fr={} answer sh={1,1.2,2} fr={}\nend\n",
        ),
        (
            &["--domain", "share", "a.pl"],
            b":- module(m, []).\n:- entry p. p :- q(f(A1,A2,A3,A4,A5,A6,A7,A8,A9,A10,A11,A12,A13,A14,A15,A16)). q(_).",
            0,
            b"edit 0\nrow m:p/0 call sh={} fr={} answer sh={} fr={}\nrow m:q/1 call sh={1} fr={} answer sh={1} fr={}\nend\n",
        ),
        (
            &["--domain", "share", "a.pl"],
            b":- module(m, []).\n:- entry p. p :- q(f(A1,A2,A3,A4,A5,A6,A7,A8,A9,A10,A11,A12,A13,A14,A15,A16,A17)). q(_).",
            1,
            b"edit 0\nstopped groups 65536\nend\n",
        ),
    ];
    for (words, text, status, want) in cases {
        assert!(rt; gives(alloc, words, &[("a.pl", text)], status, want)?);
    }
    Ok(())
}
