// Tables under groundness. Those of programs that stand in no article come from an independent implementation of the definitions.
use crate::world::has_table;
use std::test::Fail;

#[test]
fn worked_tables(rt: HostRuntime) -> Result<(), Fail> {
    let alloc = rt.alloc();
    let cases: [(&[u8], &[u8]); 4] = [
        (
            b":- module(m, []).\n:- entry app(X,Y,Z) : (ground(X), ground(Y)). app([],L,L). app([H|T],L,[H|R]) :- app(T,L,R).",
            b"edit 0\nrow m:app/3 call (1 (2 t f) f) answer (1 (2 (3 t f) f) f)\nend\n",
        ),
        (b":- module(m, []).\n", b"edit 0\nend\n"),
        (
            b":- module(m, []).\n:- entry p(X). p(X) :- p(X).",
            b"edit 0\nrow m:p/1 call t answer none\nend\n",
        ),
        (
            b":-(module(m,[])).\n:-(entry(:(p(X,Y),ground(X)))).\np(a,b).\np(f(Z),Z).\n",
            b"edit 0\nrow m:p/2 call (1 t f) answer (1 (2 t f) f)\nend\n",
        ),
    ];
    for (text, want) in cases {
        assert!(rt; has_table(alloc, text, want)?);
    }
    Ok(())
}

#[test]
fn rows_made_on_the_way_are_not_printed(rt: HostRuntime) -> Result<(), Fail> {
    let alloc = rt.alloc();
    let cases: [(&[u8], &[u8]); 2] = [
        (
            b":- module(m, []).\n:- entry p(X). p(a). p(Y) :- p(X), u(X). u(_).",
            b"edit 0\nrow m:p/1 call t answer t\nrow m:u/1 call t answer t\nend\n",
        ),
        (
            b":- module(m, []).\n:- entry r(X). r(X) :- s(X,Y), u(Y). s(a,b). s(a,Z). u(a).",
            b"edit 0\nrow m:r/1 call t answer (1 t f)\nrow m:s/2 call t answer (1 t f)\nrow m:u/1 call t answer (1 t f)\nend\n",
        ),
    ];
    for (text, want) in cases {
        assert!(rt; has_table(alloc, text, want)?);
    }
    Ok(())
}

#[test]
fn mutual_recursion_needs_its_base_case(rt: HostRuntime) -> Result<(), Fail> {
    let alloc = rt.alloc();
    let cases: [(&[u8], &[u8]); 1] = [(
        b":-(module(m,[])).\n:-(entry(p(X))).\n:-(p(X),q(X)).\n:-(q(X),p(X)).\nq(a).\n",
        b"edit 0\nrow m:p/1 call t answer (1 t f)\nrow m:q/1 call t answer (1 t f)\nend\n",
    )];
    for (text, want) in cases {
        assert!(rt; has_table(alloc, text, want)?);
    }
    Ok(())
}

#[test]
fn a_predicate_without_clauses_has_no_answer(rt: HostRuntime) -> Result<(), Fail> {
    let alloc = rt.alloc();
    let cases: [(&[u8], &[u8]); 1] = [(
        b":- module(m, []).\n:- entry p(X). p(X) :- nope(X).",
        b"edit 0\nrow m:nope/1 call t answer none\nrow m:p/1 call t answer none\nend\n",
    )];
    for (text, want) in cases {
        assert!(rt; has_table(alloc, text, want)?);
    }
    Ok(())
}

#[test]
fn tables_of_programs(rt: HostRuntime) -> Result<(), Fail> {
    let alloc = rt.alloc();
    let cases: [(&[u8], &[u8]); 20] = [
        (
            b":- module(m, []).\n:- entry p(X). p(X) :- q(f(A1,A2,A3,A4,A5,A6,A7,A8,A9,A10,A11,A12,A13,A14,A15,A16,A17,A18,A19,A20,A21,A22,A23,A24,A25,A26,A27,A28,A29,A30)). q(_).",
            b"edit 0\nrow m:p/1 call t answer t\nrow m:q/1 call t answer t\nend\n",
        ),
        (
            b":- module(m, []).\n:- entry copy(X,Y). copy(s(A1,A2,A3,A4,A5,A6,A7,A8,A9,A10,A11,A12,A13,A14,A15,A16,A17,A18,A19,A20,A21,A22,A23,A24), s(B1,B2,B3,B4,B5,B6,B7,B8,B9,B10,B11,B12,B13,B14,B15,B16,B17,B18,B19,B20,B21,B22,B23,B24)) :- e(A1,B1), e(A2,B2), e(A3,B3), e(A4,B4), e(A5,B5), e(A6,B6), e(A7,B7), e(A8,B8), e(A9,B9), e(A10,B10), e(A11,B11), e(A12,B12), e(A13,B13), e(A14,B14), e(A15,B15), e(A16,B16), e(A17,B17), e(A18,B18), e(A19,B19), e(A20,B20), e(A21,B21), e(A22,B22), e(A23,B23), e(A24,B24). e(X,X).",
            b"edit 0\nrow m:copy/2 call t answer (1 (2 t f) (2 f t))\nrow m:e/2 call t answer (1 (2 t f) (2 f t))\nend\n",
        ),
        (
            b":- module(m, []).\n:- entry len(X,Y) : ground(X). len([],z). len([_|T],s(N)) :- len(T,N).",
            b"edit 0\nrow m:len/2 call (1 t f) answer (1 (2 t f) f)\nend\n",
        ),
        (
            b":- module(m, []).\n:- entry rev(X,Y) : ground(X). rev(X,Y) :- rev(X,[],Y). rev([],A,A). rev([H|T],A,R) :- rev(T,[H|A],R).",
            b"edit 0\nrow m:rev/2 call (1 t f) answer (1 (2 t f) f)\nrow m:rev/3 call (1 (2 t f) f) answer (1 (2 (3 t f) f) f)\nend\n",
        ),
        (
            b":- module(m, []).\n:- entry flip(X,Y) : var(X). flip(X,Y) :- flip(Y,X). flip(a,_).",
            b"edit 0\nrow m:flip/2 call t answer (1 t (2 t f))\nend\n",
        ),
        (
            b":- module(m, []).\n:- entry even(N) : nonvar(N). even(z). even(s(N)) :- odd(N). odd(s(N)) :- even(N).",
            b"edit 0\nrow m:even/1 call t answer (1 t f)\nrow m:odd/1 call t answer (1 t f)\nend\n",
        ),
        (
            b":- module(m, []).\n:- entry d(E,X,D) : (ground(E), ground(X)). d(x,x,1). d(c(_),_,0). d(A+B,X,E+F) :- d(A,X,E), d(B,X,F). d(A*B,X,A*F+B*E) :- d(A,X,E), d(B,X,F).",
            b"edit 0\nrow m:d/3 call (1 (2 t f) f) answer (1 (2 (3 t f) f) f)\nend\n",
        ),
        (
            b":- module(m, []).\n:- entry both(X,Y). both(X,Y) :- one(X), two(Y,X). one(a). one(_). two(X,X). two(b,_).",
            b"edit 0\nrow m:both/2 call t answer (1 (2 t f) t)\nrow m:one/1 call t answer t\nrow m:two/2 call t answer (1 t (2 f t))\nend\n",
        ),
        (
            b":- module(m, []).\n:- entry g(X) : ground(X). :- entry g(Y). g(f(Y)) :- h(Y,Y). h(X,Y) :- k(X), k(Y). k(1).",
            b"edit 0\nrow m:g/1 call (1 t f) answer (1 t f)\nrow m:g/1 call t answer (1 t f)\nrow m:h/2 call (1 (2 t f) (2 f t)) answer (1 (2 t f) f)\nrow m:h/2 call (1 (2 t f) f) answer (1 (2 t f) f)\nrow m:k/1 call (1 t f) answer (1 t f)\nrow m:k/1 call t answer (1 t f)\nend\n",
        ),
        (
            b":- module(m, []).\n:- entry loop. loop :- step, loop. step. step :- loop.",
            b"edit 0\nrow m:loop/0 call t answer none\nrow m:step/0 call t answer t\nend\n",
        ),
        (
            b":- module(m, []).\n:- entry 'a b'(X). 'a b'(X) :- +(X,Y), 'B'(Y). +(X,X). 'B'([]).",
            b"edit 0\nrow m:'+'/2 call t answer (1 (2 t f) (2 f t))\nrow m:'B'/1 call t answer (1 t f)\nrow m:'a b'/1 call t answer (1 t f)\nend\n",
        ),
        (
            b":- module(m, []).\n:- entry t(A,B,C). t(A,B,C) :- u(A,B), u(B,C), u(C,A). u(X,X).",
            b"edit 0\nrow m:t/3 call t answer (1 (2 (3 t f) f) (2 f (3 f t)))\nrow m:u/2 call (1 (2 t f) (2 f t)) answer (1 (2 t f) (2 f t))\nrow m:u/2 call t answer (1 (2 t f) (2 f t))\nend\n",
        ),
        (
            b":- module(m, []).\n:- entry p(X,Y) : (ground(X), indep(X,Y)). p(X,Y) :- q(Y,X), r(X,Z), q(Z,Y). q(X,f(X)). r(X,g(X)). r(_,_).",
            b"edit 0\nrow m:p/2 call (1 t f) answer (1 (2 t f) f)\nrow m:q/2 call (2 t f) answer (1 (2 t f) f)\nrow m:r/2 call (1 t f) answer (1 t f)\nend\n",
        ),
        (
            b":- module(m, []).\n:- entry tree(T) : int(T). tree(leaf(_)). tree(node(L,R)) :- tree(L), tree(R).",
            b"edit 0\nrow m:tree/1 call (1 t f) answer (1 t f)\nend\n",
        ),
        (
            b":- module(m, []).\n:- op(700, xfx, likes). :- entry (X likes Y). tom likes X :- X likes tom. _ likes wine.",
            b"edit 0\nrow m:likes/2 call (1 (2 t f) f) answer (1 (2 t f) f)\nrow m:likes/2 call (2 t f) answer (2 t f)\nrow m:likes/2 call t answer (1 t (2 t f))\nend\n",
        ),
        (
            b":- module(m, []).\n:- entry p(X,Y). p(X,Y) :- functor(X,Y,_).",
            b"edit 0\nrow m:p/2 call t answer (2 t f)\nend\n",
        ),
        (
            b":- module(m, []).\n:- entry len(X,Y). len([],0). len([_|T],N) :- len(T,M), N is M+1.",
            b"edit 0\nrow m:len/2 call t answer (2 t f)\nend\n",
        ),
        (
            b":- module(m, []).\n:- entry p(X) : ground(X). p(X) :- var(X), X = a.",
            b"edit 0\nrow m:p/1 call (1 t f) answer none\nend\n",
        ),
        (
            b":- module(m, []).\n:- entry q(X,Y,Z). q(X,Y,Z) :- X = f(Y), Y == Z. q(_,_,_) :- fail.",
            b"edit 0\nrow m:q/3 call t answer (1 (2 (3 t f) f) (2 f (3 f t)))\nend\n",
        ),
        (
            b":- module(m, []).\n:- entry r(X,Y). r(X,Y) :- X =.. [_|Y], nonvar(X), true. r(X,Y) :- copy_term(X,Y), integer(X). r(X,Y) :- arg(X,Y,Z), atom(Z), write(Z), nl.",
            b"edit 0\nrow m:r/2 call t answer t\nend\n",
        ),
    ];
    for (text, want) in cases {
        assert!(rt; has_table(alloc, text, want)?);
    }
    Ok(())
}
