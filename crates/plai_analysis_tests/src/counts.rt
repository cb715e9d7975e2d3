// How many evaluations a row takes, as an object counts them that is told of the work.
use crate::analysed::{by_told_work, loaded};
use plai_clauses::Program;
use plai_depth::DepthK;
use plai_domain::{Domain, Key, Work, WorkEntry};
use plai_make::made_program;
use plai_pos::Ground;
use plai_share::ShareFree;
use std::alloc::{AllocError, Global};
use std::process::Abort;
use std::test::Fail;

/// The rows that were made and the clauses that were evaluated.
#[derive(Drop)]
struct Counter {
    rows: u64,
    evaluations: u64,
}

impl Counter {
    fn row(&mut self) {
        self.rows = self.rows.saturating_add(1);
    }

    fn evaluation(&mut self) {
        self.evaluations = self.evaluations.saturating_add(1);
    }
}

impl Work for Counter {
    ghost use Rattle.std.specs.Prelude.{None};

    ghost entries = { λ _. None };

    fn note(&mut self, _alloc: Global, entry: &WorkEntry) -> Result<(), AllocError> {
        match entry {
            WorkEntry::Made(_) => self.row(),
            WorkEntry::Evaluated(_, _) => self.evaluation(),
            _ => {}
        }
        Ok(())
    }

    fn note_made<D: Domain>(
        &mut self,
        _alloc: Global,
        _domain: &D,
        _name: &Key<D::Value>,
    ) -> Result<(), AllocError> {
        self.row();
        Ok(())
    }

    fn note_evaluated<D: Domain>(
        &mut self,
        _alloc: Global,
        _domain: &D,
        _name: &Key<D::Value>,
        _clause: u64,
    ) -> Result<(), AllocError> {
        self.evaluation();
        Ok(())
    }
}

/// Each predicate calls others below it, up to three.
const LAYERS: &str = ":- module(m, []). :- entry a(X,Y) : ground(X).
a(X,Y) :- b(X,Z), c(Z,Y). a(X,Y) :- c(X,Y), b(Y,X), d(X).
b(X,Y) :- d(X), e(X,Y). b(f(X),X) :- d(X). b(X,X).
c(X,Y) :- e(Y,X), e(X,Y). c(f(X),g(Y)) :- d(X), d(Y), e(X,Y).
d(X) :- e(X,X). d(f(_)). d(0).
e(0,1). e(X,X). e(f(X),g(X)).";

/// Predicates over lists that call themselves, with accumulators.
const LISTS: &str = ":- module(m, []). :- entry sort(X,Y) : ground(X). :- entry queens(X,Y).
sort([],[]). sort([H|T],S) :- split(H,T,A,B), sort(A,C), sort(B,D), app(C,[H|D],S).
split(_,[],[],[]). split(P,[H|T],[H|A],B) :- H =< P, split(P,T,A,B). split(P,[H|T],A,[H|B]) :- H > P, split(P,T,A,B).
app([],Y,Y). app([H|T],Y,[H|Z]) :- app(T,Y,Z).
queens(N,Q) :- range(1,N,L), place(L,[],Q). range(N,N,[N]). range(M,N,[M|L]) :- M < N, K is M+1, range(K,N,L).
place([],Q,Q). place(L,S,Q) :- pick(H,L,R), safe(S,H,1), place(R,[H|S],Q).
pick(H,[H|T],T). pick(X,[H|T],[H|R]) :- pick(X,T,R).
safe([],_,_). safe([Y|T],X,D) :- Z is X-Y, Z =\\= D, E is D+1, safe(T,X,E).";

/// Whether a row takes so many evaluations on average, or fewer.
fn takes_few<D: Domain>(
    alloc: Global,
    domain: &D,
    program: &Program,
    most: u64,
) -> Result<(), Fail> {
    let mut counter = Counter {
        rows: 0,
        evaluations: 0,
    };
    by_told_work(alloc, domain, program, 20_000, &mut counter)?;
    if counter.evaluations <= counter.rows.saturating_mul(most) {
        return Ok(());
    }
    Err(Fail::new("many evaluations"))
}

/// So under each domain.
fn take_few(alloc: Global, program: &Program, most: u64) -> Result<(), Fail> {
    takes_few(alloc, &Ground::new(), program, most)?;
    takes_few(alloc, &ShareFree::new(), program, most)?;
    takes_few(alloc, &DepthK::new(2), program, most)
}

#[test]
fn four_a_row_where_nothing_calls_itself(rt: HostRuntime) -> Result<(), Fail> {
    take_few(rt.alloc(), &loaded(rt.alloc(), LAYERS)?, 4)
}

#[test]
fn ten_a_row_where_predicates_call_themselves(rt: HostRuntime) -> Result<(), Fail> {
    take_few(rt.alloc(), &loaded(rt.alloc(), LISTS)?, 10)
}

#[test]
fn ten_a_row_of_made_programs(rt: HostRuntime) -> Result<(), Fail> {
    take_few(rt.alloc(), &made_program(rt.alloc(), 200)?, 10)
}
