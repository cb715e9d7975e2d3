// The program of the scripts, and pseudo-random draws of their edits.
use std::test::Fail;

/// Predicates that call each other, some of which call themselves.
pub(crate) const PROGRAM: &str = ":- module(m, []). :- entry p(X) : ground(X). :- entry s(X,Y).
p(X) :- q(X). p(f(X)) :- p(X), t(X).
q(a). q(X) :- r(X,Y), t(Y).
r([],[]). r([H|T],[H|S]) :- r(T,S).
s(X,Y) :- r(Y,X), u.
t(1). t(X) :- u, s(X,X).
u.";

const EDITS: [&str; 64] = [
    "add(m,p(b)).",
    "add(m,(p(X):-q(X),t(X))).",
    "add(m,(p(X):-s(X,_))).",
    "add(m,(p(g(X,Y)):-r(X,Y),p(X))).",
    "add(m,q(f(_))).",
    "add(m,(q(X):-p(X))).",
    "add(m,(q(X):-r(_,X))).",
    "add(m,(q(f(X)):-q(X),u)).",
    "add(m,r(_,_)).",
    "add(m,(r(X,X):-t(X))).",
    "add(m,(r(X,Y):-r(Y,X),q(X))).",
    "add(m,(r([X|T],Y):-p(X),r(T,Y))).",
    "add(m,s(a,_)).",
    "add(m,(s(X,Y):-X=Y)).",
    "add(m,(s(X,Y):-q(X),p(Y))).",
    "add(m,(s(X,Y):-s(Y,Z),s(Z,X))).",
    "add(m,t(_)).",
    "add(m,(t(X):-X=2)).",
    "add(m,(t(f(X)):-t(X))).",
    "add(m,(t(X):-s(X,Y),r(Y,_))).",
    "add(m,(u:-t(1))).",
    "add(m,(u:-u,s(_,_))).",
    "add(m,u).",
    "del(m,p/1,1).",
    "del(m,p/1,2).",
    "del(m,p/1,3).",
    "del(m,q/1,1).",
    "del(m,q/1,2).",
    "del(m,q/1,3).",
    "del(m,r/2,1).",
    "del(m,r/2,2).",
    "del(m,r/2,3).",
    "del(m,s/2,1).",
    "del(m,s/2,2).",
    "del(m,t/1,1).",
    "del(m,t/1,2).",
    "del(m,t/1,3).",
    "del(m,u/0,2).",
    "drop(m,q/1).",
    "drop(m,s/2).",
    "drop(m,t/1).",
    "entry(m,p(X)).",
    "entry(m,(q(X):ground(X))).",
    "entry(m,(r(X,Y):ground(X))).",
    "entry(m,t(X)).",
    "unentry(m,1).",
    "unentry(m,2).",
    "unentry(m,3).",
    "del(m,p/1,1).",
    "del(m,p/1,2).",
    "del(m,q/1,1).",
    "del(m,q/1,2).",
    "del(m,r/2,1).",
    "del(m,r/2,2).",
    "del(m,s/2,1).",
    "del(m,s/2,3).",
    "del(m,t/1,1).",
    "del(m,u/0,1).",
    "drop(m,p/1).",
    "drop(m,r/2).",
    "drop(m,s/2).",
    "drop(m,u/0).",
    "entry(m,s(X,Y)).",
    "unentry(m,4).",
];

/// Draws from a seed on.
#[derive(Drop)]
pub(crate) struct Draws {
    state: u64,
}

impl Draws {
    pub(crate) fn new(seed: u64) -> Draws {
        Draws { state: seed }
    }

    /// The next edit.
    pub(crate) fn edit(&mut self) -> Result<&'static str, Fail> {
        self.state = self
            .state
            .wrapping_mul(6_364_136_223_846_793_005)
            .wrapping_add(1_442_695_040_888_963_407);
        let place = (self.state >> 33) % 64;
        match EDITS.get(place as usize) {
            Some(edit) => Ok(*edit),
            None => Err(Fail::new("no edit")),
        }
    }
}
