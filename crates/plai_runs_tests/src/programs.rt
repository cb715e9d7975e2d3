// Programs, and goals that their entries describe.

/// What stands between two files of a program. The last file has the goals, as the arguments of facts.
pub(crate) const BETWEEN: &str = "----";

/// Lists joined, from the examples.
pub(crate) const JOINED: &str =
    ":- module(app, [app/3]). :- entry app(X, Y, Z) : (ground(X), ground(Y)).
app([], L, L). app([H|T], L, [H|R]) :- app(T, L, R).
----:- module(goals, []).
goal(app([a,f(b),c],[d],_)). goal(app([],[a],X)). goal(app([a],[b],[X|Y])). goal(app([a,b],[],[X,X])). goal(app(f(a),a,f(X))).";

/// Quicksort of Peano numbers, from the examples.
pub(crate) const SORTED: &str =
    ":- module(sort, [qsort/2]). :- use_module(lists, [app/3]). :- entry qsort(X, Y) : ground(X).
qsort([], []). qsort([H|T], S) :- part(T, H, L, G), qsort(L, SL), qsort(G, SG), app(SL, [H|SG], S).
part([], _, [], []). part([X|Xs], P, [X|L], G) :- at_most(X, P), part(Xs, P, L, G).
part([X|Xs], P, L, [X|G]) :- greater(X, P), part(Xs, P, L, G).
at_most(0, _). at_most(s(X), s(Y)) :- at_most(X, Y).
greater(s(_), 0). greater(s(X), s(Y)) :- greater(X, Y).
----:- module(lists, [app/3]). app([], L, L). app([H|T], L, [H|R]) :- app(T, L, R).
----:- module(goals, []).
goal(qsort([s(0),0,s(s(0))],_)). goal(qsort([0,s(0)],[X|Y])). goal(qsort([],Z)). goal(qsort([s(0),s(0),0],[X,Y,Y])).";

/// A program whose calls end in no answer, from the examples.
pub(crate) const NEVER: &str = ":- module(never, [try/1]). :- entry try(X).
try(X) :- loop(X), later(X). try(X) :- missing(X), later(X). loop(X) :- loop(X). later(a).
----:- module(goals, []). goal(try(a)). goal(try(X)). goal(try(f(X,Y))).";

/// Programs whose runs come to answers: the other examples, and programs that tests of tables use.
pub(crate) const PROGRAMS: [&str; 14] = [
    JOINED,
    SORTED,
    ":- module(deriv, [d/3]). :- entry d(E, X, D) : (ground(E), ground(X)). :- entry d(E, X, D) : ground(X).
d(U+V, X, DU+DV) :- d(U, X, DU), d(V, X, DV). d(U-V, X, DU-DV) :- d(U, X, DU), d(V, X, DV).
d(U*V, X, DU*V+U*DV) :- d(U, X, DU), d(V, X, DV). d(U^s(N), X, DU*s(N)*U^N) :- d(U, X, DU).
d(-U, X, -DU) :- d(U, X, DU). d(x(X), X, s(0)). d(c(_), _, 0).
----:- module(goals, []).
goal(d(x(v)*c(1)+x(v)^s(0),v,_)). goal(d(-x(v),v,D)). goal(d(U-x(Y),v,D)). goal(d(E,v,D)). goal(d(E,v,E)).",
    ":- module(fact, [fact/2]). :- entry fact(N, F). fact(0, 1). fact(N, F) :- N > 0, M is N-1, fact(M, G), F is N*G.
----:- module(goals, []). goal(fact(3,F)). goal(fact(1,1)). goal(fact(N,F)). goal(fact(2,f(F))). goal(fact(N,N)).",
    ":- module(len, [len/2]). :- entry len(X, Y). len([], 0). len([_|T], s(N)) :- len(T, N).
----:- module(goals, []). goal(len([a,X,f(X)],N)). goal(len(L,N)). goal(len([a|T],s(T))). goal(len(X,X)). goal(len([N],N)).",
    ":- module(m, []). :- entry g(X) : ground(X). :- entry g(Y). g(f(Y)) :- h(Y,Y). h(X,Y) :- k(X), k(Y). k(1).
----:- module(goals, []). goal(g(f(1))). goal(g(X)). goal(g(f(X))). goal(g(f(2))).",
    ":- module(m, []). :- entry rev(X,Y) : ground(X).
rev(X,Y) :- rev(X,[],Y). rev([],A,A). rev([H|T],A,R) :- rev(T,[H|A],R).
----:- module(goals, []). goal(rev([a,b,c],Y)). goal(rev([],Y)). goal(rev([a,f(b)],[X|Y])). goal(rev([a,a],[X,X])).",
    ":- module(m, []). :- entry flip(X,Y) : var(X). flip(X,Y) :- flip(Y,X). flip(a,_).
----:- module(goals, []). goal(flip(X,Y)). goal(flip(X,X)). goal(flip(X,f(X,Y))). goal(flip(X,a)).",
    ":- module(m, []). :- entry t(A,B,C). t(A,B,C) :- u(A,B), u(B,C), u(C,A). u(X,X).
----:- module(goals, []). goal(t(X,Y,Z)). goal(t(a,Y,Z)). goal(t(X,f(X),Z)). goal(t(f(X,Y),f(Y,Z),W)).",
    ":- module(m, []). :- entry q(X,Y) : (var(X), ground(Y)). q(X,Y) :- d(X-T), T = Y. d([a|T]-T). d(L-T) :- L = [b|M], d(M-T).
----:- module(goals, []). goal(q(X,[])). goal(q(X,f(a))).",
    ":- module(m, []). :- entry both(X,Y). both(X,Y) :- one(X), two(Y,X). one(a). one(_). two(X,X). two(b,_).
----:- module(goals, []). goal(both(X,Y)). goal(both(X,X)). goal(both(b,Y)). goal(both(f(X),f(Y))).",
    ":- module(m, []). :- entry r(X,Y). r(X,Y) :- X =.. [_|Y], nonvar(X), true. r(X,Y) :- copy_term(X,Y), integer(X).
r(X,Y) :- arg(X,Y,Z), atom(Z), write(Z), nl. r(X,Y) :- functor(X,Y,2). r(X,Y) :- copy_term(X,Y). r(X,Y) :- X == Y, \\+(X,Y). \\+(_,_).
----:- module(goals, []). goal(r(f(a,X),Y)). goal(r(X,Y)). goal(r(1,f(a,b))). goal(r(2,[X,Y])). goal(r(X,f)). goal(r(f(X,Y),Z)). goal(r(3,X)).",
    ":- module(m, []). :- entry p(X,Y,Z) : (indep(X,Y), indep(X,Z), indep(Y,Z), var(X)). p(X,Y,Z) :- X = f(Y,Z). p(X,Y,Z) :- Y = f(X,W), Z = g(W).
----:- module(goals, []). goal(p(X,Y,Z)). goal(p(X,f(Y,Y),f(Z))). goal(p(X,a,Z)).",
    ":- module(m, []). :- entry p(X) : var(X). p(X) :- q(X,X). q(f(_),_). q(Y,Z) :- Y = g(V,W), q(V,W). q(int,any).
----:- module(goals, []). goal(p(X)).",
];
