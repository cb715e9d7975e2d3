ghost use Rattle.std.specs.Prelude.{◌≡◌, ◌<◌, IfOk, length};
ghost use Rattle.plai_terms.specs.Readable.{is_wide};
ghost use Rattle.plai_clauses.specs.WellFormed.{IsWellFormedClause};
ghost use Rattle.plai_pos_laws.specs.Groundness.{groundness};
ghost use Rattle.plai_pos.specs.Values.{value_of};
ghost use Rattle.plai_eval.specs.Answering.{AnswersFit};
ghost use Rattle.plai_ground_tests.specs.ByArity.{by_arity};

use plai_base::{Mask, Steps};
use plai_clauses::{Clause, Imports};
use plai_domain::{Domain, Key, WorkEntry, WorkLog};
use plai_eval::{Answers, EvalFail, Evaluated, evaluate};
use plai_pos::{Ground, Value};
use plai_terms::{Abs, Args, Listed, Name, PredKey, Prop, ReadTerm, RowName, Term};
use std::alloc::{AllocError, Global};
use std::marker::Brand;
use std::process::Abort;
use std::sync::ledger::{Blank, Ledger};
use std::test::Fail;

/// One answer for all calls of one number of arguments.
#[derive(Drop)]
struct ByArity {
    arity: u32,
    answer: Value,
}

impl Answers<Ground> for ByArity {
    ghost source = { λ rows. by_arity rows.arity (value_of rows.answer) };

    fn answer(&self, name: &Key<Value>) -> Option<&Value> {
        if name.pred.arity == self.arity {
            Some(&self.answer)
        } else {
            None
        }
    }
}

/// For calls of one argument the answer that it is ground.
fn ground_argument(alloc: Global, domain: &Ground) -> Result<ByArity, AllocError>
    ensures { IfOk result (λ rows. AnswersFit groundness (by_arity rows.arity (value_of rows.answer))) }
{
    let pre = [Prop::Ground(1)];
    Ok(ByArity {
        arity: 1,
        answer: Domain::describe(domain, alloc, 1, pre.as_slice())?,
    })
}

fn name(alloc: Global, text: &str) -> Result<Name, AllocError> {
    Ok(Name::new(Vec::from_slice(alloc, text.as_bytes())?))
}

fn pred(alloc: Global, text: &str, arity: u32) -> Result<PredKey, AllocError>
    ensures { IfOk result (λ pred. pred.arity ≡ arity) }
{
    Ok(PredKey {
        module: name(alloc, "m")?,
        name: name(alloc, text)?,
        arity,
    })
}

fn compound(alloc: Global, text: &str, args: &[Term]) -> Result<Term, AllocError> {
    let mut copies = Vec::new(alloc);
    for arg in args {
        copies.push(arg.copy(alloc)?)?;
    }
    if copies.is_empty() {
        return Ok(Term::Atom(name(alloc, text)?));
    }
    Ok(Term::Compound(name(alloc, text)?, Args::new(copies)))
}

/// The evaluation of a clause, of number 7, at the call of which nothing is known.
fn evaluated<D: Domain, A: Answers<D>, L: Ledger>(
    alloc: Global,
    domain: &D,
    pred: PredKey,
    clause: &Clause,
    answers: &A,
    log: &mut WorkLog,
    blank: Blank,
) -> Result<Evaluated<D>, EvalFail>
    requires clause { IsWellFormedClause clause.now }
    requires arity { length clause.now.head ≡ pred.arity }
    requires answers { AnswersFit (D.plain domain.now) (A.source answers.now) }
    requires name { blank.name ≡ L.name }
    requires parts { blank.parts ≡ L.parts }
    requires some { 0 < blank.parts }
{
    let call = domain.describe(alloc, pred.arity, &[])?;
    let name = Key { pred, call };
    let mut steps = Steps::<L>::new(blank);
    evaluate(alloc, domain, &name, clause, 7, answers, log, &mut steps)
}

fn is_wide(term: &Term) -> bool
    ensures { result ≡ is_wide term.now }
{
    match term {
        Term::Var(_) | Term::Int(_) | Term::Atom(_) => false,
        Term::Compound(_, args) => {
            if args.as_slice().len() > 255 {
                return true;
            }
            for arg in args.as_slice() {
                if is_wide(arg) {
                    return true;
                }
            }
            false
        }
    }
}

/// The clause `p(X) :- Body`, where X is variable 0 and the only one.
fn clause_of<R: AllocGlobal + Abort>(rt: &R, body: Term) -> Result<Clause, Fail>
    ensures { IfOk result IsWellFormedClause }
{
    let alloc = rt.alloc();
    let head = compound(alloc, "p", [Term::Var(0)].as_slice())?;
    let term = compound(alloc, ":-", [head, body].as_slice())?;
    let read = ReadTerm { term, variables: 1 };
    assert!(rt; read.term.has_variables_below(alloc, 1)? && !is_wide(&read.term));
    let imports = Imports::new(Vec::new(alloc));
    Ok(Clause::from_term(alloc, &name(alloc, "m")?, &imports, &read)?)
}

fn pattern(alloc: Global, arity: u32, models: &[u64]) -> Result<Abs, AllocError> {
    let mut masks = Vec::new(alloc);
    for model in models {
        masks.push(Mask::from_bits(*model))?;
    }
    Ok(Abs::Pos(arity, Listed::new(masks)))
}

// The answer of `p(X) :- Body` at `p(X)`, given by its models, and what it calls, by names, numbers of arguments and
// models. One-place calls answer that their argument is ground, no other has an answer.
fn check<R: AllocGlobal + Abort>(
    rt: &R,
    body: Term,
    answer: Option<&[u64]>,
    calls: &[(&str, u32, &[u64])],
) -> Result<(), Fail> {
    let alloc = rt.alloc();
    let domain = Ground::new();
    let clause = clause_of(rt, body)?;
    assert!(rt; clause.head.as_slice().len() == 1);
    let rows = ground_argument(alloc, &domain)?;
    let mut log = WorkLog::new(alloc);
    let found = evaluated::<Ground, ByArity, Brand>(
        alloc,
        &domain,
        pred(alloc, "p", 1)?,
        &clause,
        &rows,
        &mut log,
        Blank::new(1),
    )?;
    match (&found.answer, answer) {
        (None, None) => {}
        (Some(value), Some(models)) => {
            let wanted = pattern(alloc, 1, models)?;
            assert_eq!(rt; domain.to_abs(alloc, value)?, wanted);
        }
        _ => assert!(rt; false, "one has an answer, the other has none"),
    }
    let called = found.calls.as_slice();
    assert_eq!(rt; called.len(), calls.len());
    for (key, want) in called.iter().zip(calls) {
        assert_eq!(rt; key.pred, pred(alloc, want.0, want.1)?);
        assert_eq!(rt;
            domain.to_abs(alloc, &key.call)?,
            pattern(alloc, want.1, want.2)?
        );
    }
    check_noted(rt, &log)
}

fn check_noted<R: AllocGlobal + Abort>(rt: &R, log: &WorkLog) -> Result<(), Fail> {
    let alloc = rt.alloc();
    assert_eq!(rt; log.entries().len(), 1);
    for entry in log.entries() {
        match entry {
            WorkEntry::Evaluated(row, number) => {
                let wanted = RowName {
                    pred: pred(alloc, "p", 1)?,
                    call: pattern(alloc, 1, &[0, 1])?,
                };
                assert_eq!(rt; *row, wanted);
                assert_eq!(rt; *number, 7);
            }
            _ => assert!(rt; false, "another entry"),
        }
    }
    Ok(())
}

fn joined(alloc: Global, first: Term, second: Term) -> Result<Term, AllocError> {
    compound(alloc, ",", [first, second].as_slice())
}

#[test]
fn clauses_are_evaluated_under_groundness(rt: HostRuntime) -> Result<(), Fail> {
    let a = rt.alloc();
    let q = || compound(a, "q", [Term::Var(0)].as_slice());
    let r = || compound(a, "r", [Term::Var(0), Term::Var(0)].as_slice());
    let open: &[u64] = &[0, 1];
    let closed: &[u64] = &[1];
    check(&rt, q()?, Some(closed), &[("q", 1, open)])?;
    // after `q(X)` both arguments of `r(X,X)` are ground, and its row has no answer
    check(
        &rt,
        joined(a, q()?, r()?)?,
        None,
        &[("q", 1, open), ("r", 2, &[3])],
    )?;
    // `q` is not called after none
    check(&rt, joined(a, r()?, q()?)?, None, &[("r", 2, &[0, 3])])?;
    check(&rt, joined(a, compound(a, "fail", &[])?, q()?)?, None, &[])?;
    let equal = compound(a, "=", [Term::Var(0), compound(a, "c", &[])?].as_slice())?;
    check(
        &rt,
        joined(a, equal, q()?)?,
        Some(closed),
        &[("q", 1, closed)],
    )?;
    check(&rt, compound(a, "nl", &[])?, Some(open), &[])?;
    Ok(())
}
