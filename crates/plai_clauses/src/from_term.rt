//! The clause of a term that was read.
ghost use Rattle.std.specs.Prelude.{◌≡◌, ◌<◌, ◌≤◌, ◌^◌, IfOk, ◌&&◌, nat_eq, codes, false, length, option_map, Some, None, Ok, Result, [], ◌∷◌};
ghost use Rattle.plai_terms.specs.Readable.{is_wide, IsReadable};
ghost use Rattle.plai_clauses.specs.ClauseOf.{Answers, cause_of_key, target_of, head_at, head_of, literal_at, literal_of, body_of, is_conjunction, goals_of, two, two_arguments, widest, within_slots, clause_from, clause_in, clause_of};
ghost use Rattle.plai_clauses.specs.declared.cause.ClauseCause.TheVariants.{Unsupported};
ghost use Rattle.plai_clauses.specs.Bodies.{Puts};
ghost use Rattle.plai_clauses.specs.WellFormed.{IsWellFormedClause};

use crate::cause::{ClauseCause, ClauseFail};
use crate::clause::{Clause, Literal, Target, copy_terms};
use crate::imports::{Imports, spoken_of};
use crate::keys::{MOST_ARGUMENTS, is_builtin, is_refused_key};
use plai_terms::{Listed, Name, PredKey, ReadTerm, Term};
use std::alloc::{AllocError, Global};

/// The most slots of a clause: the head's arguments, the variables and the widest literal's arguments.
const MOST_SLOTS: u32 = 64;

fn target_of(
    alloc: Global,
    module: &Name,
    imports: &Imports,
    name: &Name,
    arity: u32,
) -> Result<Target, AllocError>
    ensures { IfOk result (λ target. target ≡ target_of «module».now imports.now name.now arity) }
{
    if is_builtin(name, arity) {
        return Ok(Target::Builtin);
    }
    Ok(Target::Pred(PredKey {
        module: spoken_of(module, imports, name, arity).copy(alloc)?,
        name: name.copy(alloc)?,
        arity,
    }))
}

fn cause_of_key(
    alloc: Global,
    unsupported: bool,
    name: &Name,
    arity: u32,
) -> Result<Option<ClauseCause>, AllocError>
    ensures { IfOk result (λ cause. cause ≡ cause_of_key unsupported name.now arity) }
{
    if unsupported {
        return Ok(Some(ClauseCause::Unsupported(name.copy(alloc)?, arity)));
    }
    if arity > MOST_ARGUMENTS {
        return Ok(Some(ClauseCause::ArityTooLarge(arity)));
    }
    Ok(None)
}

fn head_at(alloc: Global, name: &Name, args: &[Term]) -> Result<(Name, Listed<Term>), ClauseFail>
    requires { length args.now ≤ 255 }
    ensures { Answers (head_at name.now args.now) result }
{
    let arity = args.len() as u32;
    let unsupported = is_builtin(name, arity) || is_refused_key(name, arity);
    if let Some(cause) = cause_of_key(alloc, unsupported, name, arity)? {
        return Err(ClauseFail::Refused(cause));
    }
    Ok((name.copy(alloc)?, Listed::new(copy_terms(alloc, args)?)))
}

fn head_of(alloc: Global, term: &Term) -> Result<(Name, Listed<Term>), ClauseFail>
    requires { is_wide term.now ≡ false }
    ensures { Answers (head_of term.now) result }
{
    match term {
        Term::Var(_) | Term::Int(_) => Err(ClauseFail::Refused(ClauseCause::NotAClause)),
        Term::Atom(name) => head_at(alloc, name, &[]),
        Term::Compound(name, args) => head_at(alloc, name, args.as_slice()),
    }
}

fn literal_at(
    alloc: Global,
    module: &Name,
    imports: &Imports,
    name: &Name,
    args: &[Term],
) -> Result<Literal, ClauseFail>
    requires { length args.now ≤ 255 }
    ensures { Answers (literal_at «module».now imports.now name.now args.now) result }
{
    let arity = args.len() as u32;
    if let Some(cause) = cause_of_key(alloc, is_refused_key(name, arity), name, arity)? {
        return Err(ClauseFail::Refused(cause));
    }
    Ok(Literal {
        name: name.copy(alloc)?,
        args: Listed::new(copy_terms(alloc, args)?),
        target: target_of(alloc, module, imports, name, arity)?,
    })
}

fn unsupported(alloc: Global, name: &str, arity: u32) -> Result<ClauseCause, AllocError>
    ensures { IfOk result (λ cause. cause ≡ Unsupported name.now arity) }
{
    let bytes = Vec::from_slice(alloc, name.as_bytes())?;
    Ok(ClauseCause::Unsupported(Name::new(bytes), arity))
}

fn literal_of(
    alloc: Global,
    module: &Name,
    imports: &Imports,
    goal: &Term,
) -> Result<Literal, ClauseFail>
    requires { is_wide goal.now ≡ false }
    ensures { Answers (literal_of «module».now imports.now goal.now) result }
{
    match goal {
        Term::Var(_) => Err(ClauseFail::Refused(unsupported(alloc, "call", 1)?)),
        Term::Int(_) => Err(ClauseFail::Refused(ClauseCause::NotAClause)),
        Term::Atom(name) => literal_at(alloc, module, imports, name, &[]),
        Term::Compound(name, args) => literal_at(alloc, module, imports, name, args.as_slice()),
    }
}

fn is_conjunction(name: &Name, args: &[Term]) -> bool
    ensures { result ≡ is_conjunction name.now (length args.now) }
{
    name.as_slice() == b",".as_slice() && args.len() == 2
}

fn push_literal(
    alloc: Global,
    module: &Name,
    imports: &Imports,
    goal: &Term,
    body: &mut Vec<Literal>,
) -> Result<(), ClauseFail>
    requires { is_wide goal.now ≡ false }
    ensures { Puts (body_of «module».now imports.now (goal.now ∷ [])) body.old.items body.new.items result }
{
    body.push(literal_of(alloc, module, imports, goal)?)?;
    Ok(())
}

/// Puts the literals of the goals that the term joins behind those of the body.
fn push_goals(
    alloc: Global,
    module: &Name,
    imports: &Imports,
    term: &Term,
    body: &mut Vec<Literal>,
) -> Result<(), ClauseFail>
    requires { is_wide term.now ≡ false }
    ensures { Puts (body_of «module».now imports.now (goals_of term.now)) body.old.items body.new.items result }
{
    match term {
        Term::Var(_) => push_literal(alloc, module, imports, term, body),
        Term::Int(_) => push_literal(alloc, module, imports, term, body),
        Term::Atom(_) => push_literal(alloc, module, imports, term, body),
        Term::Compound(name, args) => {
            if !is_conjunction(name, args.as_slice()) {
                return push_literal(alloc, module, imports, term, body);
            }
            for part in args.as_slice() {
                push_goals(alloc, module, imports, part, body)?;
            }
            Ok(())
        }
    }
}

fn widest(body: &[Literal]) -> usize
    ensures { result ≡ widest body.now }
{
    let mut widest: usize = 0;
    for literal in body {
        widest = widest.max(literal.args.as_slice().len());
    }
    widest
}

fn within_slots(
    variables: u32,
    head: (Name, Listed<Term>),
    body: Vec<Literal>,
) -> Result<Clause, ClauseFail>
    requires few_arguments { length head.1 ≤ 16 }
    requires few_variables { variables < 2 ^ 31 }
    requires narrow { widest body.items ≤ 16 }
    ensures { Answers (within_slots variables head body.items) result }
{
    let (name, head) = head;
    let slots = head.as_slice().len() as u32 + variables + widest(&body) as u32;
    if slots > MOST_SLOTS {
        return Err(ClauseFail::Refused(ClauseCause::TooManySlots(slots)));
    }
    Ok(Clause {
        name,
        head,
        variables,
        body: Listed::new(body),
    })
}

fn rule(
    alloc: Global,
    module: &Name,
    imports: &Imports,
    variables: u32,
    head: &Term,
    body: &Term,
) -> Result<Clause, ClauseFail>
    requires few_variables { variables < 2 ^ 31 }
    requires head { is_wide head.now ≡ false }
    requires body { is_wide body.now ≡ false }
    ensures { Answers (clause_from «module».now imports.now variables head.now (goals_of body.now)) result }
{
    let head = head_of(alloc, head)?;
    let mut literals = Vec::new(alloc);
    push_goals(alloc, module, imports, body, &mut literals)?;
    within_slots(variables, head, literals)
}

fn fact(
    alloc: Global,
    module: &Name,
    imports: &Imports,
    variables: u32,
    head: &Term,
) -> Result<Clause, ClauseFail>
    requires few_variables { variables < 2 ^ 31 }
    requires head { is_wide head.now ≡ false }
    ensures { Answers (clause_from «module».now imports.now variables head.now []) result }
{
    let head = head_of(alloc, head)?;
    within_slots(variables, head, Vec::new(alloc))
}

fn two(args: &[Term]) -> Option<(&Term, &Term)>
    ensures { option_map (λ p. (p.0.now, p.1.now)) result ≡ two args.now }
{
    match args {
        [first, second] => Some((first, second)),
        _ => None,
    }
}

fn two_arguments<'a>(wanted: &[u8], term: &'a Term) -> Option<(&'a Term, &'a Term)>
    ensures { option_map (λ p. (p.0.now, p.1.now)) result ≡ two_arguments wanted.now term.entry.now }
{
    match term {
        Term::Compound(name, args) => {
            if name.as_slice() == wanted {
                two(args.as_slice())
            } else {
                None
            }
        }
        _ => None,
    }
}

fn without_body(
    alloc: Global,
    module: &Name,
    imports: &Imports,
    term: &ReadTerm,
) -> Result<Clause, ClauseFail>
    requires readable { IsReadable term.now }
    ensures { Answers (clause_in «module».now imports.now term.now None (two_arguments (codes "-->") term.now.term)) result }
{
    match two_arguments(b"-->", &term.term) {
        Some(_) => Err(ClauseFail::Refused(unsupported(alloc, "-->", 2)?)),
        None => fact(alloc, module, imports, term.variables, &term.term),
    }
}

impl Clause {
    /// The clause that the term says in a module of that name with these imports: a fact, or a rule `H :- B`, where B is
    /// goals joined by `,`. Its number of variables is the term's.
    ///
    /// `Refused` comes exactly where the term says no clause, with the first cause: of the head, then of the goals in
    /// order, and then the number of slots. ISO/IEC 13211-1:1995, 6.2.1 and 7.6.
    pub fn from_term(
        alloc: Global,
        module: &Name,
        imports: &Imports,
        term: &ReadTerm,
    ) -> Result<Clause, ClauseFail>
        requires readable { IsReadable term.now }
        ensures answer { Answers (clause_of «module».now imports.now term.now) result }
        ensures well_formed { IfOk result IsWellFormedClause }
    {
        match two_arguments(b":-", &term.term) {
            Some((head, body)) => rule(alloc, module, imports, term.variables, head, body),
            None => without_body(alloc, module, imports, term),
        }
    }
}
