// Lists as terms, cell by cell.
ghost use Rattle.std.specs.Prelude.{◌≡◌, [], ◌∷◌, IfOk, option_map, codes};
ghost use Rattle.plai_terms.specs.declared.term.Term.{Compound};
ghost use Rattle.plai_clauses.specs.ClauseOf.{two, two_arguments};
ghost use Rattle.plai_builtins.specs.Lists.{list_of, list_items};
ghost use Rattle.plai_builtins.specs.Walks.{is_nil, items_found};

use plai_terms::{Args, Name, Term};
use std::alloc::{AllocError, Global};

fn two(args: &[Term]) -> Option<(&Term, &Term)>
    ensures { option_map (λ p. (p.0.now, p.1.now)) result ≡ two args.now }
{
    match args {
        [first, second] => Some((first, second)),
        _ => None,
    }
}

// The head and the tail of a cell.
fn cell(term: &Term) -> Option<(&Term, &Term)>
    ensures { option_map (λ p. (p.0.now, p.1.now)) result ≡ two_arguments (codes ".") term.entry.now }
{
    match term {
        Term::Compound(name, args) => {
            if name.as_slice() == b".".as_slice() {
                two(args.as_slice())
            } else {
                None
            }
        }
        _ => None,
    }
}

// Whether the term is the atom `[]`.
fn is_nil(term: &Term) -> bool
    ensures { result ≡ is_nil term.now }
{
    match term {
        Term::Atom(name) => name.as_slice() == b"[]".as_slice(),
        _ => false,
    }
}

// The items of a list that ends with `[]`.
pub(crate) fn list_items(alloc: Global, term: &Term) -> Result<Option<Vec<&Term>>, AllocError>
    ensures { IfOk result (λ found. items_found found ≡ list_items term.entry.now) }
{
    let mut items = Vec::new(alloc);
    let mut rest = term;
    while let Some((head, tail)) = cell(rest) {
        items.push(head)?;
        rest = tail;
    }
    if is_nil(rest) {
        Ok(Some(items))
    } else {
        Ok(None)
    }
}

// A list with one item more at its front.
fn put_cell(alloc: Global, head: Term, tail: Term) -> Result<Term, AllocError>
    ensures { IfOk result (λ list. list ≡ Compound (codes ".") (head ∷ tail ∷ [])) }
{
    let name = Name::new(Vec::from_slice(alloc, b".")?);
    Ok(Term::Compound(name, Args::new(vec![in alloc; head, tail]?)))
}

// The list of these items.
pub(crate) fn list_of(alloc: Global, mut items: Vec<Term>) -> Result<Term, AllocError>
    ensures { IfOk result (λ list. list ≡ list_of items.items) }
{
    let mut list = Term::Atom(Name::new(Vec::from_slice(alloc, b"[]")?));
    while let Some(item) = items.pop() {
        list = put_cell(alloc, item, list)?;
    }
    Ok(list)
}
