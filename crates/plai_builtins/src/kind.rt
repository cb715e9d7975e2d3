// What kind of term a term is.
ghost use Rattle.std.specs.Prelude.{◌≡◌};
ghost use Rattle.plai_terms.specs.declared.term.Term.{out-Term};
ghost use Rattle.plai_builtins.specs.Meaning.{is_variable, is_integer, is_atom, is_compound, number_up_to};

use plai_terms::Term;

pub(crate) fn is_variable(term: &Term) -> bool
    ensures { result ≡ is_variable (out-Term term.now) }
{
    match term {
        Term::Var(_) => true,
        Term::Int(_) | Term::Atom(_) | Term::Compound(_, _) => false,
    }
}

pub(crate) fn is_integer(term: &Term) -> bool
    ensures { result ≡ is_integer (out-Term term.now) }
{
    match term {
        Term::Int(_) => true,
        Term::Var(_) | Term::Atom(_) | Term::Compound(_, _) => false,
    }
}

pub(crate) fn is_atom(term: &Term) -> bool
    ensures { result ≡ is_atom (out-Term term.now) }
{
    match term {
        Term::Atom(_) => true,
        Term::Var(_) | Term::Int(_) | Term::Compound(_, _) => false,
    }
}

pub(crate) fn is_compound(term: &Term) -> bool
    ensures { result ≡ is_compound (out-Term term.now) }
{
    match term {
        Term::Compound(_, _) => true,
        Term::Var(_) | Term::Int(_) | Term::Atom(_) => false,
    }
}

// The value of an integer from 0 up to the greatest one.
pub(crate) fn number_up_to(greatest: usize, term: &Term) -> Option<usize>
    ensures { result ≡ number_up_to greatest term.now }
{
    match term {
        Term::Int(value) => {
            if *value >= 0 && *value <= greatest as i128 {
                Some(*value as usize)
            } else {
                None
            }
        }
        _ => None,
    }
}
