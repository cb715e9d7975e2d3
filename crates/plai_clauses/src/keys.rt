//! Which keys are builtins, and which are refused.
ghost use Rattle.std.specs.Prelude.{◌≡◌, ◌&&◌, nat_eq};
ghost use Rattle.std.specs.List.{list_any};
ghost use Rattle.std.specs.Cmp.Lexicographic.{pointwise};
ghost use Rattle.plai_clauses.specs.Builtins.{is_key, refused, is_call, is_builtin_key, is_refused_key, is_definable};

use crate::builtin::Builtin;
use plai_terms::Name;

/// The greatest number of arguments of a predicate.
pub(crate) const MOST_ARGUMENTS: u32 = 16;

const REFUSED: [(&str, u32); 19] = [
    (";", 2),
    ("->", 2),
    ("\\+", 1),
    (":", 2),
    (":-", 1),
    (":-", 2),
    ("?-", 1),
    (",", 2),
    ("findall", 3),
    ("bagof", 3),
    ("setof", 3),
    ("assert", 1),
    ("asserta", 1),
    ("assertz", 1),
    ("retract", 1),
    ("abolish", 1),
    ("catch", 3),
    ("throw", 1),
    ("read", 1),
];

fn is_among(keys: &[(&str, u32)], name: &[u8], arity: u32) -> bool
    ensures { result ≡ list_any (λ key. pointwise nat_eq key.0.now name.now && nat_eq key.1 arity) keys.now }
{
    keys.iter()
        .any(|key| key.0.as_bytes() == name && key.1 == arity)
}

/// Whether the name with that number of arguments is a builtin predicate, a part of those of
/// ISO/IEC 13211-1:1995, 8 and 9. It takes no memory.
pub fn is_builtin(name: &Name, arity: u32) -> bool
    ensures { result ≡ is_builtin_key name.now arity }
{
    Builtin::named(name, arity).is_some()
}

fn is_call(name: &[u8], arity: u32) -> bool
    ensures { result ≡ is_call name.now arity }
{
    name == b"call".as_slice() && arity > 0
}

fn is_in_refused_list(name: &[u8], arity: u32) -> bool
    ensures { result ≡ list_any (is_key name.now arity) refused }
{
    let keys: [(&str, u32); 19] = REFUSED;
    is_among(keys.as_slice(), name, arity)
}

/// Whether no program may define a predicate of that name and number of arguments, although it is no builtin:
/// control constructs, directives and predicates that change the program. It takes no memory.
pub fn is_refused_key(name: &Name, arity: u32) -> bool
    ensures { result ≡ is_refused_key name.now arity }
{
    is_in_refused_list(name.as_slice(), arity) || is_call(name.as_slice(), arity)
}

/// Whether a program may define, declare and call a predicate of that name and number of arguments: it is no
/// builtin, it is not refused, and it has at most 16 arguments. It takes no memory.
pub fn is_definable(name: &Name, arity: u32) -> bool
    ensures { result ≡ is_definable name.now arity }
{
    !is_builtin(name, arity) && !is_refused_key(name, arity) && arity <= MOST_ARGUMENTS
}
