// Which keys are builtins, which are refused, and which a program may define.
use crate::reading::name;
use plai_clauses::{is_builtin, is_definable, is_refused_key};
use std::test::Fail;

/// The builtins, by their names and numbers of arguments.
const BUILTINS: [(&str, u32); 31] = [
    ("true", 0),
    ("fail", 0),
    ("!", 0),
    ("nl", 0),
    ("write", 1),
    ("var", 1),
    ("nonvar", 1),
    ("atom", 1),
    ("atomic", 1),
    ("ground", 1),
    ("integer", 1),
    ("compound", 1),
    ("=", 2),
    ("\\=", 2),
    ("==", 2),
    ("\\==", 2),
    ("@<", 2),
    ("@=<", 2),
    ("@>", 2),
    ("@>=", 2),
    ("is", 2),
    ("=:=", 2),
    ("=\\=", 2),
    ("<", 2),
    ("=<", 2),
    (">", 2),
    (">=", 2),
    ("=..", 2),
    ("copy_term", 2),
    ("functor", 3),
    ("arg", 3),
];

/// What is no builtin, and yet defined by no program.
const REFUSED: [(&str, u32); 23] = [
    (",", 2),
    (";", 2),
    ("->", 2),
    ("\\+", 1),
    (":", 2),
    (":-", 1),
    (":-", 2),
    ("?-", 1),
    ("findall", 3),
    ("bagof", 3),
    ("setof", 3),
    ("assert", 1),
    ("asserta", 1),
    ("assertz", 1),
    ("retract", 1),
    ("abolish", 1),
    ("catch", 3),
    ("throw", 1),
    ("read", 1),
    ("call", 1),
    ("call", 2),
    ("call", 16),
    ("call", 17),
];

/// What a program may define.
const DEFINABLE: [(&str, u32); 17] = [
    ("p", 0),
    ("p", 16),
    ("", 0),
    ("[]", 0),
    (".", 2),
    ("call", 0),
    ("true", 1),
    ("write", 0),
    ("write", 2),
    ("is", 3),
    (",", 1),
    (",", 3),
    ("->", 3),
    ("-->", 2),
    ("findall", 4),
    ("retract", 2),
    ("Is", 2),
];

#[test]
fn keys_are_builtins_or_refused_or_definable(rt: HostRuntime) -> Result<(), Fail> {
    let alloc = rt.alloc();
    for (keys, builtin, refused) in [
        (BUILTINS.as_slice(), true, false),
        (REFUSED.as_slice(), false, true),
        (DEFINABLE.as_slice(), false, false),
    ] {
        for (text, arity) in keys {
            let key = name(alloc, text)?;
            let found = (is_builtin(&key, *arity), is_refused_key(&key, *arity));
            assert!(rt; found == (builtin, refused), "{text}");
            assert_eq!(rt; is_definable(&key, *arity), !builtin && !refused, "{text}");
        }
    }
    let key = name(alloc, "p")?;
    assert!(rt; !is_builtin(&key, 17) && !is_refused_key(&key, 17) && !is_definable(&key, 17));
    Ok(())
}
