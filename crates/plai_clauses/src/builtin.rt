//! The builtin predicates, each by its key.
ghost use Rattle.std.specs.Prelude.{◌≡◌, map};
ghost use Rattle.plai_clauses.specs.Builtins.{first_of_key, builtin_named};

use plai_terms::Name;

/// A builtin predicate, a part of those of ISO/IEC 13211-1:1995, 7.8, 8 and 9. What it does to a state and what it means
/// is told by `plai_builtins`.
#[derive(Clone, Copy, Debug, PartialEq, Eq)]
pub enum Builtin {
    /// `true` (7.8.1).
    True,
    /// `!` (7.8.4).
    Cut,
    /// `nl` (8.12.3).
    NewLine,
    /// `write/1` (8.14.2).
    Write,
    /// `fail` (7.8.2).
    Fail,
    /// `=` (8.2.1).
    Unify,
    /// `\=` (8.2.3).
    NotUnify,
    /// `==` of terms (8.4.1).
    Same,
    /// `\==` of terms (8.4.1).
    NotSame,
    /// `@<` of terms (8.4.1).
    TermLess,
    /// `@=<` of terms (8.4.1).
    TermLessOrSame,
    /// `@>` of terms (8.4.1).
    TermGreater,
    /// `@>=` of terms (8.4.1).
    TermGreaterOrSame,
    /// `var/1` (8.3.1).
    Var,
    /// `nonvar/1` (8.3.7).
    Nonvar,
    /// `atom/1` (8.3.2).
    Atom,
    /// `atomic/1` (8.3.5).
    Atomic,
    /// `ground/1` (8.3.10 of the second corrigendum).
    Ground,
    /// `integer/1` (8.3.3).
    Integer,
    /// `compound/1` (8.3.6).
    Compound,
    /// `is/2` (8.6.1).
    Is,
    /// `=:=` of values (8.7.1).
    ValuesEqual,
    /// `=\=` of values (8.7.1).
    ValuesDiffer,
    /// `<` of values (8.7.1).
    ValueLess,
    /// `=<` of values (8.7.1).
    ValueLessOrEqual,
    /// `>` of values (8.7.1).
    ValueGreater,
    /// `>=` of values (8.7.1).
    ValueGreaterOrEqual,
    /// `functor/3` (8.5.1).
    Functor,
    /// `arg/3` (8.5.2).
    Arg,
    /// `=..` (8.5.3).
    Univ,
    /// `copy_term/2` (8.5.4).
    CopyTerm,
}

/// The builtins by their names and numbers of arguments.
const BUILTINS: [(&str, u32, Builtin); 31] = [
    ("true", 0, Builtin::True),
    ("!", 0, Builtin::Cut),
    ("nl", 0, Builtin::NewLine),
    ("write", 1, Builtin::Write),
    ("fail", 0, Builtin::Fail),
    ("=", 2, Builtin::Unify),
    ("\\=", 2, Builtin::NotUnify),
    ("==", 2, Builtin::Same),
    ("\\==", 2, Builtin::NotSame),
    ("@<", 2, Builtin::TermLess),
    ("@=<", 2, Builtin::TermLessOrSame),
    ("@>", 2, Builtin::TermGreater),
    ("@>=", 2, Builtin::TermGreaterOrSame),
    ("var", 1, Builtin::Var),
    ("nonvar", 1, Builtin::Nonvar),
    ("atom", 1, Builtin::Atom),
    ("atomic", 1, Builtin::Atomic),
    ("ground", 1, Builtin::Ground),
    ("integer", 1, Builtin::Integer),
    ("compound", 1, Builtin::Compound),
    ("is", 2, Builtin::Is),
    ("=:=", 2, Builtin::ValuesEqual),
    ("=\\=", 2, Builtin::ValuesDiffer),
    ("<", 2, Builtin::ValueLess),
    ("=<", 2, Builtin::ValueLessOrEqual),
    (">", 2, Builtin::ValueGreater),
    (">=", 2, Builtin::ValueGreaterOrEqual),
    ("functor", 3, Builtin::Functor),
    ("arg", 3, Builtin::Arg),
    ("=..", 2, Builtin::Univ),
    ("copy_term", 2, Builtin::CopyTerm),
];

/// The builtin of the first row with this name and number of arguments.
fn first_of_key(rows: &[(&str, u32, Builtin)], name: &[u8], arity: u32) -> Option<Builtin>
    ensures { result ≡ first_of_key (map (λ row. (row.0.now, row.1, row.2)) rows.now) name.now arity }
{
    for row in rows {
        if row.0.as_bytes() == name && row.1 == arity {
            return Some(row.2);
        }
    }
    None
}

impl Builtin {
    /// The builtin of this name and number of arguments. It takes no memory.
    pub fn named(name: &Name, arity: u32) -> Option<Builtin>
        ensures { result ≡ builtin_named name.now arity }
    {
        let rows: [(&str, u32, Builtin); 31] = BUILTINS;
        first_of_key(rows.as_slice(), name.as_slice(), arity)
    }
}
