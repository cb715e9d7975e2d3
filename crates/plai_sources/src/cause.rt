//! Why files are refused.
use plai_clauses::ClauseCause;
use plai_lex::LexCause;
use std::alloc::{AllocError, AllocFailed};

/// Why a term of a file is refused, and the file with it.
#[derive(Debug, Drop)]
pub enum LoadCause {
    /// A place of the text has no token, for this cause. Places are counted in bytes from 0.
    Lex(LexCause, u64),
    /// The tokens are no term.
    Syntax,
    /// The term is deeper than 2,000.
    TooDeep,
    /// A compound in it has more than 255 arguments.
    TermArity,
    /// It says no clause, for this cause.
    Clause(ClauseCause),
    /// It is a directive that isn't known here or that has another form: `module` behind the first term, `?-`, an import
    /// of the module itself, or a list of predicates that names a builtin or a control construct.
    BadDirective,
    /// Its three arguments aren't those of `op`, or the operator is refused.
    BadOperator,
    /// The first term of a file isn't `:- module(M,[P/A,..])`, or there is no term. It stands at term 1.
    NoModule,
    /// A file before has a module of that name. It stands at term 1.
    DuplicateModule,
    /// No file has the module that is imported.
    UnknownModule,
    /// The module that is imported doesn't export one of the predicates.
    NotExported,
    /// A predicate that is imported has clauses in the module, or it imports the same name and number of arguments from
    /// another module.
    ImportClash,
    /// What stands behind `entry` or `check` has another form.
    BadProperty,
    /// It would be clause, entry or check number 65,537 of the program.
    TooManyItems,
}

/// Why a file has no items.
#[derive(Debug, Drop)]
pub enum ItemsFail {
    /// Memory is wanting.
    Memory,
    /// A term, numbered from 1, is refused, the first of the file.
    Refused { term: u64, cause: LoadCause },
}

impl From<AllocError> for ItemsFail {
    ghost use Rattle.std.specs.Prelude.{◌≡◌};
    ghost use Rattle.plai_sources.specs.declared.cause.ItemsFail.TheVariants.{Memory};

    ghost from_gives = { λ _ fail. fail ≡ Memory };

    fn from(_: AllocError) -> ItemsFail {
        ItemsFail::Memory
    }
}

impl<T: Drop> From<AllocFailed<T>> for ItemsFail {
    ghost use Rattle.std.specs.Prelude.{◌≡◌};
    ghost use Rattle.plai_sources.specs.declared.cause.ItemsFail.TheVariants.{Memory};

    ghost from_gives = { λ _ fail. fail ≡ Memory };

    fn from(_: AllocFailed<T>) -> ItemsFail {
        ItemsFail::Memory
    }
}
