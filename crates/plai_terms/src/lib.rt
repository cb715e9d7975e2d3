//! Terms of Prolog, names, predicates, the patterns of calls and answers, and the texts of all of these.
//!
//! The forms are those of ISO/IEC 13211-1:1995. Lists in public types are small structs, which contracts
//! see as the list of their items.
#![tactic(auto)]

mod abs;
mod atom;
mod groups;
mod laws;
mod listed;
mod moves;
mod name;
mod non_empty;
mod outcome;
mod pattern;
mod plain_row;
mod pred_key;
mod print;
mod prop;
mod read_term;
mod rebuild;
mod row_name;
mod shape;
mod skeleton;
mod solve;
mod subst;
mod term;
mod unifiers;
mod walk;

pub use abs::Abs;
pub use atom::{print_atom, print_name, print_quoted};
pub use laws::{equality_is_exact, rows_are_ordered, term_texts_differ, texts_differ};
pub use listed::Listed;
pub use name::Name;
pub use non_empty::NonEmpty;
pub use outcome::Outcome;
pub use pattern::print_abs;
pub use plain_row::PlainRow;
pub use pred_key::PredKey;
pub use print::print_term;
pub use prop::Prop;
pub use read_term::ReadTerm;
pub use row_name::RowName;
pub use skeleton::Skeleton;
pub use solve::unify;
pub use subst::Subst;
pub use term::{Args, Term};
pub use unifiers::unifiers_are_most_general;
