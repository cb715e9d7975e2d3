//! The items of a file, with the keys for which it has clauses.
ghost use Rattle.std.specs.Prelude.{◌≡◌, ◌||◌, ◌^◌, ℕ, List, false, IfOk, OnOk, option_map, codes};
ghost use Rattle.std.specs.Option.{option_copied};
ghost use Rattle.std.specs.List.{list_any};
ghost use Rattle.plai_terms.specs.Readable.{is_wide};
ghost use Rattle.plai_clauses.specs.ClauseOf.{two, two_arguments};
ghost use Rattle.plai_sources.specs.WellFormed.{IsWellFormedItem, AreWellFormedItems};
ghost use Rattle.plai_modules.specs.Importing.{has_key, head_of, is_clause_of, has_clause};
ghost use Rattle.plai_modules.specs.KeySets.{IsSetOf, same_key};

use crate::keys::{KeySet, add_key};
use indexmap::IndexSet;
use plai_sources::{FileItems, Item, NumberedItem};
use plai_terms::{Name, Term};
use std::alloc::{AllocError, Global};
use std::marker::Model;

fn first_of_two(args: &[Term]) -> Option<&Term>
    ensures { option_copied result ≡ option_map (λ pair. pair.0) (two args.entry.now) }
{
    match args {
        [first, _] => Some(first),
        _ => None,
    }
}

/// The head of a rule, `None` where the term is none.
fn head_of_rule(term: &Term) -> Option<&Term>
    ensures { option_copied result ≡ option_map (λ rule. rule.0) (two_arguments (codes ":-") term.entry.now) }
{
    match term {
        Term::Compound(name, args) => {
            if name.as_slice() == b":-".as_slice() {
                first_of_two(args.as_slice())
            } else {
                None
            }
        }
        _ => None,
    }
}

fn head_of(term: &Term) -> &Term
    ensures { result.now ≡ head_of term.entry.now }
{
    match head_of_rule(term) {
        Some(head) => head,
        None => term,
    }
}

/// Puts the key of a clause for this head into the set, if it has one.
fn add_head(alloc: Global, set: &mut KeySet, head: &Term) -> Result<(), AllocError>
    requires { is_wide head.now ≡ false }
    ensures { OnOk result ((key : List ℕ × ℕ) → list_any (same_key key) set.new.keys ≡ (list_any (same_key key) set.old.keys || has_key key head.now)) }
{
    match head {
        Term::Atom(name) => add_key(alloc, set, name, 0),
        Term::Compound(name, args) => add_key(alloc, set, name, args.as_slice().len() as u32),
        Term::Var(_) | Term::Int(_) => Ok(()),
    }
}

/// Puts the key of an item that is a clause into the set.
fn add_clause_key(alloc: Global, set: &mut KeySet, item: &Item) -> Result<(), AllocError>
    requires { (own : List ℕ) × IsWellFormedItem own item.now }
    ensures { OnOk result ((key : List ℕ × ℕ) → list_any (same_key key) set.new.keys ≡ (list_any (same_key key) set.old.keys || is_clause_of key item.now)) }
{
    match item {
        Item::Clause(read) => add_head(alloc, set, head_of(&read.term)),
        _ => Ok(()),
    }
}

/// The keys for which the file has clauses.
fn clause_keys(alloc: Global, file: &FileItems) -> Result<KeySet, AllocError>
    requires { AreWellFormedItems file.now }
    ensures { IfOk result (λ set. IsSetOf (has_clause file.now.items) set.keys) }
{
    let mut set = IndexSet::new(alloc);
    for numbered in file.items.as_slice() {
        add_clause_key(alloc, &mut set, &numbered.item)?;
    }
    Ok(set)
}

/// The items of a file, with the keys for which it has clauses. Contracts see the items.
#[derive(Drop)]
pub(crate) struct OwnItems<'a> {
    items: &'a [NumberedItem],
    keys: KeySet,
}

impl<'a> Model for OwnItems<'a> {
    ghost use Rattle.std.specs.Prelude.{List};
    ghost use Rattle.std.specs.Coded.{coded_list};
    ghost use Rattle.plai_sources.specs.declared.items.NumberedItem.{NumberedItem};
    ghost use Rattle.plai_sources.specs.contracts.items.NumberedItem as numbered;
    ghost use Rattle.plai_modules.specs.Importing.{has_clause};
    ghost use Rattle.plai_modules.specs.KeySets.{IsSetOf};

    ghost Value = { List NumberedItem };

    ghost coded = { coded_list numbered.the_row.coded };

    ghost view = { λ o. o.items.now };

    ghost invariant = { λ o. IsSetOf (has_clause o.items.now) o.keys.keys };
}

impl<'a> OwnItems<'a> {
    /// The items of a file.
    pub(crate) fn new(alloc: Global, file: &'a FileItems) -> Result<OwnItems<'a>, AllocError>
        requires { AreWellFormedItems file.now }
        ensures { IfOk result (λ own. own ≡ file.entry.now.items) }
    {
        Ok(OwnItems {
            items: file.items.as_slice(),
            keys: clause_keys(alloc, file)?,
        })
    }

    /// The items.
    pub(crate) fn as_slice(&self) -> &[NumberedItem]
        ensures { result.now ≡ self.now }
    {
        self.items
    }

    /// Whether one of the items is a clause for the key.
    pub(crate) fn has_clause(&self, key: &(Name, u32)) -> bool
        ensures { result ≡ has_clause self.now key.now }
    {
        self.keys.contains(key)
    }
}
