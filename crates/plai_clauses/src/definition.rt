//! The clauses of the predicates.
ghost use Rattle.std.specs.Prelude.{◌≡◌, ◌<◌, ◌+◌, ◌-◌, ◌^◌, [], ◌∷◌, length, min, take, IfOk, OnOk, OnErr};
ghost use Rattle.std.specs.List.{remove, sum_by};
ghost use Rattle.indexmap.specs.IndexMap.{insert_entry, IsUnique};
ghost use Rattle.plai_clauses.specs.Program.{clauses_in, same_pred, with_clause, changed_in};
ghost use Rattle.plai_clauses.specs.Keyed.{definitions_in};

use crate::clause::Clause;
use crate::clause_list::ClauseList;
use indexmap::IndexMap;
use plai_terms::PredKey;
use std::alloc::{AllocError, Global};

/// A predicate with its clauses.
#[derive(Debug, Drop)]
pub struct Definition {
    pub pred: PredKey,
    pub clauses: ClauseList,
}

/// The clauses of each predicate, found by its key, in the order in which the predicates came.
pub(crate) type Definitions = IndexMap<PredKey, ClauseList>;

// Puts an equal predicate with the same clauses last.
fn push_copy(
    alloc: Global,
    definitions: &Definitions,
    place: usize,
    copies: &mut Definitions,
) -> Result<(), AllocError>
    requires unique { IsUnique same_pred definitions.now }
    requires within { place < length definitions.now.entries }
    requires first { copies.old.entries ≡ take place definitions.now.entries }
    ensures { OnOk result (copies.new.entries ≡ take (place + 1) definitions.now.entries) }
{
    let (pred, clauses) = definitions.get_index(place).unwrap();
    copies.insert(pred.copy(alloc)?, clauses.share()?)?;
    Ok(())
}

/// Equal definitions. Each predicate is copied, and its clauses have one more owner.
pub(crate) fn copy_definitions(
    alloc: Global,
    definitions: &Definitions,
) -> Result<Definitions, AllocError>
    ensures { IfOk result (λ copies. copies.entries ≡ definitions.now.entries) }
{
    let mut copies = IndexMap::new(alloc);
    for place in 0..definitions.len() {
        push_copy(alloc, definitions, place, &mut copies)?;
    }
    Ok(copies)
}

/// The clauses of the predicate, none where it has no definition.
pub(crate) fn clauses_in<'a>(definitions: &'a Definitions, pred: &PredKey) -> &'a [Clause]
    ensures { result.now ≡ clauses_in (definitions_in definitions.entry.now.entries) pred.now }
{
    match definitions.get(pred) {
        Some(clauses) => clauses.as_slice(),
        None => &[],
    }
}

fn push_new(
    alloc: Global,
    definitions: &mut Definitions,
    pred: PredKey,
    clause: Clause,
) -> Result<(), AllocError>
    ensures ok { OnOk result (definitions.new.entries ≡ insert_entry same_pred definitions.old.entries pred (clause ∷ [])) }
    ensures err { OnErr result (definitions.new.entries ≡ definitions.old.entries) }
{
    let mut clauses = ClauseList::new();
    clauses.push(alloc, clause)?;
    definitions.insert(pred, clauses)?;
    Ok(())
}

/// Puts the clause last in its predicate.
pub(crate) fn push_clause(
    alloc: Global,
    definitions: &mut Definitions,
    pred: PredKey,
    clause: Clause,
) -> Result<(), AllocError>
    ensures ok { OnOk result (definitions_in definitions.new.entries ≡ with_clause (definitions_in definitions.old.entries) pred clause) }
    ensures err { OnErr result (definitions.new.entries ≡ definitions.old.entries) }
{
    match definitions.get_mut(&pred) {
        Some(clauses) => clauses.push(alloc, clause),
        None => push_new(alloc, definitions, pred, clause),
    }
}

/// Takes the clause at that place in its predicate away.
pub(crate) fn remove_clause(
    alloc: Global,
    definitions: &mut Definitions,
    pred: &PredKey,
    number: usize,
) -> Result<(), AllocError>
    requires { number < length (clauses_in (definitions_in definitions.old.entries) pred.now) }
    ensures ok { OnOk result (definitions_in definitions.new.entries ≡ changed_in (λ clauses. remove clauses number) (definitions_in definitions.old.entries) pred.now) }
    ensures err { OnErr result (definitions.new.entries ≡ definitions.old.entries) }
{
    match definitions.get_mut(pred) {
        Some(clauses) => clauses.remove(alloc, number),
        None => Ok(()),
    }
}

/// Takes all clauses of the predicate away.
pub(crate) fn clear_clauses(definitions: &mut Definitions, pred: &PredKey)
    ensures { definitions_in definitions.new.entries ≡ changed_in (λ _. []) (definitions_in definitions.old.entries) pred.now }
{
    match definitions.get_mut(pred) {
        Some(clauses) => clauses.clear(),
        None => {}
    }
}

fn count_in(lists: &[ClauseList]) -> u64
    ensures { result ≡ min (sum_by length lists.now) (2 ^ 64 - 1) }
{
    let mut count: u64 = 0;
    for clauses in lists {
        count = count.saturating_add(clauses.as_slice().len() as u64);
    }
    count
}

/// How many clauses there are, or the largest `u64`.
pub(crate) fn count_clauses(definitions: &Definitions) -> u64
    ensures { result ≡ min (sum_by (λ d. length d.clauses) (definitions_in definitions.now.entries)) (2 ^ 64 - 1) }
{
    count_in(definitions.values().as_slice())
}
