ghost use Rattle.std.specs.Prelude.{◌≡◌, IfOk, OnOk, Some};
ghost use Rattle.indexmap.specs.IndexMap.{get, Updates};
ghost use Rattle.plai_bdd.specs.Memo.{IsBlank, NotesOne, dense_at as noted_in, noted_at, same_pair};

use indexmap::IndexMap;
use std::alloc::{AllocError, Global};

/// Two places, one in each list.
#[derive(Clone, Copy, Debug, PartialEq, Eq, Hash)]
pub struct Pair {
    pub left: usize,
    pub right: usize,
}

/// Where the functions of pairs are. Of few pairs nothing is noted, since to look costs more than to walk again. Of more, below 64 on
/// each side, it is one more than the place, at 64 times the left place and the right one, or 0. Else it is found by the pair.
#[derive(Drop)]
pub enum Memo {
    Nothing,
    Dense(Vec<usize>),
    Sparse(IndexMap<Pair, usize>),
}

/// The memo in which nothing is noted yet, for lists of so many nodes.
pub fn blank_memo(alloc: Global, left: usize, right: usize) -> Result<Memo, AllocError>
    ensures { IfOk result (λ memo. IsBlank memo) }
{
    if left <= 6 && right <= 6 {
        Ok(Memo::Nothing)
    } else if left <= 64 && right <= 64 {
        Ok(Memo::Dense(vec![in alloc; 0; 64 * left]?))
    } else {
        Ok(Memo::Sparse(IndexMap::with_capacity(alloc, left.max(right))?))
    }
}

/// What stands at the pair.
fn dense_at(places: &[usize], pair: Pair) -> Option<usize>
    ensures { result ≡ noted_in places.now pair }
{
    if pair.left >= 64 || pair.right >= 64 {
        return None;
    }
    match places.get(64 * pair.left + pair.right) {
        None | Some(0) => None,
        Some(next) => Some(*next - 1),
    }
}

/// Lets the place stand at the pair, if there is room.
fn note_dense(places: &mut [usize], pair: Pair, place: usize)
    ensures { NotesOne (noted_in places.old) (noted_in places.new) pair place }
{
    if pair.left < 64 && pair.right < 64 {
        let number = 64 * pair.left + pair.right;
        if number < places.len() {
            places[number] = place.wrapping_add(1);
        }
    }
}

/// Lets the place be found by the pair.
fn note_sparse(map: &mut IndexMap<Pair, usize>, pair: Pair, place: usize) -> Result<(), AllocError>
    ensures { OnOk result (Updates same_pair map.old map.new pair (Some place)) }
{
    map.insert(pair, place)?;
    Ok(())
}

/// Where the function of a pair is, if that is noted.
pub fn recall(memo: &Memo, pair: Pair) -> Option<usize>
    ensures { result ≡ noted_at memo.now pair }
{
    match memo {
        Memo::Nothing => None,
        Memo::Dense(places) => dense_at(places.as_slice(), pair),
        Memo::Sparse(map) => map.get(&pair).copied(),
    }
}

/// Notes where the function of a pair is, or nothing.
pub fn note(memo: &mut Memo, pair: Pair, place: usize) -> Result<(), AllocError>
    ensures { OnOk result (NotesOne (noted_at memo.old) (noted_at memo.new) pair place) }
{
    match memo {
        Memo::Nothing => Ok(()),
        Memo::Dense(places) => {
            note_dense(places.as_mut_slice(), pair, place);
            Ok(())
        }
        Memo::Sparse(map) => note_sparse(map, pair, place),
    }
}
