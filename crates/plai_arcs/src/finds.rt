//! Where an item stands in a list.
ghost use Rattle.std.specs.Prelude.{◌≡◌, ℕ, ◌<◌, nat_eq, true, false};
ghost use Rattle.std.specs.List.{count_by};
ghost use Rattle.plai_arcs.specs.Links.{is_pair};
ghost use Rattle.plai_arcs.specs.Places.{at};

/// Whether the row stands at the place.
fn is_row_at(rows: &[u64], row: u64, place: u64) -> bool
    ensures { result ≡ at (nat_eq row) false rows.now place }
{
    if place < rows.len() as u64 {
        row == rows[place as usize]
    } else {
        false
    }
}

/// The place of a row that stands in the list. The one that is guessed is looked at first.
pub(crate) fn place_of_row(rows: &[u64], row: u64, guess: u64) -> u64
    requires { 0 < count_by (nat_eq row) rows.now }
    ensures { at (nat_eq row) false rows.now result ≡ true }
{
    if is_row_at(rows, row, guess) {
        return guess;
    }
    let mut place = 0;
    'find: while !is_row_at(rows, row, place) {
        place += 1;
    }
    place
}

/// Whether two pairs of a row and a clause are the same.
pub(crate) fn is_same_pair(pair: (u64, u64), other: (u64, u64)) -> bool
    ensures { result ≡ is_pair pair.0 pair.1 other }
{
    pair.0 == other.0 && pair.1 == other.1
}

/// Whether the pair of a row and a clause stands at the place.
fn is_pair_at(pairs: &[(u64, u64)], pair: (u64, u64), place: u64) -> bool
    ensures { result ≡ at (is_pair pair.0 pair.1) false pairs.now place }
{
    if place < pairs.len() as u64 {
        is_same_pair(pair, pairs[place as usize])
    } else {
        false
    }
}

/// The place of a pair that stands in the list. The one that is guessed is looked at first.
pub(crate) fn place_of_pair(pairs: &[(u64, u64)], pair: (u64, u64), guess: u64) -> u64
    requires { 0 < count_by (is_pair pair.0 pair.1) pairs.now }
    ensures { at (is_pair pair.0 pair.1) false pairs.now result ≡ true }
{
    if is_pair_at(pairs, pair, guess) {
        return guess;
    }
    let mut place = 0;
    'find: while !is_pair_at(pairs, pair, place) {
        place += 1;
    }
    place
}
