//! Calls of rows, kept at both ends.
ghost use Rattle.std.specs.Prelude.{◌≡◌, ◌≤◌, ◌<◌, ◌+◌, ◌&&◌, ℕ, Bool, cond, nat_eq, true, IfSome, IfNone, [], ◌∷◌, ◌++◌, length};
ghost use Rattle.std.specs.List.{list_any, count_by};
ghost use Rattle.plai_arcs.specs.Links.{AreLinked, calls_at, callers_at, call_count, caller_count, call_room, caller_room, one_if, HasCallRoom, last_is};
ghost use Rattle.plai_arcs.specs.Moves.{was, of_row};

use crate::callers::{self, Callers};
use crate::change::Change;
use crate::finds::is_same_pair;
use crate::renames::renumber;
use crate::row_calls::{self, RowCalls};

/// A call of a row by a clause of a row, its index among the calls of that clause and its place among the callers.
#[derive(Clone, Copy)]
struct Arc {
    row: u64,
    clause: u64,
    called: u64,
    index: u64,
    place: u64,
}

/// The last call of a clause of a row.
fn last_call(calls: &[RowCalls], row: u64, clause: u64) -> Option<Arc>
    ensures none { IfNone result (calls_at calls.now row clause ≡ []) }
    ensures pair { IfSome result (λ arc. (arc.row ≡ row) × (arc.clause ≡ clause)) }
    ensures there { IfSome result (λ arc. 0 < call_count calls.now row clause arc.called) }
{
    let rows = row_calls::list(calls, row, clause);
    if rows.is_empty() {
        return None;
    }
    let index = rows.len() as u64 - 1;
    Some(Arc {
        row,
        clause,
        called: rows[index as usize],
        index,
        place: row_calls::place(calls, row, clause, index),
    })
}

/// The last call of a row.
fn last_caller(callers: &[Callers], row: u64) -> Option<Arc>
    ensures none { IfNone result (callers_at callers.now row ≡ []) }
    ensures row { IfSome result (λ arc. arc.called ≡ row) }
    ensures there { IfSome result (λ arc. 0 < caller_count callers.now row arc.row arc.clause) }
{
    let pairs = callers::list(callers, row);
    if pairs.is_empty() {
        return None;
    }
    let place = pairs.len() as u64 - 1;
    let pair = pairs[place as usize];
    Some(Arc {
        row: pair.0,
        clause: pair.1,
        called: row,
        index: callers::index(callers, row, place),
        place,
    })
}

/// The caller that stands at a place knows its place.
fn tell_place(calls: &mut [RowCalls], callers: &[Callers], called: u64, place: u64)
    ensures items { (r c : ℕ) → calls_at calls.new r c ≡ calls_at calls.old r c }
    ensures room { (r c : ℕ) → call_room calls.old r c ≤ call_room calls.new r c }
{
    let pairs = callers::list(callers, called);
    if place < pairs.len() as u64 {
        let pair = pairs[place as usize];
        let index = callers::index(callers, called, place);
        row_calls::change(calls, pair.0, pair.1, Change::Mark(index, place));
    }
}

/// The call that stands at an index knows its index.
fn tell_index(callers: &mut [Callers], calls: &[RowCalls], row: u64, clause: u64, index: u64)
    ensures items { (q : ℕ) → callers_at callers.new q ≡ callers_at callers.old q }
    ensures room { (q : ℕ) → caller_room callers.old q ≤ caller_room callers.new q }
{
    let rows = row_calls::list(calls, row, clause);
    if index < rows.len() as u64 {
        let place = row_calls::place(calls, row, clause, index);
        callers::change(callers, rows[index as usize], Change::Mark(place, index));
    }
}

/// Takes a call away from the calls of its clause.
fn cut_call(calls: &mut [RowCalls], callers: &mut [Callers], arc: Arc)
    requires { 0 < call_count calls.old arc.row arc.clause arc.called }
    ensures calls { (r c : ℕ) (t : ℕ → Bool) → count_by t (calls_at calls.new r c) + one_if ((nat_eq r arc.row && nat_eq c arc.clause) && t arc.called) ≡ count_by t (calls_at calls.old r c) }
    ensures callers { (q : ℕ) → callers_at callers.new q ≡ callers_at callers.old q }
    ensures call_room { (r c : ℕ) → call_room calls.old r c ≤ call_room calls.new r c }
    ensures caller_room { (q : ℕ) → caller_room callers.old q ≤ caller_room callers.new q }
{
    let index = row_calls::change(
        calls,
        arc.row,
        arc.clause,
        Change::Take(arc.called, arc.index),
    );
    tell_index(callers, calls, arc.row, arc.clause, index);
}

/// Takes a call away from the callers of its row.
fn cut_caller(calls: &mut [RowCalls], callers: &mut [Callers], arc: Arc)
    requires { 0 < caller_count callers.old arc.called arc.row arc.clause }
    ensures callers { (q : ℕ) (t : ℕ × ℕ → Bool) → count_by t (callers_at callers.new q) + one_if (nat_eq q arc.called && t (arc.row, arc.clause)) ≡ count_by t (callers_at callers.old q) }
    ensures calls { (r c : ℕ) → calls_at calls.new r c ≡ calls_at calls.old r c }
    ensures call_room { (r c : ℕ) → call_room calls.old r c ≤ call_room calls.new r c }
    ensures caller_room { (q : ℕ) → caller_room callers.old q ≤ caller_room callers.new q }
{
    let pair = (arc.row, arc.clause);
    let place = callers::change(callers, arc.called, Change::Take(pair, arc.place));
    tell_place(calls, callers, arc.called, place);
}

/// Takes a call away.
fn cut(calls: &mut [RowCalls], callers: &mut [Callers], arc: Arc)
    requires linked { AreLinked calls.old callers.old }
    requires there { 0 < call_count calls.old arc.row arc.clause arc.called }
    ensures linked { AreLinked calls.new callers.new }
    ensures calls { (r c : ℕ) (t : ℕ → Bool) → count_by t (calls_at calls.new r c) + one_if ((nat_eq r arc.row && nat_eq c arc.clause) && t arc.called) ≡ count_by t (calls_at calls.old r c) }
    ensures callers { (q : ℕ) (t : ℕ × ℕ → Bool) → count_by t (callers_at callers.new q) + one_if (nat_eq q arc.called && t (arc.row, arc.clause)) ≡ count_by t (callers_at callers.old q) }
    ensures call_room { (r c : ℕ) → call_room calls.old r c ≤ call_room calls.new r c }
    ensures caller_room { (q : ℕ) → caller_room callers.old q ≤ caller_room callers.new q }
{
    cut_call(calls, callers, arc);
    cut_caller(calls, callers, arc);
}

/// Takes away all calls of a clause of a row.
fn cut_calls(calls: &mut [RowCalls], callers: &mut [Callers], row: u64, clause: u64)
    requires { AreLinked calls.old callers.old }
    ensures linked { AreLinked calls.new callers.new }
    ensures calls { (r c q : ℕ) → call_count calls.new r c q ≡ cond (nat_eq r row && nat_eq c clause) 0 (call_count calls.old r c q) }
    ensures call_room { (r c : ℕ) → call_room calls.old r c ≤ call_room calls.new r c }
    ensures caller_room { (q : ℕ) → caller_room callers.old q ≤ caller_room callers.new q }
{
    'each: while let Some(arc) = last_call(calls, row, clause) {
        cut(calls, callers, arc);
    }
}

/// Takes away all calls of a row.
fn cut_callers(calls: &mut [RowCalls], callers: &mut [Callers], row: u64)
    requires { AreLinked calls.old callers.old }
    ensures linked { AreLinked calls.new callers.new }
    ensures calls { (r c q : ℕ) → call_count calls.new r c q ≡ cond (nat_eq q row) 0 (call_count calls.old r c q) }
{
    'each: while let Some(arc) = last_caller(callers, row) {
        cut(calls, callers, arc);
    }
}

/// Takes away all calls by a row.
fn cut_clauses(calls: &mut [RowCalls], callers: &mut [Callers], row: u64)
    requires { AreLinked calls.old callers.old }
    ensures linked { AreLinked calls.new callers.new }
    ensures calls { (r c q : ℕ) → call_count calls.new r c q ≡ cond (nat_eq r row) 0 (call_count calls.old r c q) }
{
    let count = row_calls::clause_count(calls, row);
    'clauses: for clause in 0..count {
        cut_calls(calls, callers, row, clause);
    }
}

/// Takes away all calls by a row and of it.
fn cut_row(calls: &mut [RowCalls], callers: &mut [Callers], row: u64)
    requires { AreLinked calls.old callers.old }
    ensures linked { AreLinked calls.new callers.new }
    ensures calls { (r c q : ℕ) → call_count calls.new r c q ≡ cond (nat_eq r row) 0 (cond (nat_eq q row) 0 (call_count calls.old r c q)) }
{
    cut_callers(calls, callers, row);
    cut_clauses(calls, callers, row);
}

/// Whether the last caller of a row is this pair.
fn is_last_caller(callers: &[Callers], called: u64, row: u64, clause: u64) -> bool
    ensures { result ≡ last_is row clause (callers_at callers.now called) }
{
    let pairs = callers::list(callers, called);
    if pairs.is_empty() {
        return false;
    }
    is_same_pair((row, clause), pairs[pairs.len() - 1])
}

/// Adds a call that isn't there.
fn link(calls: &mut [RowCalls], callers: &mut [Callers], row: u64, clause: u64, called: u64)
    requires call_room { 1 < call_room calls.old row clause }
    requires caller_room { 0 < caller_room callers.old called }
    ensures calls { (r c : ℕ) → calls_at calls.new r c ≡ cond (nat_eq r row && nat_eq c clause) (calls_at calls.old r c ++ called ∷ []) (calls_at calls.old r c) }
    ensures callers { (q : ℕ) → callers_at callers.new q ≡ cond (nat_eq q called) (callers_at callers.old q ++ (row, clause) ∷ []) (callers_at callers.old q) }
    ensures call_room { call_room calls.old row clause ≤ call_room calls.new row clause + 1 }
    ensures caller_room { (q : ℕ) → caller_room callers.old q ≤ caller_room callers.new q + one_if (nat_eq q called) }
{
    let index = row_calls::list(calls, row, clause).len() as u64;
    let place = callers::list(callers, called).len() as u64;
    row_calls::change(calls, row, clause, Change::Push(called, place));
    callers::change(callers, called, Change::Push((row, clause), index));
}

/// Gives a clause of a row that calls none these calls.
fn link_all(calls: &mut [RowCalls], callers: &mut [Callers], row: u64, clause: u64, called: &[u64])
    requires linked { AreLinked calls.old callers.old }
    requires none { (q : ℕ) → call_count calls.old row clause q ≡ 0 }
    requires call_room { HasCallRoom calls.old row clause (length called.now) }
    requires caller_room { (q : ℕ) → list_any (nat_eq q) called.now ≡ true → 0 < caller_room callers.old q }
    ensures linked { AreLinked calls.new callers.new }
    ensures calls { (r c q : ℕ) → call_count calls.new r c q ≡ cond (nat_eq r row && nat_eq c clause) (one_if (list_any (nat_eq q) called.now)) (call_count calls.old r c q) }
{
    'each: for other in called {
        if is_last_caller(callers, *other, row, clause) {
            continue;
        }
        link(calls, callers, row, clause, *other);
    }
}

/// Makes the rows that the clause of the row calls exactly these.
pub(crate) fn set(
    calls: &mut [RowCalls],
    callers: &mut [Callers],
    row: u64,
    clause: u64,
    called: &[u64],
)
    requires linked { AreLinked calls.old callers.old }
    requires call_room { HasCallRoom calls.old row clause (length called.now) }
    requires caller_room { (q : ℕ) → list_any (nat_eq q) called.now ≡ true → 0 < caller_room callers.old q }
    ensures linked { AreLinked calls.new callers.new }
    ensures calls { (r c q : ℕ) → list_any (nat_eq q) (calls_at calls.new r c) ≡ cond (nat_eq r row && nat_eq c clause) (list_any (nat_eq q) called.now) (list_any (nat_eq q) (calls_at calls.old r c)) }
{
    cut_calls(calls, callers, row, clause);
    link_all(calls, callers, row, clause, called);
}

/// Takes away each call that names the row. Then the row that is moved has its number.
pub(crate) fn drop_row(
    calls: &mut [RowCalls],
    callers: &mut [Callers],
    row: u64,
    moved: Option<u64>,
)
    requires linked { AreLinked calls.old callers.old }
    requires less { IfSome moved (λ last. row < last) }
    ensures linked { AreLinked calls.new callers.new }
    ensures calls { (r c q : ℕ) → list_any (nat_eq q) (calls_at calls.new r c) ≡ of_row (was row moved r) (λ b. of_row (was row moved q) (λ d. list_any (nat_eq d) (calls_at calls.old b c))) }
{
    cut_row(calls, callers, row);
    if let Some(last) = moved {
        renumber(calls, callers, last, row);
    }
}
