//! A row's number changes in the calls and among the callers.
ghost use Rattle.std.specs.Prelude.{◌≡◌, ◌<◌, ◌+◌, ◌&&◌, ℕ, cond, nat_eq};
ghost use Rattle.plai_arcs.specs.Links.{AreLinked, call_count, caller_count};
ghost use Rattle.plai_arcs.specs.Moves.{swapped};

use crate::callers::{self, Callers};
use crate::change::Change;
use crate::row_calls::{self, RowCalls};

/// In the calls of all that call a row, another number stands for it.
fn rename_calls(calls: &mut [RowCalls], callers: &[Callers], last: u64, row: u64)
    requires { (r c : ℕ) → call_count calls.old r c last ≡ caller_count callers.now last r c }
    ensures { (r c q : ℕ) → call_count calls.new r c q + cond (nat_eq q last) (call_count calls.old r c last) 0 ≡ call_count calls.old r c q + cond (nat_eq q row) (call_count calls.old r c last) 0 }
{
    let pairs = callers::list(callers, last);
    let mut place = 0;
    'each: while place < pairs.len() as u64 {
        let pair = pairs[place as usize];
        let index = callers::index(callers, last, place);
        row_calls::change(calls, pair.0, pair.1, Change::Rename(last, row, index));
        place += 1;
    }
}

/// Among the callers of all that a clause of a row calls, the row stands for another.
fn rename_clause_callers(
    callers: &mut [Callers],
    calls: &[RowCalls],
    row: u64,
    clause: u64,
    last: u64,
)
    requires { (q : ℕ) → caller_count callers.old q last clause ≡ call_count calls.now row clause q }
    ensures { (q r c : ℕ) → caller_count callers.new q r c + cond (nat_eq r last && nat_eq c clause) (call_count calls.now row clause q) 0
        ≡ caller_count callers.old q r c + cond (nat_eq r row && nat_eq c clause) (call_count calls.now row clause q) 0 }
{
    let rows = row_calls::list(calls, row, clause);
    let mut index = 0;
    'each: while index < rows.len() as u64 {
        let place = row_calls::place(calls, row, clause, index);
        let change = Change::Rename((last, clause), (row, clause), place);
        callers::change(callers, rows[index as usize], change);
        index += 1;
    }
}

/// Among the callers of all that a row calls, the row stands for another.
fn rename_callers(callers: &mut [Callers], calls: &[RowCalls], row: u64, last: u64)
    requires { (q c : ℕ) → caller_count callers.old q last c ≡ call_count calls.now row c q }
    ensures { (q r c : ℕ) → caller_count callers.new q r c + cond (nat_eq r last) (call_count calls.now row c q) 0
        ≡ caller_count callers.old q r c + cond (nat_eq r row) (call_count calls.now row c q) 0 }
{
    let count = row_calls::clause_count(calls, row);
    'clauses: for clause in 0..count {
        rename_clause_callers(callers, calls, row, clause, last);
    }
}

/// Gives a row the number of one that calls none and that none calls.
pub(crate) fn renumber(calls: &mut [RowCalls], callers: &mut [Callers], last: u64, row: u64)
    requires less { row < last }
    requires linked { AreLinked calls.old callers.old }
    requires by_none { (c q : ℕ) → call_count calls.old row c q ≡ 0 }
    requires of_none { (r c : ℕ) → call_count calls.old r c row ≡ 0 }
    ensures linked { AreLinked calls.new callers.new }
    ensures calls { (r c q : ℕ) → call_count calls.new r c q ≡ call_count calls.old (swapped row last r) c (swapped row last q) }
{
    rename_calls(calls, callers, last, row);
    row_calls::swap(calls, row, last);
    callers::swap(callers, row, last);
    rename_callers(callers, calls, row, last);
}
