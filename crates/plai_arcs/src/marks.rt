//! Lists of marks.
ghost use Rattle.std.specs.Prelude.{◌≡◌, ℕ, ◌<◌, ◌≤◌, length, true, false};
ghost use Rattle.plai_arcs.specs.Flags.{flag_at};

/// The least marked number from this one on, below which none is marked; a number past the end where none is marked.
pub(crate) fn first_marked(flags: &[bool], from: u64) -> u64
    requires { (k : ℕ) → k < from → flag_at flags.now k ≡ false }
    ensures below { (k : ℕ) → k < result → flag_at flags.now k ≡ false }
    ensures marked { result < length flags.now → flag_at flags.now result ≡ true }
{
    let mut number = from;
    while number < flags.len() as u64 {
        if flags[number as usize] {
            return number;
        }
        number += 1;
    }
    number
}
