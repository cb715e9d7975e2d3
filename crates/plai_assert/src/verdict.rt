/// What a table says of an assertion. Each is a fact of all runs, but the last.
#[derive(Clone, Copy, Debug, PartialEq, Eq)]
pub enum Verdict {
    /// The assertion holds of each call or answer of which it speaks.
    Checked,
    /// It fails of each of them.
    False,
    /// Neither is known.
    Check,
}
