/// How each answer of a session is written.
#[derive(Clone, Copy, Debug)]
pub enum Form {
    /// As a block of lines: the rows of the table, why an edit is refused, or a limit.
    Tables,
    /// As one line, which counts the rows of the table: so the blocks of a made program are written.
    Counts,
}
