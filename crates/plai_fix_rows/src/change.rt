ghost use Rattle.std.specs.Prelude.{◌≡◌};
ghost use Rattle.plai_fix_rows.specs.Moves.{both_of, change_of, growth_of};

/// What a part of the work changes.
#[derive(Clone, Copy, Debug, PartialEq, Eq)]
pub enum Change {
    /// No row and no answer.
    Nothing,
    /// Answers of rows that had one, and nothing else.
    Grown,
    /// Live rows come, or first answers of rows.
    Opened,
}

impl Change {
    /// What it changes that live rows came, or that none did.
    pub fn of_rows(added: bool) -> Change
        ensures { result ≡ change_of added }
    {
        if added {
            Change::Opened
        } else {
            Change::Nothing
        }
    }

    /// What a growth changes, which is a row's first answer or a later one.
    pub fn of_growth(first: bool) -> Change
        ensures { result ≡ growth_of first }
    {
        if first { Change::Opened } else { Change::Grown }
    }

    /// What this and a later part change together.
    pub fn and(self, later: Change) -> Change
        ensures { result ≡ both_of self later }
    {
        match (self, later) {
            (Change::Opened, _) | (_, Change::Opened) => Change::Opened,
            (Change::Grown, _) | (_, Change::Grown) => Change::Grown,
            (Change::Nothing, Change::Nothing) => Change::Nothing,
        }
    }
}
