ghost use Rattle.std.specs.Prelude.{◌≡◌};
ghost use Rattle.plai_bdd.specs.Change.{absorbs, answer_of, can_place, placed};

/// A connective of two answers.
#[derive(Clone, Copy, Debug)]
pub enum Connective {
    And,
    Or,
    Iff,
}

impl Connective {
    /// What it makes of two answers.
    pub fn answer(self, left: bool, right: bool) -> bool
        ensures { result ≡ answer_of self left right }
    {
        match self {
            Connective::And => left && right,
            Connective::Or => left || right,
            Connective::Iff => left == right,
        }
    }

    /// Whether this answer on one side decides what it makes of the two, whatever the other is.
    pub fn absorbs(self, answer: bool) -> bool
        ensures { result ≡ absorbs self answer }
    {
        match self {
            Connective::And => !answer,
            Connective::Or => answer,
            Connective::Iff => false,
        }
    }
}

/// What becomes of the slots. The slot of `Apart` is false in the left function and true in the right one.
#[derive(Clone, Copy, Debug)]
pub enum Change {
    Keep,
    Fix { slot: u32, answer: bool },
    Apart(u32),
    Raise(u32),
    Lower(u32),
}

/// Where a slot comes to stand, or with which answer it goes: one for both functions, or false for the left and true for the right.
#[derive(Clone, Copy, Debug)]
pub enum Placed {
    At(u32),
    Fixed(bool),
    Parted,
}

impl Change {
    /// Where the slot comes to stand.
    pub fn place(self, slot: u32) -> Placed
        requires { can_place self slot }
        ensures { result ≡ placed self slot }
    {
        match self {
            Change::Keep => Placed::At(slot),
            Change::Fix {
                slot: fixed,
                answer,
            } => {
                if slot == fixed {
                    Placed::Fixed(answer)
                } else {
                    Placed::At(slot)
                }
            }
            Change::Apart(parted) => {
                if slot == parted {
                    Placed::Parted
                } else {
                    Placed::At(slot)
                }
            }
            Change::Raise(by) => Placed::At(slot + by),
            Change::Lower(by) => Placed::At(slot - by),
        }
    }
}
