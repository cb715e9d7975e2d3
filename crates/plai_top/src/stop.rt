// Why a call ends before it has an output.
ghost use Rattle.std.specs.Prelude.{◌≡◌};
ghost use Rattle.plai_top.specs.Stops.{status_of};

/// Why a call ends before it has an output, or before its output is written.
#[derive(Clone, Copy, Debug, PartialEq, Eq)]
pub enum Stop {
    /// The words form no command.
    NoCommand,
    /// There are too many files, or a file has too many bytes.
    TooLarge,
    /// The library or the script failed.
    ReadFault,
    /// The sink failed.
    WriteFault,
    /// Memory is wanting.
    Memory,
}

impl Stop {
    /// The status that the call ends with.
    pub fn status(self) -> u8
        ensures { result ≡ status_of self }
    {
        match self {
            Stop::NoCommand => 2,
            Stop::TooLarge => 4,
            Stop::ReadFault => 5,
            Stop::WriteFault => 6,
            Stop::Memory => 7,
        }
    }
}
