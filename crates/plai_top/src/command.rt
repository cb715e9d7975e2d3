// The command that the words form.
ghost use Rattle.std.specs.Prelude.{◌≡◌, ◌≤◌, ◌⊎◌, ℕ, List, true, Some, IfSome, IfOk, IfErr};
ghost use Rattle.plai_words.specs.Command.{settings_of, texts};
ghost use Rattle.plai_top.specs.Commands.{is_over_files, IsCommandOf, IsFitCommand};
ghost use Rattle.plai_top.specs.Outcome.{IsByWords, silent};
ghost use Rattle.plai_top.specs.Stops.{status_of};

use crate::stop::Stop;
use plai_words::{Settings, WordsFail, settings};
use std::alloc::Global;

/// The most files of a command.
const MAX_FILES: usize = 64;

/// What the words ask for.
#[derive(Debug, Drop)]
pub enum Command {
    /// An analysis of files.
    Files(Settings),
    /// An analysis of a made program of so many predicates.
    Make(Settings, u32),
}

/// The command over files of settings: one over 64 files at most.
fn over_files(settings: Settings) -> Result<Command, Stop>
    requires over { is_over_files settings ≡ true }
    requires depth { (1 ≤ settings.depth) × (settings.depth ≤ 8) }
    ensures command { (words : List (List ℕ)) → settings_of words ≡ Some settings → IfOk result (IsCommandOf words) }
    ensures fit { IfOk result IsFitCommand }
    ensures stop { (words : List (List ℕ)) → settings_of words ≡ Some settings → IfErr result (λ stop. IsByWords words (silent (status_of stop))) }
{
    if settings.files.as_slice().len() > MAX_FILES {
        return Err(Stop::TooLarge);
    }
    Ok(Command::Files(settings))
}

/// The command of settings.
fn command_by(settings: Settings) -> Result<Command, Stop>
    requires depth { (1 ≤ settings.depth) × (settings.depth ≤ 8) }
    requires make { IfSome settings.make (λ n. (1 ≤ n) × (n ≤ 2000)) }
    ensures command { (words : List (List ℕ)) → settings_of words ≡ Some settings → IfOk result (IsCommandOf words) }
    ensures fit { IfOk result IsFitCommand }
    ensures stop { (words : List (List ℕ)) → settings_of words ≡ Some settings → IfErr result (λ stop. IsByWords words (silent (status_of stop))) }
{
    match settings.make {
        Some(count) => Ok(Command::Make(settings, count)),
        None => over_files(settings),
    }
}

/// The command that the words form.
pub fn command_of(alloc: Global, words: &[&str]) -> Result<Command, Stop>
    ensures command { IfOk result (IsCommandOf (texts words.now)) }
    ensures fit { IfOk result IsFitCommand }
    ensures stop { IfErr result (λ stop. (stop ≡ Stop.Memory) ⊎ IsByWords (texts words.now) (silent (status_of stop))) }
{
    match settings(alloc, words) {
        Ok(settings) => command_by(settings),
        Err(WordsFail::Refused) => Err(Stop::NoCommand),
        Err(WordsFail::Memory) => Err(Stop::Memory),
    }
}
