// The command line as clap is to read it.
ghost use Rattle.std.specs.Prelude.{◌≡◌, false, IfOk};
ghost use Rattle.clap.specs.Words.{app_of, rule_of};
ghost use Rattle.plai_words.specs.Line.{files_rule, line, option_rule};

use clap::{Arg, ArgAction, Command};
use std::alloc::{AllocError, Global};

/// The program.
const NAME: &str = "plai";

/// The option that names the domain.
pub const DOMAIN: &str = "domain";

/// The option that gives the depth.
pub const DEPTH: &str = "depth";

/// The option that gives the most rows.
pub const ROWS: &str = "rows";

/// The option that gives the length of the program to be made.
pub const MAKE: &str = "make";

/// The files, among what clap finds.
pub const FILES: &str = "files";

/// An option of this name, with one value, used at most once.
fn option<'a>(alloc: Global, name: &'a str) -> Arg<'a>
    ensures rule { rule_of result ≡ option_rule name.entry.now }
    ensures local { result.global ≡ false }
{
    Arg::new(alloc, name).long(name)
}

/// The files, of which any number stands.
fn files<'a>(alloc: Global) -> Arg<'a>
    ensures rule { rule_of result ≡ files_rule }
    ensures local { result.global ≡ false }
{
    Arg::new(alloc, FILES).action(ArgAction::Append)
}

/// The command line, whose words stand without the program's name: the four options and the files.
pub fn command<'a>(alloc: Global) -> Result<Command<'a>, AllocError>
    ensures { IfOk result (λ c. app_of c ≡ line) }
{
    Command::new(alloc, NAME)
        .no_binary_name(true)
        .disable_help_flag(true)
        .arg(option(alloc, DOMAIN))?
        .arg(option(alloc, DEPTH))?
        .arg(option(alloc, ROWS))?
        .arg(option(alloc, MAKE))?
        .arg(files(alloc))
}
