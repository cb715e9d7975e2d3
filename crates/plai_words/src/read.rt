// The settings of the command line.
ghost use Rattle.std.specs.Prelude.{◌≡◌, ◌≤◌, [], ◌≢◌, None, Some, IfSome, IfOk, IfErr, MatchResult, IsErrOf, option_map, option_to_list, unwrap_or};
ghost use Rattle.clap.specs.Words.{all_of, found_of, rows_of};
ghost use Rattle.plai_words.specs.Command.{completed, settings_of, texts};
ghost use Rattle.plai_words.specs.Given.{domain_named};
ghost use Rattle.plai_words.specs.Numbers.{number};
ghost use Rattle.plai_words.specs.Line.{files_id};
ghost use Rattle.plai_words.specs.Taken.{noted, read_once, settings_in};

use crate::bundle::has_bundle;
use crate::command::{DEPTH, DOMAIN, FILES, MAKE, ROWS, command};
use crate::domain::domain_named;
use crate::fail::WordsFail;
use crate::files::{Files, copied};
use crate::number::number;
use crate::types::{DomainName, Settings};
use clap::ArgMatches;
use clap::error::ErrorKind;
use plai_base::Text;
use std::alloc::Global;

/// The greatest depth.
const MAX_DEPTH: u32 = 8;

/// The most rows that can be asked for.
const MAX_ROWS: u32 = 200_000;

/// The greatest length of a program that is made.
const MAX_MADE: u32 = 2000;

/// The domain that a text names, where there is a text.
fn domain_given(text: Option<&str>) -> Result<Option<DomainName>, WordsFail>
    ensures { MatchResult result
        (λ d. read_once domain_named (option_map (λ s. s.now) text.entry) ≡ Some (option_to_list d))
        (λ e. (e ≡ WordsFail.Refused) × (read_once domain_named (option_map (λ s. s.now) text.entry) ≡ None)) }
{
    let Some(text) = text else {
        return Ok(None);
    };
    match domain_named(text.as_bytes()) {
        Some(domain) => Ok(Some(domain)),
        None => Err(WordsFail::Refused),
    }
}

/// The number that a text writes, where there is a text.
fn number_given(most: u32, text: Option<&str>) -> Result<Option<u32>, WordsFail>
    ensures read { MatchResult result
        (λ n. read_once (number most) (option_map (λ s. s.now) text.entry) ≡ Some (option_to_list n))
        (λ e. (e ≡ WordsFail.Refused) × (read_once (number most) (option_map (λ s. s.now) text.entry) ≡ None)) }
    ensures within { IfOk result (λ given. IfSome given (λ n. (1 ≤ n) × (n ≤ most))) }
{
    let Some(text) = text else {
        return Ok(None);
    };
    match number(most, text.as_bytes()) {
        Some(value) => Ok(Some(value)),
        None => Err(WordsFail::Refused),
    }
}

/// Copies of words.
fn copies(alloc: Global, words: &[&str]) -> Result<Vec<Text>, WordsFail>
    ensures ok { IfOk result (λ v. v.items ≡ texts words.now) }
    ensures memory { IfErr result (λ e. e ≡ WordsFail.Memory) }
{
    let mut names = Vec::new(alloc);
    for word in words {
        names.push(copied(alloc, word)?)?;
    }
    Ok(names)
}

/// Copies of the files.
fn files_given(alloc: Global, matches: &ArgMatches) -> Result<Vec<Text>, WordsFail>
    ensures ok { IfOk result (λ v. v.items ≡ unwrap_or (all_of files_id (rows_of (found_of matches.now))) []) }
    ensures memory { IfErr result (λ e. e ≡ WordsFail.Memory) }
{
    match matches.get_strs(FILES) {
        Some(words) => copies(alloc, words),
        None => Ok(Vec::new(alloc)),
    }
}

/// The settings, with what holds where an option doesn't stand.
fn complete(
    domain: Option<DomainName>,
    depth: Option<u32>,
    rows: Option<u32>,
    make: Option<u32>,
    files: Vec<Text>,
) -> Result<Settings, WordsFail>
    requires depth { IfSome depth (λ n. (1 ≤ n) × (n ≤ 8)) }
    requires make { IfSome make (λ n. (1 ≤ n) × (n ≤ 2000)) }
    ensures settings { MatchResult result
        (λ s. completed (noted domain depth rows make files.items) ≡ Some s)
        (λ e. (e ≡ WordsFail.Refused) × (completed (noted domain depth rows make files.items) ≡ None)) }
    ensures depth { IfOk result (λ s. (1 ≤ s.depth) × (s.depth ≤ 8)) }
    ensures make { IfOk result (λ s. IfSome s.make (λ n. (1 ≤ n) × (n ≤ 2000))) }
{
    if make.is_some() != files.as_slice().is_empty() {
        return Err(WordsFail::Refused);
    }
    Ok(Settings {
        domain: domain.unwrap_or(DomainName::Ground),
        depth: depth.unwrap_or(3),
        rows: u64::from(rows.unwrap_or(20_000)),
        make,
        files: Files::new(files),
    })
}

/// The settings that what clap found comes to.
fn settings_from(alloc: Global, matches: &ArgMatches) -> Result<Settings, WordsFail>
    ensures ok { IfOk result (λ s. settings_in (rows_of (found_of matches.now)) ≡ Some s) }
    ensures refused { IsErrOf result WordsFail.Refused → settings_in (rows_of (found_of matches.now)) ≡ None }
    ensures depth { IfOk result (λ s. (1 ≤ s.depth) × (s.depth ≤ 8)) }
    ensures make { IfOk result (λ s. IfSome s.make (λ n. (1 ≤ n) × (n ≤ 2000))) }
{
    let domain = domain_given(matches.get_str(DOMAIN))?;
    let depth = number_given(MAX_DEPTH, matches.get_str(DEPTH))?;
    let rows = number_given(MAX_ROWS, matches.get_str(ROWS))?;
    let make = number_given(MAX_MADE, matches.get_str(MAKE))?;
    let files = files_given(alloc, matches)?;
    complete(domain, depth, rows, make, files)
}

/// Why clap's refusal gives no settings.
fn refusal(kind: ErrorKind) -> WordsFail
    ensures memory { kind ≡ ErrorKind.OutOfMemory → result ≡ WordsFail.Memory }
    ensures refused { kind ≢ ErrorKind.OutOfMemory → result ≡ WordsFail.Refused }
{
    match kind {
        ErrorKind::OutOfMemory => WordsFail::Memory,
        _ => WordsFail::Refused,
    }
}

/// The settings that the words of a command line come to, without the program's name.
///
/// Before the first `--` each of `--domain ground|share|depth`, `--depth` (1 to 8), `--rows` (1 to 200000)
/// and `--make` (1 to 2000) stands at most once, as `--x V` or `--x=V`, in any order, before or after files;
/// `V` in a word of its own doesn't begin with `-`. Another word that begins with `-` and is longer is
/// refused, and every other word is a file, as is every word behind the first `--`. A number is one to six
/// decimal digits without a sign. Either a file stands and no `--make`, or `--make` and no file
/// (POSIX.1-2017, Base Definitions, 12.2; GNU Coding Standards, 4.8).
///
/// # Errors
///
/// `Refused` exactly where the words form no command; `Memory` where memory is wanting.
pub fn settings(alloc: Global, words: &[&str]) -> Result<Settings, WordsFail>
    ensures ok { IfOk result (λ s. settings_of (texts words.now) ≡ Some s) }
    ensures refused { IsErrOf result WordsFail.Refused → settings_of (texts words.now) ≡ None }
    ensures depth { IfOk result (λ s. (1 ≤ s.depth) × (s.depth ≤ 8)) }
    ensures make { IfOk result (λ s. IfSome s.make (λ n. (1 ≤ n) × (n ≤ 2000))) }
{
    if has_bundle(words) {
        return Err(WordsFail::Refused);
    }
    let command = command(alloc)?;
    match command.try_get_matches_from(words) {
        Ok(matches) => settings_from(alloc, &matches),
        Err(error) => Err(refusal(error.kind())),
    }
}
