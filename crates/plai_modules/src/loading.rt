//! Loading.
ghost use Rattle.std.specs.Prelude.{◌≡◌, ◌<◌, ◌≤◌, ◌^◌, All, IfOk, length, map};
ghost use Rattle.plai_clauses.specs.Program.{items_of};
ghost use Rattle.plai_clauses.specs.WellFormed.{IsWellFormed};
ghost use Rattle.plai_sources.specs.WellFormed.{AreWellFormedItems};
ghost use Rattle.plai_modules.specs.Loading.{files_from, counted_in, loaded};
ghost use Rattle.plai_modules.specs.Outcomes.{Answers};

use crate::fail::{LoadFail, fail_in};
use crate::link::program_of;
use crate::named_text::NamedText;
use plai_clauses::Program;
use plai_sources::{FileItems, read_items};
use plai_terms::Listed;
use std::alloc::Global;

/// What the files say, each by itself: `Refused` exactly where the first pass refuses a term, with the first one.
fn read_files(alloc: Global, files: &[NamedText]) -> Result<Listed<FileItems>, LoadFail>
    requires few { length files.now < 2 ^ 32 }
    requires short { All (λ file. length file.text < 2 ^ 31) files.now }
    ensures answer { Answers (files_from 1 0 (map (λ file. file.text) files.now)) result }
    ensures well_formed { IfOk result (λ read. All AreWellFormedItems read) }
    ensures len { IfOk result (λ read. length read ≡ length files.now) }
    ensures few { IfOk result (λ read. counted_in read ≤ 65536) }
{
    let mut read = Vec::new(alloc);
    let mut there: u64 = 0;
    for (i, file) in files.iter().enumerate() {
        match read_items(alloc, file.text.as_slice(), there) {
            Ok(items) => {
                there = items.count;
                read.push(items)?;
            }
            Err(fail) => return Err(fail_in(i as u32 + 1, fail)),
        }
    }
    Ok(Listed::new(read))
}

/// The program that the files say. Each is a module: a text of terms, of which the first is the directive `module`, the
/// others are clauses (ISO/IEC 13211-1:1995, 7.4) and the directives `use_module`, `op`, `entry` and `check`. A first pass
/// reads all files in order. A second one goes over them in order again and resolves what each module imports, which may
/// stand in a later file.
///
/// There are fewer than 2^32 files, and each has fewer than 2^31 bytes. The program has at most 65,536 clauses, entries and
/// checks together.
///
/// `Refused` comes exactly where a term is refused, and names the first one by this order: the number of its file, from 1,
/// its own number in that file, from 1, and why it is refused.
pub fn load(alloc: Global, files: &[NamedText]) -> Result<Program, LoadFail>
    requires few { length files.now < 2 ^ 32 }
    requires short { All (λ file. length file.text < 2 ^ 31) files.now }
    ensures answer { Answers (loaded (map (λ file. file.text) files.now)) result }
    ensures well_formed { IfOk result IsWellFormed }
    ensures few { IfOk result (λ program. items_of program ≤ 65536) }
{
    let read = read_files(alloc, files)?;
    program_of(alloc, read.into_vec())
}
