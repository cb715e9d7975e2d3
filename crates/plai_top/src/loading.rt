// What the files are loaded to.
ghost use Rattle.std.specs.Prelude.{◌≡◌, ◌≤◌, All, IfOk, IfErr, length, map};
ghost use Rattle.plai_base.specs.Texts.{longest_text};
ghost use Rattle.plai_top.specs.Files.{name_at};
ghost use Rattle.plai_top.specs.Loadings.{IsLoading, HasLine};
ghost use Rattle.plai_top.specs.Refusal.{refusal_text};

use crate::refusal::refusal_line;
use crate::stop::Stop;
use plai_clauses::Program;
use plai_modules::{LoadCause, LoadFail, NamedText, load};
use plai_terms::Name;
use std::alloc::{AllocError, Global};

/// What the files are loaded to.
#[derive(Debug, Drop)]
pub enum Loading {
    /// A program.
    Program(Program),
    /// A refusal, by its line.
    Refused(Vec<u8>),
}

/// The line of a refusal in the file of that number, from 1.
fn line_of(
    alloc: Global,
    files: &[NamedText],
    number: u32,
    term: u64,
    cause: &LoadCause,
) -> Result<Vec<u8>, AllocError>
    ensures { IfOk result (λ line. line.items ≡ refusal_text (name_at (map (λ f. f.name) files.now) number) term cause.now) }
{
    match files.get((number as usize).saturating_sub(1)) {
        Some(file) => {
            let bytes = file.name.as_str().as_bytes();
            let name = Name::new(Vec::from_slice(alloc, bytes)?);
            refusal_line(alloc, &name, term, cause)
        }
        None => refusal_line(alloc, &Name::new(Vec::new(alloc)), term, cause),
    }
}

/// Loads the files.
pub fn load_files(alloc: Global, files: &[NamedText]) -> Result<Loading, Stop>
    requires few { length files.now ≤ 64 }
    requires short { All (λ f. length f.text ≤ longest_text) files.now }
    ensures loading { IfOk result (λ loading. IsLoading (map (λ f. f.name) files.now) (map (λ f. f.text) files.now) loading) }
    ensures line { IfOk result HasLine }
    ensures stop { IfErr result (λ stop. stop ≡ Stop.Memory) }
{
    match load(alloc, files) {
        Ok(program) => Ok(Loading::Program(program)),
        Err(LoadFail::Refused { file, term, cause }) => {
            match line_of(alloc, files, file, term, &cause) {
                Ok(line) => Ok(Loading::Refused(line)),
                Err(_) => Err(Stop::Memory),
            }
        }
        Err(LoadFail::Memory) => Err(Stop::Memory),
    }
}
