// The files.
ghost use Rattle.std.specs.Prelude.{◌≡◌, ◌<◌, ◌≤◌, ◌⊎◌, All, length, map, IfSome, IfOk, IfErr, OnOk, IsErrOf};
ghost use Rattle.plai_base.specs.Causes.{Rose};
ghost use Rattle.plai_base.specs.Texts.{text_of, longest_text};
ghost use Rattle.plai_top.specs.Files.{texts_of, AreShort, IsSomeLong};
ghost use Rattle.plai_top.specs.Stops.{IsReadEnd};

use crate::stop::Stop;
use plai_base::{Library, ReadFail, Text};
use plai_modules::NamedText;
use plai_terms::Listed;
use std::alloc::{AllocError, Global};

/// A text with its name.
fn named(alloc: Global, name: &Text, text: Vec<u8>) -> Result<NamedText, AllocError>
    ensures name { IfOk result (λ file. file.name ≡ name.now) }
    ensures text { IfOk result (λ file. file.text ≡ text.items) }
{
    Ok(NamedText {
        name: Text::new(String::from_str(alloc, name.as_str())?),
        text: Listed::new(text),
    })
}

/// Reads a file.
fn read_file<B: Library>(alloc: Global, name: &Text, library: &mut B) -> Result<NamedText, Stop>
    ensures name { IfOk result (λ file. file.name ≡ name.now) }
    ensures text { IfOk result (λ file. IfSome (B.files library.old) (λ files. file.text ≡ text_of files name.now)) }
    ensures short { IfOk result (λ file. length file.text ≤ longest_text) }
    ensures stop { IfErr result (λ stop. IsReadEnd stop ⊎
        ((stop ≡ Stop.TooLarge) × IfSome (B.files library.old) (λ files. longest_text < length (text_of files name.now)))) }
    ensures same { B.files library.new ≡ B.files library.old }
    ensures later { B.faults library.old ≤ B.faults library.new }
    ensures failed { IsErrOf result Stop.ReadFault → Rose (B.faults library.old) (B.faults library.new) }
{
    let mut text = Vec::new(alloc);
    match library.read(alloc, name.as_str(), &mut text) {
        Ok(()) => match named(alloc, name, text) {
            Ok(file) => Ok(file),
            Err(_) => Err(Stop::Memory),
        },
        Err(ReadFail::TooLong) => Err(Stop::TooLarge),
        Err(ReadFail::Failed) => Err(Stop::ReadFault),
        Err(ReadFail::Memory) => Err(Stop::Memory),
    }
}

/// Reads the files in order, until one is too long or a read fails.
pub fn read_files<B: Library>(
    alloc: Global,
    names: &[Text],
    library: &mut B,
) -> Result<Vec<NamedText>, Stop>
    ensures names { IfOk result (λ files. map (λ f. f.name) files.items ≡ names.now) }
    ensures texts { IfOk result (λ files. IfSome (B.files library.old) (λ told. map (λ f. f.text) files.items ≡ texts_of told names.now)) }
    ensures short { IfOk result (λ files. All (λ f. length f.text ≤ longest_text) files.items) }
    ensures told_short { OnOk result (IfSome (B.files library.old) (λ told. AreShort told names.now)) }
    ensures stop { IfErr result (λ stop. IsReadEnd stop ⊎
        ((stop ≡ Stop.TooLarge) × IfSome (B.files library.old) (λ told. IsSomeLong told names.now))) }
    ensures later { B.faults library.old ≤ B.faults library.new }
    ensures failed { IsErrOf result Stop.ReadFault → Rose (B.faults library.old) (B.faults library.new) }
{
    let mut files = Vec::new(alloc);
    for name in names {
        match read_file(alloc, name, library) {
            Ok(file) => match files.push(file) {
                Ok(()) => {}
                Err(_) => return Err(Stop::Memory),
            },
            Err(stop) => return Err(stop),
        }
    }
    Ok(files)
}
