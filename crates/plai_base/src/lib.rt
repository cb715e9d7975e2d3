//! What the analyser asks of the outside: a library of files, a source of bytes and a sink of bytes. And what
//! all its layers use: texts, sets of slots, and the number of steps taken.
#![tactic(auto)]

mod adapters;
mod mask;
mod memory_library;
mod memory_streams;
mod outside;
mod steps;
mod text;
mod whole;

pub use adapters::{FileLibrary, InputSource, OutputSink};
pub use mask::Mask;
pub use memory_library::{HonestLibrary, MemoryLibrary};
pub use memory_streams::{MemorySink, MemorySource};
pub use outside::{Failed, Library, MAX_TEXT, ReadFail, Sink, Source};
pub use steps::Steps;
pub use text::Text;
pub use whole::{read_whole, write_whole};
