ghost use Rattle.std.specs.Prelude.{◌≡◌, ◌++◌, OnOk, OnErr, codes, decimal, reverse};
ghost use Rattle.std.specs.Fmt.{signed_decimal};
ghost use Rattle.plai_terms.specs.Print.{text_of};
ghost use Rattle.plai_terms.specs.Pieces.{behind_head, head_text, listed, part_of, parts_of, parts_behind, written_at};

use crate::atom::write_atom;
use crate::term::Term;
use itoa::Buffer;
use std::alloc::{AllocError, Global};

/// Appends the text of a term of any depth: functional notation without spaces, a variable as `_` and its number,
/// integers in decimal, and atoms in quotes where they need them (ISO/IEC 13211-1:1995, 7.10.5).
///
/// After want of memory `out` is as before.
pub fn print_term(alloc: Global, term: &Term, out: &mut Vec<u8>) -> Result<(), AllocError>
    ensures ok { OnOk result (out.new.items ≡ out.old.items ++ text_of term.now) }
    ensures err { OnErr result (out.new.items ≡ out.old.items) }
{
    let mut text = Vec::new(alloc);
    write_term(alloc, term, &mut text)?;
    out.extend_from_slice(&text)
}

// What is still to be written.
#[derive(Clone, Copy)]
enum Piece<'a> {
    // A byte.
    Byte(u8),
    // The text of a term.
    Whole(&'a Term),
}

// Pieces that wait, the next one last, get terms behind them, with commas between and a bracket behind.
fn put_listed<'a>(terms: &'a [Term], waiting: &mut Vec<Piece<'a>>) -> Result<(), AllocError>
    ensures { OnOk result (reverse (parts_of waiting.new.items) ≡ listed 41 terms.entry.now ++ reverse (parts_of waiting.old.items)) }
{
    let mut left = terms;
    let mut behind = b')';
    while let Some((last, before)) = left.split_last() {
        waiting.push(Piece::Byte(behind))?;
        waiting.push(Piece::Whole(last))?;
        left = before;
        behind = b',';
    }
    Ok(())
}

// A variable, an integer or an atom, and of a compound the name and the bracket, with the rest put to the pieces
// that wait.
fn write_whole<'a>(
    term: &'a Term,
    waiting: &mut Vec<Piece<'a>>,
    out: &mut Vec<u8>,
) -> Result<(), AllocError>
    ensures written { OnOk result (out.new.items ≡ out.old.items ++ head_text term.entry.now) }
    ensures waiting { OnOk result (reverse (parts_of waiting.new.items) ≡ behind_head term.entry.now ++ reverse (parts_of waiting.old.items)) }
{
    match term {
        Term::Var(number) => write_variable(*number, out),
        Term::Int(value) => write_integer(*value, out),
        Term::Atom(name) => write_atom(name.as_slice(), out),
        Term::Compound(name, args) => {
            write_atom(name.as_slice(), out)?;
            out.push(b'(')?;
            put_listed(args.as_slice(), waiting)
        }
    }
}

// A piece, of a term what begins it.
fn write_piece<'a>(
    piece: Piece<'a>,
    waiting: &mut Vec<Piece<'a>>,
    out: &mut Vec<u8>,
) -> Result<(), AllocError>
    ensures written { OnOk result (out.new.items ≡ out.old.items ++ written_at (part_of piece.entry)) }
    ensures waiting { OnOk result (reverse (parts_of waiting.new.items) ≡ parts_behind (part_of piece.entry) ++ reverse (parts_of waiting.old.items)) }
{
    match piece {
        Piece::Byte(byte) => {
            out.push(byte)?;
            Ok(())
        }
        Piece::Whole(term) => write_whole(term, waiting, out),
    }
}

fn write_term(alloc: Global, term: &Term, out: &mut Vec<u8>) -> Result<(), AllocError>
    ensures { OnOk result (out.new.items ≡ out.old.items ++ text_of term.now) }
{
    let mut waiting = vec![in alloc; Piece::Whole(term)]?;
    while let Some(piece) = waiting.pop() {
        write_piece(piece, &mut waiting, out)?;
    }
    Ok(())
}

fn write_variable(number: u32, out: &mut Vec<u8>) -> Result<(), AllocError>
    ensures { OnOk result (out.new.items ≡ out.old.items ++ codes "_" ++ decimal number) }
{
    let mut buffer = Buffer::new();
    out.push(b'_')?;
    out.extend_from_slice(buffer.format(number).as_bytes())
}

pub(crate) fn write_integer(value: i128, out: &mut Vec<u8>) -> Result<(), AllocError>
    ensures { OnOk result (out.new.items ≡ out.old.items ++ signed_decimal value) }
{
    let mut buffer = Buffer::new();
    out.extend_from_slice(buffer.format(value).as_bytes())
}
