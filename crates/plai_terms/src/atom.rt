ghost use Rattle.std.specs.Prelude.{◌≡◌, ◌<◌, ◌++◌, OnOk, OnErr};
ghost use Rattle.std.specs.List.{list_all};
ghost use Rattle.plai_terms.specs.Atom.{is_alphanumeric, is_symbol, is_word, is_symbolic, is_end_or_comment, is_solo, is_bare, hex_digit, hex_text, escaped, quoted_text, atom_text, name_text};

use crate::name::Name;
use std::alloc::{AllocError, Global};

fn is_alphanumeric(byte: u8) -> bool
    ensures { result ≡ is_alphanumeric byte }
{
    byte.is_ascii_alphanumeric() || byte == b'_'
}

fn is_symbol(byte: u8) -> bool
    ensures { result ≡ is_symbol byte }
{
    b"+-*/\\^<>=~:.?@#&$".contains(&byte)
}

fn are_alphanumeric(bytes: &[u8]) -> bool
    ensures { result ≡ list_all is_alphanumeric bytes.now }
{
    bytes.iter().all(|byte| is_alphanumeric(*byte))
}

fn are_symbols(bytes: &[u8]) -> bool
    ensures { result ≡ list_all is_symbol bytes.now }
{
    bytes.iter().all(|byte| is_symbol(*byte))
}

fn is_word(name: &[u8]) -> bool
    ensures { result ≡ is_word name.now }
{
    match name.split_first() {
        None => false,
        Some((first, rest)) => first.is_ascii_lowercase() && are_alphanumeric(rest),
    }
}

fn is_symbolic(name: &[u8]) -> bool
    ensures { result ≡ is_symbolic name.now }
{
    !name.is_empty() && are_symbols(name)
}

fn is_end_or_comment(name: &[u8]) -> bool
    ensures { result ≡ is_end_or_comment name.now }
{
    name == b".".as_slice() || name.starts_with(b"/*")
}

fn is_solo(name: &[u8]) -> bool
    ensures { result ≡ is_solo name.now }
{
    name == b"[]".as_slice() || name == b"!".as_slice() || name == b";".as_slice()
}

fn is_bare(name: &[u8]) -> bool
    ensures { result ≡ is_bare name.now }
{
    is_word(name) || is_symbolic(name) && !is_end_or_comment(name) || is_solo(name)
}

fn hex_digit(value: u8) -> u8
    requires { value < 16 }
    ensures { result ≡ hex_digit value }
{
    if value < 10 {
        b'0' + value
    } else {
        b'a' - 10 + value
    }
}

fn write_hex(byte: u8, out: &mut Vec<u8>) -> Result<(), AllocError>
    ensures { OnOk result (out.new.items ≡ out.old.items ++ hex_text byte) }
{
    out.extend_from_slice(&[
        b'\\',
        b'x',
        hex_digit(byte / 16),
        hex_digit(byte % 16),
        b'\\',
    ])
}

fn write_escaped(byte: u8, out: &mut Vec<u8>) -> Result<(), AllocError>
    ensures { OnOk result (out.new.items ≡ out.old.items ++ escaped byte) }
{
    match byte {
        b'\'' => out.extend_from_slice(b"''"),
        b'\\' => out.extend_from_slice(b"\\\\"),
        b'\n' => out.extend_from_slice(b"\\n"),
        0..=31 | 127 => write_hex(byte, out),
        _ => out.extend_from_slice(&[byte]),
    }
}

// The calls that begin with `write_` may have appended a part after want of memory.

// The name between quotes, with a quote doubled and control characters escaped.
pub(crate) fn write_quoted(name: &[u8], out: &mut Vec<u8>) -> Result<(), AllocError>
    ensures { OnOk result (out.new.items ≡ out.old.items ++ quoted_text name.now) }
{
    out.push(b'\'')?;
    for byte in name {
        write_escaped(*byte, out)?;
    }
    out.push(b'\'')?;
    Ok(())
}

// The text of an atom.
pub(crate) fn write_atom(name: &[u8], out: &mut Vec<u8>) -> Result<(), AllocError>
    ensures { OnOk result (out.new.items ≡ out.old.items ++ atom_text name.now) }
{
    if is_bare(name) {
        return out.extend_from_slice(name);
    }
    write_quoted(name, out)
}

// A module's or a predicate's name as it stands before `:` or `/`.
pub(crate) fn write_name(name: &[u8], out: &mut Vec<u8>) -> Result<(), AllocError>
    ensures { OnOk result (out.new.items ≡ out.old.items ++ name_text name.now) }
{
    if is_symbolic(name) {
        return write_quoted(name, out);
    }
    write_atom(name, out)
}

/// Appends the text of an atom: bare where it is read back so, and else quoted.
///
/// After want of memory `out` is as before. ISO/IEC 13211-1:1995, 7.10.5.
pub fn print_atom(alloc: Global, name: &Name, out: &mut Vec<u8>) -> Result<(), AllocError>
    ensures ok { OnOk result (out.new.items ≡ out.old.items ++ atom_text name.now) }
    ensures err { OnErr result (out.new.items ≡ out.old.items) }
{
    let mut text = Vec::new(alloc);
    write_atom(name.as_slice(), &mut text)?;
    out.extend_from_slice(&text)
}

/// Appends the name between quotes, also where it would be read back without.
///
/// After want of memory `out` is as before.
pub fn print_quoted(alloc: Global, name: &Name, out: &mut Vec<u8>) -> Result<(), AllocError>
    ensures ok { OnOk result (out.new.items ≡ out.old.items ++ quoted_text name.now) }
    ensures err { OnErr result (out.new.items ≡ out.old.items) }
{
    let mut text = Vec::new(alloc);
    write_quoted(name.as_slice(), &mut text)?;
    out.extend_from_slice(&text)
}

/// Appends a module's or a predicate's name as it stands before `:` or `/`: an atom, and quoted
/// also where it is made of symbol characters, so that different names of rows have different texts.
///
/// After want of memory `out` is as before.
pub fn print_name(alloc: Global, name: &Name, out: &mut Vec<u8>) -> Result<(), AllocError>
    ensures ok { OnOk result (out.new.items ≡ out.old.items ++ name_text name.now) }
    ensures err { OnErr result (out.new.items ≡ out.old.items) }
{
    let mut text = Vec::new(alloc);
    write_name(name.as_slice(), &mut text)?;
    out.extend_from_slice(&text)
}
