//! Classes of bytes (ISO/IEC 13211-1:1995, 6.5).
ghost use Rattle.std.specs.Prelude.{◌≡◌, ◌≤◌, length};
ghost use Rattle.std.specs.List.{prefix_len};
ghost use Rattle.plai_lex.specs.Bytes.{is_small_letter, is_capital, is_decimal, is_alphanumeric, is_symbol, is_layout, is_printable};
ghost use Rattle.plai_lex.specs.Classes.{in_class};

/// From `a` to `z`.
pub fn is_small_letter(byte: u8) -> bool
    ensures { result ≡ is_small_letter byte }
{
    b'a' <= byte && byte <= b'z'
}

/// A capital letter or the underscore.
pub fn is_capital(byte: u8) -> bool
    ensures { result ≡ is_capital byte }
{
    (b'A' <= byte && byte <= b'Z') || byte == b'_'
}

fn is_decimal(byte: u8) -> bool
    ensures { result ≡ is_decimal byte }
{
    b'0' <= byte && byte <= b'9'
}

fn is_alphanumeric(byte: u8) -> bool
    ensures { result ≡ is_alphanumeric byte }
{
    is_small_letter(byte) || is_capital(byte) || is_decimal(byte)
}

/// A character of which symbolic names consist.
pub fn is_symbol(byte: u8) -> bool
    ensures { result ≡ is_symbol byte }
{
    b"+-*/\\^<>=~:.?@#&$".contains(&byte)
}

/// A space, or one of the bytes 9 to 13.
pub fn is_layout(byte: u8) -> bool
    ensures { result ≡ is_layout byte }
{
    (9 <= byte && byte <= 13) || byte == b' '
}

/// From the space to the tilde.
pub fn is_printable(byte: u8) -> bool
    ensures { result ≡ is_printable byte }
{
    b' ' <= byte && byte <= b'~'
}

/// What a run of bytes consists of.
#[derive(Clone, Copy, Debug, PartialEq, Eq)]
pub enum Class {
    Alphanumeric,
    Symbol,
    /// All but the end of the line.
    Line,
}

impl Class {
    fn contains(self, byte: u8) -> bool
        ensures { result ≡ in_class self byte }
    {
        match self {
            Class::Alphanumeric => is_alphanumeric(byte),
            Class::Symbol => is_symbol(byte),
            Class::Line => byte != b'\n',
        }
    }
}

/// How many bytes at the beginning of the text are in the class.
pub fn run_len(text: &[u8], class: Class) -> usize
    ensures value { result ≡ prefix_len (in_class class) text.now }
    ensures within { result ≤ length text.now }
{
    text.iter()
        .take_while(|byte| class.contains(**byte))
        .count()
}
