//! Layout and comments (ISO/IEC 13211-1:1995, 6.4.1).
ghost use Rattle.std.specs.Prelude.{◌≡◌, ◌+◌, ◌≤◌, length, drop, IfSome};
ghost use Rattle.plai_lex.specs.Pieces.{close_len, comment};
ghost use Rattle.plai_lex.specs.Lengths.{FitsPiece};

use crate::fail::LexCause;
use crate::piece::Piece;

/// How many bytes stand up to and with the next `*/`.
fn close_len(text: &[u8]) -> Option<usize>
    ensures value { result ≡ close_len text.now }
    ensures within { IfSome result (λ len. len ≤ length text.now) }
{
    for i in 0..text.len() {
        if text[i..].starts_with(b"*/") {
            return Some(i + 2);
        }
    }
    None
}

/// The comment at the beginning of the text, whose first two bytes are `/*`.
pub fn comment(text: &[u8]) -> Piece
    requires { 2 ≤ length text.now }
    ensures value { result ≡ comment (close_len (drop 2 text.now)) }
    ensures within { FitsPiece (length text.now) result }
{
    match close_len(&text[2..]) {
        Some(len) => Piece::Gap(2 + len),
        None => Piece::Failed(LexCause::OpenComment, 0),
    }
}
