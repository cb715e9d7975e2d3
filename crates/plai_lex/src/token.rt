use plai_terms::Name;

/// What a token is (ISO/IEC 13211-1:1995, 6.4).
#[derive(Debug, PartialEq, Eq, Drop)]
pub enum TokenKind {
    /// An unquoted name: a small letter and what follows it, symbol characters, `!` or `;`.
    Name(Name),
    /// A name in single quotes, without them and with its escapes resolved.
    Quoted(Name),
    /// A variable, with its first letter or underscore.
    Var(Name),
    /// An integer from 0 to 2^127 - 1.
    Int(i128),
    /// A text in double quotes, without them and with its escapes resolved.
    Text(Name),
    /// `(`
    Open,
    /// `)`
    Close,
    /// `[`
    OpenList,
    /// `]`
    CloseList,
    /// `,`
    Comma,
    /// `|`
    Bar,
    /// The full stop behind a term.
    End,
}

/// A token and where it stands.
#[derive(Debug, PartialEq, Eq, Drop)]
pub struct Token {
    pub kind: TokenKind,
    /// The place of its first byte, counted from 0.
    pub at: u64,
    /// Whether nothing stands between the token before and this one. The first token isn't tight.
    pub tight: bool,
}
