//! Tokens.

use chp_base::{Name, Span};

/// The words that are no names.
#[derive(Clone, Copy, Debug)]
pub enum Key {
    In,
    Out,
    Chan,
    Var,
    Begin,
    End,
    Skip,
    Proc,
    Call,
}

/// The signs: `||` `[]` `[|` `:=` `->` `!=` `<=` `>=` `;` `,` `:` `!` `?` `(` `)` `[` `]` `{` `}` `*` `#` `~` `&`
/// `|` `^` `+` `-` `=` `<` `>`.
#[derive(Clone, Copy, Debug)]
pub enum Mark {
    BarBar,
    Choice,
    BracketBar,
    Becomes,
    Arrow,
    NotEqual,
    AtMost,
    AtLeast,
    Semicolon,
    Comma,
    Colon,
    Bang,
    Question,
    OpenRound,
    CloseRound,
    OpenSquare,
    CloseSquare,
    OpenCurly,
    CloseCurly,
    Star,
    Hash,
    Tilde,
    Amp,
    Bar,
    Caret,
    Plus,
    Minus,
    Equal,
    Less,
    Greater,
}

/// What a token is.
#[derive(Drop)]
pub enum TokenKind {
    /// A keyword.
    Word(Key),
    /// A name.
    Ident(Name),
    /// A number, decimal or hexadecimal.
    Number(u64),
    /// A sign.
    Sign(Mark),
}

/// A token and the bytes of the text that spell it.
#[derive(Drop)]
pub struct Token {
    pub kind: TokenKind,
    pub at: Span,
}
