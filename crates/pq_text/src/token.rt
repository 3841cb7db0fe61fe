// Tokens and lexical faults.
ghost use Rattle.std.specs.Prelude.{◌≡◌};
ghost use Rattle.pq_text.specs.declared.token.LexFault.TheVariants.{NoMemory};

use lists::Seq;
use std::alloc::{AllocError, AllocFailed};

/// The tokens of a text, in order.
pub type Tokens = Seq<Token>;

/// How a line feed and a comment are taken.
///
/// In the style `Lines` a line feed outside quotes is a token, and `#` begins a comment. In the style `Sql` a line
/// feed is a blank, and `--` begins a comment.
#[derive(Clone, Copy, Debug, PartialEq, Eq)]
pub enum Style {
    Lines,
    Sql,
}

/// `Eol` is a line feed of the style `Lines`.
#[derive(Clone, Copy, Debug, PartialEq, Eq)]
pub enum TokenKind {
    Word,
    Quoted,
    Text,
    Number,
    Symbol,
    Eol,
}

/// A token is the slice of the text from byte `start` up to byte `end`.
#[derive(Clone, Copy, Debug, PartialEq, Eq)]
pub struct Token {
    pub kind: TokenKind,
    pub start: u32,
    pub end: u32,
}

/// What stands behind the tokens of a text: its end, or the first place that begins no token. An offset counts bytes
/// from 0.
#[derive(Clone, Copy, Debug, PartialEq, Eq)]
pub enum Stop {
    End,
    BadByte { offset: u32 },
    OpenQuote { offset: u32 },
}

/// The tokens of a text as far as they go, and what stands behind them.
#[derive(Drop)]
pub struct Lexed {
    pub tokens: Tokens,
    pub stop: Stop,
}

/// Why a text has no tokens. An offset counts bytes from 0.
#[derive(Clone, Copy, Debug, PartialEq, Eq)]
pub enum LexFault {
    NoMemory,
    BadByte { offset: u32 },
    OpenQuote { offset: u32 },
}

impl From<AllocError> for LexFault {
    ghost from_gives = { λ _ e. e ≡ NoMemory };

    fn from(_: AllocError) -> Self {
        LexFault::NoMemory
    }
}

impl<T: Drop> From<AllocFailed<T>> for LexFault {
    ghost from_gives = { λ _ e. e ≡ NoMemory };

    fn from(_: AllocFailed<T>) -> Self {
        LexFault::NoMemory
    }
}
