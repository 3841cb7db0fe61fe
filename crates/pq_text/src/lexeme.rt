// Tokens with what they stand for, and lines of them.
ghost use Rattle.std.specs.Prelude.{◌≡◌};
ghost use Rattle.pq_text.specs.Lexemes.{is_word, is_symbol, is_name, is_value, is_text, is_number};

use crate::token::TokenKind;
use lists::{Seq, Text};

/// The tokens of a line, or of a text.
pub type Lexemes = Seq<Lexeme>;

/// Lines in order.
pub type Lines = Seq<Line>;

/// Tokens with what they stand for, and lines of them.
#[derive(Drop)]
pub struct Lexeme {
    pub kind: TokenKind,
    pub text: Text,
}

impl Lexeme {
    /// Whether this is the word, which is given without capitals.
    pub fn is_word(&self, text: &[u8]) -> bool
        ensures { result ≡ is_word text.now self.now }
    {
        matches!(self.kind, TokenKind::Word) && self.text.as_bytes() == text
    }

    /// Whether this is the symbol.
    pub fn is_symbol(&self, text: &[u8]) -> bool
        ensures { result ≡ is_symbol text.now self.now }
    {
        matches!(self.kind, TokenKind::Symbol) && self.text.as_bytes() == text
    }

    /// Whether this is a name. The name is then not empty.
    pub fn is_name(&self) -> bool
        ensures { result ≡ is_name self.now }
    {
        matches!(self.kind, TokenKind::Word | TokenKind::Quoted) && !self.text.as_bytes().is_empty()
    }

    /// Whether this is a value.
    pub fn is_value(&self) -> bool
        ensures { result ≡ is_value self.now }
    {
        matches!(self.kind, TokenKind::Text | TokenKind::Number)
    }

    /// Whether this is a text in single quotes.
    pub fn is_text(&self) -> bool
        ensures { result ≡ is_text self.now }
    {
        matches!(self.kind, TokenKind::Text)
    }

    /// Whether this is a number.
    pub fn is_number(&self) -> bool
        ensures { result ≡ is_number self.now }
    {
        matches!(self.kind, TokenKind::Number)
    }
}

/// A line without its line feed, and the number of the line in which its first byte stands. It counts from 1.
#[derive(Drop)]
pub struct Line {
    pub number: u32,
    pub tokens: Lexemes,
}

/// The lines of a text. Where the text has a lexical fault, `whole` are the lines before the one that holds the fault,
/// and `broken` is that line's number.
#[derive(Drop)]
pub struct TextLines {
    pub whole: Lines,
    pub broken: Option<u32>,
}
