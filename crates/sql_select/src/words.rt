// Tokens as the grammar sees them: keywords, symbols, names and values, and what queries may not have.
ghost use Rattle.std.specs.Prelude.{◌≡◌, map, nat_eq};
ghost use Rattle.std.specs.Cmp.Lexicographic.{pointwise};
ghost use Rattle.access_schema.specs.Lists.{is_among};
ghost use Rattle.pq_text.specs.Spans.{IsSpan};
ghost use Rattle.pq_text.specs.Standing.{lowered};
ghost use Rattle.sql_select.specs.Words.{first_words, second_words, third_words, fourth_words, is_refused_word, refused_symbols, is_refused, word_piece, symbol_piece, piece_of};

use crate::piece::Piece;
use pq_text::{Token, TokenKind, written};

fn lowered(b: u8) -> u8
    ensures { result ≡ lowered b }
{
    if b >= b'A' && b <= b'Z' { b + 32 } else { b }
}

// Whether the bytes are the word, in capitals or not.
fn spells(bytes: &[u8], word: &[u8]) -> bool
    ensures { result ≡ pointwise nat_eq word.now (map lowered bytes.now) }
{
    let mut left = bytes;
    let mut other = word;
    while let ([b, bs @ ..], [c, cs @ ..]) = (left, other) {
        if *c != lowered(*b) {
            return false;
        }
        left = bs;
        other = cs;
    }
    left.is_empty() && other.is_empty()
}

fn is_first_word(bytes: &[u8]) -> bool
    ensures { result ≡ is_among first_words (map lowered bytes.now) }
{
    spells(bytes, b"all")
        || spells(bytes, b"between")
        || spells(bytes, b"case")
        || spells(bytes, b"cross")
        || spells(bytes, b"except")
        || spells(bytes, b"exists")
        || spells(bytes, b"fetch")
        || spells(bytes, b"full")
}

fn is_second_word(bytes: &[u8]) -> bool
    ensures { result ≡ is_among second_words (map lowered bytes.now) }
{
    spells(bytes, b"group")
        || spells(bytes, b"having")
        || spells(bytes, b"in")
        || spells(bytes, b"inner")
        || spells(bytes, b"intersect")
        || spells(bytes, b"is")
        || spells(bytes, b"join")
        || spells(bytes, b"left")
}

fn is_third_word(bytes: &[u8]) -> bool
    ensures { result ≡ is_among third_words (map lowered bytes.now) }
{
    spells(bytes, b"like")
        || spells(bytes, b"limit")
        || spells(bytes, b"natural")
        || spells(bytes, b"not")
        || spells(bytes, b"null")
        || spells(bytes, b"offset")
        || spells(bytes, b"on")
        || spells(bytes, b"or")
}

fn is_fourth_word(bytes: &[u8]) -> bool
    ensures { result ≡ is_among fourth_words (map lowered bytes.now) }
{
    spells(bytes, b"order")
        || spells(bytes, b"outer")
        || spells(bytes, b"right")
        || spells(bytes, b"using")
        || spells(bytes, b"with")
}

fn is_refused_word(bytes: &[u8]) -> bool
    ensures { result ≡ is_refused_word (map lowered bytes.now) }
{
    is_first_word(bytes) || is_second_word(bytes) || is_third_word(bytes) || is_fourth_word(bytes)
}

fn is_symbol(bytes: &[u8], symbol: &[u8]) -> bool
    ensures { result ≡ pointwise nat_eq symbol.now bytes.now }
{
    symbol == bytes
}

fn is_refused_symbol(bytes: &[u8]) -> bool
    ensures { result ≡ is_among refused_symbols bytes.now }
{
    is_symbol(bytes, b"*")
        || is_symbol(bytes, b"<")
        || is_symbol(bytes, b">")
        || is_symbol(bytes, b"<=")
        || is_symbol(bytes, b">=")
        || is_symbol(bytes, b"<>")
        || is_symbol(bytes, b"!=")
        || is_symbol(bytes, b"(")
        || is_symbol(bytes, b"+")
        || is_symbol(bytes, b"-")
        || is_symbol(bytes, b"/")
        || is_symbol(bytes, b"|")
}

/// Whether a token of this kind and these bytes is one that no query may have, though SQL has it.
pub fn is_refused(kind: TokenKind, bytes: &[u8]) -> bool
    ensures { result ≡ is_refused kind bytes.now }
{
    match kind {
        TokenKind::Word => is_refused_word(bytes),
        TokenKind::Symbol => is_refused_symbol(bytes),
        TokenKind::Quoted | TokenKind::Text | TokenKind::Number | TokenKind::Eol => false,
    }
}

fn word_piece(token: Token, bytes: &[u8]) -> Piece
    ensures { result ≡ word_piece token (map lowered bytes.now) }
{
    if spells(bytes, b"select") {
        return Piece::Select;
    }
    if spells(bytes, b"distinct") {
        return Piece::Distinct;
    }
    if spells(bytes, b"from") {
        return Piece::From;
    }
    if spells(bytes, b"where") {
        return Piece::Where;
    }
    if spells(bytes, b"and") {
        return Piece::And;
    }
    if spells(bytes, b"as") {
        return Piece::As;
    }
    if spells(bytes, b"union") {
        return Piece::Union;
    }
    if is_refused_word(bytes) {
        return Piece::Other;
    }
    Piece::Name(token)
}

fn symbol_piece(bytes: &[u8]) -> Piece
    ensures { result ≡ symbol_piece bytes.now }
{
    if is_symbol(bytes, b",") {
        return Piece::Comma;
    }
    if is_symbol(bytes, b".") {
        return Piece::Dot;
    }
    if is_symbol(bytes, b"=") {
        return Piece::Equals;
    }
    if is_symbol(bytes, b";") {
        return Piece::Semicolon;
    }
    Piece::Other
}

/// A token of the text as the grammar sees it.
pub fn piece_of(text: &str, token: Token) -> Piece
    requires { IsSpan text.now token }
    ensures { result ≡ piece_of text.now token }
{
    let bytes = written(text, token).as_bytes();
    match token.kind {
        TokenKind::Word => word_piece(token, bytes),
        TokenKind::Quoted => Piece::Name(token),
        TokenKind::Text | TokenKind::Number => Piece::Value(token),
        TokenKind::Symbol => symbol_piece(bytes),
        TokenKind::Eol => Piece::Other,
    }
}
