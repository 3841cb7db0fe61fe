// From bytes to tokens.
ghost use Rattle.std.specs.Prelude.{◌≡◌, ◌<◌, ◌≤◌, ◌^◌, ◌-◌, ◌+◌, ℕ, None, false, length, drop, IfOk, IfErr, IfSome, List, MatchResult};
ghost use Rattle.pq_text.specs.declared.token.Token.{Token};
ghost use Rattle.pq_text.specs.declared.token.LexFault.TheVariants.{NoMemory};
ghost use Rattle.std.specs.List.{AllByRecursion};
ghost use Rattle.pq_text.specs.Spans.{IsSpan, InOrder};
ghost use Rattle.pq_text.specs.Tokens.{is_letter, is_digit, is_word_byte, is_blank, opens_comment, gap_from, run_from, end_from, symbol_end, first, token_at, IsWithin, Lexes, IsFront, HasFault};

use crate::token::{LexFault, Lexed, Stop, Style, Token, TokenKind, Tokens};
use lists::Seq;
use std::alloc::{AllocError, Global};

/// What stands at a place: a token up to an end, or none.
#[derive(Clone, Copy, Debug, PartialEq, Eq)]
pub enum Found {
    Begins { kind: TokenKind, end: usize },
    Bad,
    Open,
}

fn is_letter(b: u8) -> bool
    ensures { result ≡ is_letter b }
{
    (b >= b'a' && b <= b'z') || ((b >= b'A' && b <= b'Z') || b == b'_')
}

fn is_digit(b: u8) -> bool
    ensures { result ≡ is_digit b }
{
    b >= b'0' && b <= b'9'
}

fn is_word_byte(b: u8) -> bool
    ensures { result ≡ is_word_byte b }
{
    is_letter(b) || is_digit(b)
}

fn is_blank(style: Style, b: u8) -> bool
    ensures { result ≡ is_blank style b }
{
    match style {
        Style::Lines => b == b' ' || (b == b'\t' || b == b'\r'),
        Style::Sql => b == b' ' || (b == b'\t' || (b == b'\r' || b == b'\n')),
    }
}

// The first byte, or 0.
fn first(bytes: &[u8]) -> u8
    ensures { result ≡ first bytes.now }
{
    match bytes {
        [] => 0,
        [b, ..] => *b,
    }
}

fn opens_comment(style: Style, b: u8, after: &[u8]) -> bool
    ensures { result ≡ opens_comment style b after.now }
{
    match style {
        Style::Lines => b == b'#',
        Style::Sql => b == b'-' && first(after) == b'-',
    }
}

// The place behind the blanks and comments with which the bytes begin, where they begin at a place.
fn gap_end(style: Style, bytes: &[u8], at: usize) -> usize
    requires { at + length bytes.now < 2 ^ 64 }
    ensures gap { result ≡ gap_from at style false bytes.now }
    ensures after { at ≤ result }
    ensures within { result ≤ at + length bytes.now }
{
    let mut left = bytes;
    let mut place = at;
    let mut comment = false;
    while let [b, after @ ..] = left {
        comment = if comment {
            *b != b'\n'
        } else {
            opens_comment(style, *b, after)
        };
        if !comment && !is_blank(style, *b) {
            break;
        }
        place += 1;
        left = after;
    }
    place
}

// The place behind the word bytes.
fn word_end(bytes: &[u8], at: usize) -> usize
    requires { at + length bytes.now < 2 ^ 64 }
    ensures run { result ≡ run_from at is_word_byte bytes.now }
    ensures after { at ≤ result }
    ensures within { result ≤ at + length bytes.now }
{
    let mut left = bytes;
    let mut place = at;
    while let [b, after @ ..] = left {
        if !is_word_byte(*b) {
            break;
        }
        place += 1;
        left = after;
    }
    place
}

// The place behind the digits.
fn number_end(bytes: &[u8], at: usize) -> usize
    requires { at + length bytes.now < 2 ^ 64 }
    ensures run { result ≡ run_from at is_digit bytes.now }
    ensures after { at ≤ result }
    ensures within { result ≤ at + length bytes.now }
{
    let mut left = bytes;
    let mut place = at;
    while let [b, after @ ..] = left {
        if !is_digit(*b) {
            break;
        }
        place += 1;
        left = after;
    }
    place
}

// The place behind the last quote that can close a text whose inside these bytes begin.
fn quote_end(quote: u8, bytes: &[u8], at: usize) -> Option<usize>
    requires { at + length bytes.now < 2 ^ 64 }
    ensures closed { result ≡ end_from at None false quote bytes.now }
    ensures within { IfSome result (λ end. (at ≤ end) × (end ≤ at + length bytes.now)) }
{
    let mut left = bytes;
    let mut place = at;
    let mut last = None;
    let mut behind_quote = false;
    while let [b, after @ ..] = left {
        if behind_quote {
            if *b != quote {
                return Some(place);
            }
            last = Some(place);
            behind_quote = false;
        } else {
            behind_quote = *b == quote;
        }
        place += 1;
        left = after;
    }
    if behind_quote { Some(place) } else { last }
}

fn symbol_end(at: usize, b: u8, next: u8) -> Found
    requires { at + 2 < 2 ^ 64 }
    ensures { result ≡ symbol_end at b next }
{
    match (b, next) {
        (b'<' | b'>' | b'!', b'=') | (b'<' | b'-', b'>') => Found::Begins {
            kind: TokenKind::Symbol,
            end: at + 2,
        },
        (b'('..=b'/' | b':'..=b'>' | b'|' | b'$', _) => Found::Begins {
            kind: TokenKind::Symbol,
            end: at + 1,
        },
        _ => Found::Bad,
    }
}

// The token with which the bytes begin, where they begin at a place.
fn token_at(style: Style, bytes: &[u8], at: usize) -> Found
    requires { at + length bytes.now + 2 < 2 ^ 64 }
    ensures found { result ≡ token_at style at bytes.now }
    ensures within { IsWithin at (at + length bytes.now) result }
{
    let [b, after @ ..] = bytes else {
        return Found::Bad;
    };
    if is_letter(*b) {
        return Found::Begins {
            kind: TokenKind::Word,
            end: word_end(after, at + 1),
        };
    }
    if is_digit(*b) {
        return Found::Begins {
            kind: TokenKind::Number,
            end: number_end(after, at + 1),
        };
    }
    match *b {
        b'\'' => match quote_end(b'\'', after, at + 1) {
            None => Found::Open,
            Some(end) => Found::Begins {
                kind: TokenKind::Text,
                end,
            },
        },
        b'"' => match quote_end(b'"', after, at + 1) {
            None => Found::Open,
            Some(end) if end == at + 2 => Found::Bad,
            Some(end) => Found::Begins {
                kind: TokenKind::Quoted,
                end,
            },
        },
        b'\n' => match style {
            Style::Lines => Found::Begins {
                kind: TokenKind::Eol,
                end: at + 1,
            },
            Style::Sql => Found::Bad,
        },
        b => symbol_end(at, b, first(after)),
    }
}

// The bytes from a place on.
fn rest_of(bytes: &[u8], at: usize) -> &[u8]
    requires { at ≤ length bytes.now }
    ensures rest { result.now ≡ drop at bytes.now }
    ensures len { at + length result.now ≡ length bytes.now }
{
    let (_, rest) = bytes.split_at(at);
    rest
}

/// The tokens of a text, or the first place that begins none.
pub fn tokens(alloc: Global, text: &str, style: Style) -> Result<Tokens, LexFault>
    requires { length text.now ≤ 2 ^ 30 }

    // The tokens follow each other through the whole text, each the longest that fits, with blanks and comments alone
    // between them. Their spans stand in order, and the text may be sliced at each.
    ensures found { IfOk result (λ tokens. Lexes style text.now 0 tokens (length text.now)) }
    ensures spans { IfOk result (λ tokens. AllByRecursion (IsSpan text.now) tokens) }
    ensures order { IfOk result (λ tokens. InOrder 0 tokens) }

    // A text that has tokens is not refused, unless memory runs out, and has these alone.
    ensures only { (ts : List Token) → Lexes style text.now 0 ts (length text.now) → MatchResult result (λ tokens. tokens ≡ ts) (λ fault. fault ≡ NoMemory) }

    // A fault stands at the first place that begins no token: tokens stand up to it.
    ensures fault { IfErr result (λ fault. HasFault style text.now fault) }
{
    all_tokens(alloc, text, style)
}

fn all_tokens(alloc: Global, text: &str, style: Style) -> Result<Tokens, LexFault>
    requires { length text.now ≤ 2 ^ 30 }
    ensures found { IfOk result (λ tokens. Lexes style text.now 0 tokens (length text.now)) }
    ensures spans { IfOk result (λ tokens. AllByRecursion (IsSpan text.now) tokens) }
    ensures order { IfOk result (λ tokens. InOrder 0 tokens) }
    ensures fault { IfErr result (λ fault. HasFault style text.now fault) }
{
    let lexed = front_tokens(alloc, text, style)?;
    match lexed.stop {
        Stop::End => Ok(lexed.tokens),
        Stop::BadByte { offset } => Err(LexFault::BadByte { offset }),
        Stop::OpenQuote { offset } => Err(LexFault::OpenQuote { offset }),
    }
}

/// The tokens of a text up to its end or its first lexical fault.
pub fn front_tokens(alloc: Global, text: &str, style: Style) -> Result<Lexed, AllocError>
    requires { length text.now ≤ 2 ^ 30 }
    ensures front { IfOk result (λ lexed. IsFront style text.now lexed) }
    ensures spans { IfOk result (λ lexed. AllByRecursion (IsSpan text.now) lexed.tokens) }
    ensures order { IfOk result (λ lexed. InOrder 0 lexed.tokens) }
{
    let bytes = text.as_bytes();
    let mut tokens = Seq::new(alloc);
    let mut at = gap_end(style, bytes, 0);
    while at < bytes.len() {
        match token_at(style, rest_of(bytes, at), at) {
            Found::Begins { kind, end } => {
                tokens.push(Token {
                    kind,
                    start: at as u32,
                    end: end as u32,
                })?;
                at = gap_end(style, rest_of(bytes, end), end);
            }
            Found::Bad => {
                let stop = Stop::BadByte { offset: at as u32 };
                return Ok(Lexed { tokens, stop });
            }
            Found::Open => {
                let stop = Stop::OpenQuote { offset: at as u32 };
                return Ok(Lexed { tokens, stop });
            }
        }
    }
    Ok(Lexed {
        tokens,
        stop: Stop::End,
    })
}
