// What a token stands for.
ghost use Rattle.std.specs.Prelude.{◌≡◌, ◌≤◌, length, map, false, IfOk, slice_range};
ghost use Rattle.std.specs.Str.{IsUtf8};
ghost use Rattle.std.specs.List.{AllByRecursion};
ghost use Rattle.pq_text.specs.Spans.{IsSpan};
ghost use Rattle.pq_text.specs.Standing.{lowered, single, inside, stands_for, lexeme_for};

use crate::lexeme::{Lexeme, Lexemes};
use crate::token::{Token, TokenKind};
use lists::{Seq, Text};
use std::alloc::{AllocError, Global};

fn lowered(b: u8) -> u8
    ensures { result ≡ lowered b }
{
    if b >= b'A' && b <= b'Z' { b + 32 } else { b }
}

fn all_lowered(alloc: Global, bytes: &[u8]) -> Result<Vec<u8>, AllocError>
    ensures { IfOk result (λ v. v.items ≡ map lowered bytes.now) }
{
    let mut out = Vec::new(alloc);
    for &b in bytes {
        out.push(lowered(b))?;
    }
    Ok(out)
}

fn single(alloc: Global, quote: u8, bytes: &[u8]) -> Result<Vec<u8>, AllocError>
    ensures { IfOk result (λ v. v.items ≡ single quote false bytes.now) }
{
    let mut out = Vec::new(alloc);
    let mut left = bytes;
    let mut behind_quote = false;
    while let [b, after @ ..] = left {
        if !behind_quote && *b == quote {
            behind_quote = true;
        } else {
            out.push(*b)?;
            behind_quote = false;
        }
        left = after;
    }
    Ok(out)
}

fn inside(alloc: Global, quote: u8, bytes: &[u8]) -> Result<Vec<u8>, AllocError>
    ensures { IfOk result (λ v. v.items ≡ inside quote bytes.now) }
{
    match bytes {
        [] => Ok(Vec::new(alloc)),
        [_, after @ ..] => Ok(single(alloc, quote, after)?),
    }
}

fn stands_for(alloc: Global, kind: TokenKind, bytes: &[u8]) -> Result<Vec<u8>, AllocError>
    ensures { IfOk result (λ v. v.items ≡ stands_for kind bytes.now) }
{
    match kind {
        TokenKind::Word => Ok(all_lowered(alloc, bytes)?),
        TokenKind::Quoted => Ok(inside(alloc, b'"', bytes)?),
        TokenKind::Text => Ok(inside(alloc, b'\'', bytes)?),
        TokenKind::Number => Ok(Vec::from_slice(alloc, bytes)?),
        TokenKind::Symbol => Ok(Vec::from_slice(alloc, bytes)?),
        TokenKind::Eol => Ok(Vec::from_slice(alloc, bytes)?),
    }
}

// The bytes as a text, which they are.
fn text_of(bytes: Vec<u8>) -> Result<Text, AllocError>
    requires { IsUtf8 bytes.items }
    ensures { IfOk result (λ text. text ≡ bytes.items) }
{
    Text::from_string(String::from_utf8(bytes).unwrap())
}

/// A token as it is written.
pub fn written(text: &str, token: Token) -> &str
    requires { IsSpan text.now token }
    ensures { result.now ≡ slice_range text.now token.start token.end }
{
    &text[token.start as usize..token.end as usize]
}

/// A token of a text with what it stands for.
pub fn lexeme_of(alloc: Global, text: &str, token: Token) -> Result<Lexeme, AllocError>
    requires { IsSpan text.now token }
    ensures { IfOk result (λ l. l ≡ lexeme_for text.now token) }
{
    let bytes = written(text, token).as_bytes();
    Ok(Lexeme {
        kind: token.kind,
        text: text_of(stands_for(alloc, token.kind, bytes)?)?,
    })
}

/// The tokens of a text, each with what it stands for.
pub fn lexemes(alloc: Global, text: &str, tokens: &[Token]) -> Result<Lexemes, AllocError>
    requires { AllByRecursion (IsSpan text.now) tokens.now }
    ensures { IfOk result (λ ls. ls ≡ map (lexeme_for text.now) tokens.now) }
{
    let mut list = Seq::new(alloc);
    let mut left = tokens;
    while let [token, after @ ..] = left {
        list.push(lexeme_of(alloc, text, *token)?)?;
        left = after;
    }
    Ok(list)
}
