// The text of a batch cut into the texts of its queries.
ghost use Rattle.std.specs.Prelude.{◌≡◌, ◌≤◌, ◌<◌, ◌^◌, ◌++◌, [], IfOk, length, replicate, slice_range};
ghost use Rattle.std.specs.List.{AllByRecursion};
ghost use Rattle.pq_text.specs.Spans.{IsSpan, InOrder};
ghost use Rattle.sql_batch.specs.Cutting.{is_semicolon, ends_query, cut, IsPart, alone};

use lists::Seq;
use pq_text::{Token, TokenKind, written};
use std::alloc::{AllocError, Global};

/// The bytes of a text from one place up to another, where a query stands.
#[derive(Clone, Copy)]
pub struct Part {
    pub from: usize,
    pub to: usize,
}

fn is_semicolon(text: &str, token: Token) -> bool
    requires { IsSpan text.now token }
    ensures { result ≡ is_semicolon text.now token }
{
    match token.kind {
        TokenKind::Symbol => *written(text, token).as_bytes() == *b";".as_slice(),
        _ => false,
    }
}

// Whether a query ends with this token, since others stand behind it.
fn ends_query(text: &str, token: Token, after: &[Token]) -> bool
    requires { IsSpan text.now token }
    ensures { result ≡ ends_query text.now token after.now }
{
    !after.is_empty() && is_semicolon(text, token)
}

/// The parts of the text of which each is to be a query: they end behind the semicolons that have tokens behind them.
pub fn parts_of(alloc: Global, text: &str, tokens: &[Token]) -> Result<Seq<Part>, AllocError>
    requires short { length text.now < 2 ^ 32 }
    requires spans { AllByRecursion (IsSpan text.now) tokens.now }
    requires order { InOrder 0 tokens.now }
    ensures parts { IfOk result (λ parts. parts ≡ cut text.now tokens.now) }
    ensures stand { IfOk result (AllByRecursion (IsPart text.now)) }
{
    let mut parts = Seq::new(alloc);
    let mut from = 0;
    let mut left = tokens;
    while let [token, after @ ..] = left {
        if ends_query(text, *token, after) {
            let to = token.end as usize;
            parts.push(Part { from, to })?;
            from = to;
        }
        left = after;
    }
    let to = text.len();
    parts.push(Part { from, to })?;
    Ok(parts)
}

/// The part of the bytes behind blanks in place of what stands before it, so that each of its bytes keeps its place.
pub fn alone(alloc: Global, bytes: &[u8], part: Part) -> Result<Vec<u8>, AllocError>
    requires { IsPart bytes.now part }
    ensures { IfOk result (λ text. text.items ≡ alone bytes.now part) }
{
    let mut text = vec![in alloc; b' '; part.from]?;
    text.extend_from_slice(&bytes[part.from..part.to])?;
    Ok(text)
}
