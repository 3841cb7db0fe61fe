// The lines of a text.
ghost use Rattle.std.specs.Prelude.{◌≡◌, ◌≤◌, ◌^◌, ◌++◌, ◌∷◌, [], length, IfOk, nat_eq, count_by};
ghost use Rattle.std.specs.List.{AllByRecursion};
ghost use Rattle.pq_text.specs.Spans.{IsSpan, InOrder};
ghost use Rattle.pq_text.specs.Lines.{feeds, number_at, cut, AreLines};
ghost use Rattle.pq_text.specs.declared.lexeme.TextLines.{TextLines};

use crate::lexeme::{Line, Lines, TextLines};
use crate::scan::front_tokens;
use crate::stand::lexeme_of;
use crate::token::{Stop, Style, Token, TokenKind};
use lists::Seq;
use std::alloc::{AllocError, Global};

/// The lines of a text in the style `Lines`, up to its end or its first lexical fault.
pub fn text_lines(alloc: Global, text: &str) -> Result<TextLines, AllocError>
    requires { length text.now ≤ 2 ^ 30 }
    ensures lines { IfOk result (λ told. AreLines text.now told) }

    // A text has these lines alone.
    ensures only { IfOk result (λ told. (other : TextLines) → AreLines text.now other → other ≡ told) }
{
    all_lines(alloc, text)
}

fn all_lines(alloc: Global, text: &str) -> Result<TextLines, AllocError>
    requires { length text.now ≤ 2 ^ 30 }
    ensures { IfOk result (λ told. AreLines text.now told) }
{
    let lexed = front_tokens(alloc, text, Style::Lines)?;
    let Cut { mut whole, last } = cut_lines(alloc, text, lexed.tokens.as_slice())?;
    if let Stop::End = lexed.stop {
        whole.push(last)?;
        return Ok(TextLines {
            whole,
            broken: None,
        });
    }
    Ok(TextLines {
        whole,
        broken: Some(last.number),
    })
}

/// The number of the line that would come next where a text ends early: one more than the number of its line feeds.
pub fn next_line(text: &str) -> u32
    requires { length text.now ≤ 2 ^ 30 }
    ensures { result ≡ number_at text.now (length text.now) }
{
    number_after(text.as_bytes(), 0, 1, text.len())
}

// The lines but for the last, and the last.
#[derive(Drop)]
struct Cut {
    whole: Lines,
    last: Line,
}

fn cut_lines(alloc: Global, text: &str, tokens: &[Token]) -> Result<Cut, AllocError>
    requires few { length text.now ≤ 2 ^ 30 }
    requires spans { AllByRecursion (IsSpan text.now) tokens.now }
    requires order { InOrder 0 tokens.now }
    ensures { IfOk result (λ c. cut text.now 1 tokens.now ≡ c.whole ++ c.last ∷ []) }
{
    let bytes = text.as_bytes();
    let mut whole = Seq::new(alloc);
    let mut current = Seq::new(alloc);
    let mut number = 1;
    let mut counted = 0;
    let mut here = 1;
    let mut left = tokens;
    while let [token, after @ ..] = left {
        let end = token.end as usize;
        here = number_after(bytes, counted, here, end);
        counted = end;
        if let TokenKind::Eol = token.kind {
            let line = Line {
                number,
                tokens: current,
            };
            whole.push(line)?;
            current = Seq::new(alloc);
            number = here;
        } else {
            current.push(lexeme_of(alloc, text, *token)?)?;
        }
        left = after;
    }
    let last = Line {
        number,
        tokens: current,
    };
    Ok(Cut { whole, last })
}

// The number of the line at a later place, by counting on from a place whose line is known.
fn number_after(text: &[u8], counted: usize, number: u32, place: usize) -> u32
    requires few { length text.now ≤ 2 ^ 30 }
    requires order { counted ≤ place }
    requires within { place ≤ length text.now }
    requires number { number ≡ number_at text.now counted }
    ensures { result ≡ number_at text.now place }
{
    number + feeds(&text[counted..place]) as u32
}

fn feeds(bytes: &[u8]) -> usize
    ensures feeds { result ≡ feeds bytes.now }
    ensures within { result ≤ length bytes.now }
{
    bytes.iter().filter(|b| **b == b'\n').count()
}
