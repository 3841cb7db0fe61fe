// The widths of the selects of a query.
ghost use Rattle.std.specs.Prelude.{◌≡◌, ◌≤◌, IfOk, MatchOption, length};
ghost use Rattle.std.specs.List.{AllByRecursion};
ghost use Rattle.pq_text.specs.Spans.{IsSpan};
ghost use Rattle.sql_select.specs.Widths.{AreAlikeWide, IsFirstOtherWide, begins_select, select_offsets, other_from, other_wide};

use crate::limits::MOST_SELECTS;
use crate::piece::{Piece, RawSelect};
use crate::words::piece_of;
use lists::Seq;
use pq_text::Token;
use std::alloc::{AllocError, Global};

// The number of the first of these selects that has not so many items. They count on from 1.
fn other_from(raws: &[RawSelect], width: usize) -> Option<usize>
    requires { length raws.now ≤ MOST_SELECTS }
    ensures { result ≡ other_from 1 width raws.now }
{
    let mut number = 1;
    let mut left = raws;
    while let [raw, rest @ ..] = left {
        if raw.items.len() != width {
            return Some(number);
        }
        number += 1;
        left = rest;
    }
    None
}

fn find_other(raws: &[RawSelect]) -> Option<usize>
    requires { length raws.now ≤ MOST_SELECTS }
    ensures { result ≡ other_wide raws.now }
{
    match raws {
        [] => None,
        [first, rest @ ..] => other_from(rest, first.items.len()),
    }
}

/// The number of the first select that has another number of items than the first one, counted from 0.
pub fn other_wide(raws: &[RawSelect]) -> Option<usize>
    requires { length raws.now ≤ MOST_SELECTS }
    ensures { MatchOption result (AreAlikeWide raws.now) (IsFirstOtherWide raws.now) }
{
    find_other(raws)
}

fn begins_select(text: &str, token: Token) -> bool
    requires { IsSpan text.now token }
    ensures { result ≡ begins_select text.now token }
{
    match piece_of(text, token) {
        Piece::Select => true,
        _ => false,
    }
}

/// Where the words `select` of a text with these tokens begin, in order.
pub fn select_offsets(alloc: Global, text: &str, tokens: &[Token]) -> Result<Seq<u32>, AllocError>
    requires { AllByRecursion (IsSpan text.now) tokens.now }
    ensures { IfOk result (λ offsets. offsets ≡ select_offsets text.now tokens.now) }
{
    let mut offsets = Seq::new(alloc);
    let mut left = tokens;
    while let [token, rest @ ..] = left {
        if begins_select(text, *token) {
            offsets.push(token.start)?;
        }
        left = rest;
    }
    Ok(offsets)
}
