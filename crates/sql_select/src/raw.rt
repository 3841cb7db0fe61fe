// From text to the parts of its selects.
ghost use Rattle.std.specs.Prelude.{◌≡◌, ◌≤◌, ◌-◌, length, drop, IfOk, IfErr, MatchOption};
ghost use Rattle.std.specs.List.{AllByRecursion};
ghost use Rattle.pq_text.specs.declared.token.Style.TheVariants.{Sql};
ghost use Rattle.pq_text.specs.Tokens.{Lexes};
ghost use Rattle.pq_text.specs.Spans.{IsSpan};
ghost use Rattle.sql_select.specs.Words.{pieces_of};
ghost use Rattle.sql_select.specs.Grammar.{IsText};
ghost use Rattle.sql_select.specs.Limits.{AreWithinLimits};
ghost use Rattle.sql_select.specs.Widths.{AreAlikeWide, IsFirstOtherWide};
ghost use Rattle.sql_select.specs.Statements.{AreTokens, IsWritten};
ghost use Rattle.sql_select.specs.Spanning.{SelectStands};
ghost use Rattle.sql_select.specs.Misfits.{IsTextFault};

use crate::fault::SqlFault;
use crate::limits::passed_limit;
use crate::misfit::misfit;
use crate::piece::RawSelect;
use crate::reading::{WalkFault, read_parts};
use crate::widths::{other_wide, select_offsets};
use lists::Seq;
use pq_text::{LexFault, Style, Token, Tokens, tokens};
use std::alloc::Global;

fn sql_tokens(alloc: Global, text: &str) -> Result<Tokens, SqlFault>
    requires { length text.now ≤ 65536 }
    ensures lexes { IfOk result (λ tokens. Lexes Sql text.now 0 tokens (length text.now)) }
    ensures spans { IfOk result (AllByRecursion (IsSpan text.now)) }
    ensures fault { IfErr result (IsTextFault text.now) }
{
    match tokens(alloc, text, Style::Sql) {
        Ok(tokens) => Ok(tokens),
        Err(LexFault::NoMemory) => Err(SqlFault::NoMemory),
        Err(LexFault::BadByte { offset }) => Err(SqlFault::Lex(LexFault::BadByte { offset })),
        Err(LexFault::OpenQuote { offset }) => Err(SqlFault::Lex(LexFault::OpenQuote { offset })),
    }
}

/// The parts of the selects that the text is, within the limits and of one width, or the text's fault.
pub fn read_raws(alloc: Global, text: &str) -> Result<Seq<RawSelect>, SqlFault>
    requires { length text.now ≤ 65536 }
    ensures written { IfOk result (IsWritten text.now) }
    ensures stand { IfOk result (AllByRecursion (SelectStands text.now)) }
    ensures within { IfOk result AreWithinLimits }
    ensures wide { IfOk result AreAlikeWide }
    ensures fault { IfErr result (IsTextFault text.now) }
{
    let tokens = sql_tokens(alloc, text)?;
    let tokens = tokens.as_slice();
    match read_parts(alloc, text, tokens) {
        Ok(raws) => sized(alloc, text, tokens, raws),
        Err(WalkFault::NoMemory) => Err(SqlFault::NoMemory),
        Err(WalkFault::At { left }) => {
            let after = last_tokens(tokens, left);
            Err(misfit(alloc, text, after))
        }
    }
}

// The selects, where they are within the limits and of one width.
fn sized(
    alloc: Global,
    text: &str,
    tokens: &[Token],
    raws: Seq<RawSelect>,
) -> Result<Seq<RawSelect>, SqlFault>
    requires are { AreTokens text.now tokens.now }
    requires spans { AllByRecursion (IsSpan text.now) tokens.now }
    requires reads { IsText raws (pieces_of text.now tokens.now) }
    ensures same { IfOk result (λ list. list ≡ raws) }
    ensures within { IfOk result AreWithinLimits }
    ensures wide { IfOk result AreAlikeWide }
    ensures fault { IfErr result (IsTextFault text.now) }
{
    match size_fault(alloc, text, tokens, raws.as_slice()) {
        None => Ok(raws),
        Some(fault) => {
            drop(raws);
            Err(fault)
        }
    }
}

// The fault of selects that pass a limit, or of which one is not as wide as the first.
fn size_fault(alloc: Global, text: &str, tokens: &[Token], raws: &[RawSelect]) -> Option<SqlFault>
    requires are { AreTokens text.now tokens.now }
    requires spans { AllByRecursion (IsSpan text.now) tokens.now }
    requires reads { IsText raws.now (pieces_of text.now tokens.now) }
    ensures { MatchOption result (AreWithinLimits raws.now × AreAlikeWide raws.now) (IsTextFault text.now) }
{
    if let Some(limit) = passed_limit(raws) {
        return Some(SqlFault::OverLimit(limit));
    }
    match other_wide(raws) {
        None => None,
        Some(number) => Some(width_fault(alloc, text, tokens, raws, number)),
    }
}

// The fault of the select of this number, at the word with which it begins.
fn width_fault(
    alloc: Global,
    text: &str,
    tokens: &[Token],
    raws: &[RawSelect],
    number: usize,
) -> SqlFault
    requires are { AreTokens text.now tokens.now }
    requires spans { AllByRecursion (IsSpan text.now) tokens.now }
    requires reads { IsText raws.now (pieces_of text.now tokens.now) }
    requires within { AreWithinLimits raws.now }
    requires other { IsFirstOtherWide raws.now number }
    ensures { IsTextFault text.now result }
{
    match select_offsets(alloc, text, tokens) {
        Ok(offsets) => SqlFault::WrongWidth {
            offset: offsets.as_slice()[number],
        },
        Err(_) => SqlFault::NoMemory,
    }
}

// The last tokens, so many as are given.
fn last_tokens(tokens: &[Token], left: usize) -> &[Token]
    requires { left ≤ length tokens.now }
    ensures { result.now ≡ drop (length tokens.now - left) tokens.now }
{
    let (_, after) = tokens.split_at(tokens.len() - left);
    after
}
