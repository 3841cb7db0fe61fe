// From bytes to the statements of a batch.
ghost use Rattle.std.specs.Prelude.{◌≡◌, ◌≤◌, ◌⊎◌, List, length, IfOk, IfErr, MatchResult};
ghost use Rattle.std.specs.List.{AllByRecursion};
ghost use Rattle.pq_text.specs.Spans.{IsSpan, InOrder};
ghost use Rattle.meaning.specs.declared.types.Statement.{Statement};
ghost use Rattle.sql_select.specs.Statements.{AreTokens};
ghost use Rattle.sql_select.specs.declared.fault.SqlFault.TheVariants.{NoMemory};
ghost use Rattle.sql_batch.specs.Cutting.{IsPart};
ghost use Rattle.sql_batch.specs.Batches.{AreQueries, AllFit, IsBatchText, IsBatchFault, IsFaultOfQueries};
ghost use Rattle.sql_batch.specs.Reading.{are_too_many, IsTextFault};

use crate::cutting::{Part, parts_of};
use crate::reading::{WIDTHS, kind_of, read_queries};
use access_schema::{Limit, Schema};
use lists::Seq;
use meaning::types::Statement;
use pq_text::{LexFault, Style, Token, Tokens, read_utf8, tokens};
use sql_select::SqlFault;
use std::alloc::Global;

/// The most statements of a batch, which has at least one.
pub const MOST_STATEMENTS: usize = 64;

/// The statements over the schema that the bytes are, one to 64 of them, or the bytes' fault. Offsets are those of the whole text.
pub fn read_batch(alloc: Global, bytes: &[u8], schema: &Schema) -> Result<Seq<Statement>, SqlFault>
    requires { length bytes.now ≤ 65536 }
    ensures read { IfOk result (IsBatchText schema.now bytes.now) }

    // Bytes that are a batch are read as it, unless memory runs out.
    ensures only { (statements : List Statement) → IsBatchText schema.now bytes.now statements
        → MatchResult result (λ found. found ≡ statements) (λ fault. fault ≡ NoMemory) }
    ensures fits { IfOk result (AllFit schema.now) }
    ensures some { IfOk result (λ list. (1 ≤ length list) × (length list ≤ MOST_STATEMENTS)) }
    ensures fault { IfErr result (IsBatchFault schema.now bytes.now) }
{
    read_bytes(alloc, bytes, schema)
}

fn read_bytes(alloc: Global, bytes: &[u8], schema: &Schema) -> Result<Seq<Statement>, SqlFault>
    requires { length bytes.now ≤ 65536 }
    ensures read { IfOk result (IsBatchText schema.now bytes.now) }
    ensures fits { IfOk result (AllFit schema.now) }
    ensures fault { IfErr result (IsBatchFault schema.now bytes.now) }
{
    match read_utf8(bytes) {
        Ok(text) => read_text(alloc, text, schema),
        Err(offset) => Err(SqlFault::NotUtf8 { offset }),
    }
}

fn sql_tokens(alloc: Global, text: &str) -> Result<Tokens, SqlFault>
    requires { length text.now ≤ 65536 }
    ensures are { IfOk result (AreTokens text.now) }
    ensures spans { IfOk result (AllByRecursion (IsSpan text.now)) }
    ensures order { IfOk result (InOrder 0) }
    ensures fault { IfErr result (IsTextFault text.now) }
{
    match tokens(alloc, text, Style::Sql) {
        Ok(tokens) => Ok(tokens),
        Err(LexFault::NoMemory) => Err(SqlFault::NoMemory),
        Err(LexFault::BadByte { offset }) => Err(SqlFault::Lex(LexFault::BadByte { offset })),
        Err(LexFault::OpenQuote { offset }) => Err(SqlFault::Lex(LexFault::OpenQuote { offset })),
    }
}

fn read_text(alloc: Global, text: &str, schema: &Schema) -> Result<Seq<Statement>, SqlFault>
    requires { length text.now ≤ 65536 }
    ensures read { IfOk result (IsBatchText schema.now text.now) }
    ensures fits { IfOk result (AllFit schema.now) }
    ensures fault { IfErr result (IsBatchFault schema.now text.now) }
{
    match sql_tokens(alloc, text) {
        Ok(tokens) => read_tokens(alloc, text, schema, tokens.as_slice()),
        Err(fault) => Err(fault),
    }
}

fn read_tokens(
    alloc: Global,
    text: &str,
    schema: &Schema,
    tokens: &[Token],
) -> Result<Seq<Statement>, SqlFault>
    requires short { length text.now ≤ 65536 }
    requires are { AreTokens text.now tokens.now }
    requires spans { AllByRecursion (IsSpan text.now) tokens.now }
    requires order { InOrder 0 tokens.now }
    ensures read { IfOk result (IsBatchText schema.now text.now) }
    ensures fits { IfOk result (AllFit schema.now) }
    ensures fault { IfErr result (IsBatchFault schema.now text.now) }
{
    match parts_of(alloc, text, tokens) {
        Ok(parts) => read_parts(alloc, text.as_bytes(), schema, parts.as_slice()),
        Err(_) => Err(SqlFault::NoMemory),
    }
}

fn read_parts(
    alloc: Global,
    bytes: &[u8],
    schema: &Schema,
    parts: &[Part],
) -> Result<Seq<Statement>, SqlFault>
    requires short { length bytes.now ≤ 65536 }
    requires stand { AllByRecursion (IsPart bytes.now) parts.now }
    ensures read { IfOk result (AreQueries schema.now bytes.now parts.now) }
    ensures few { IfOk result (λ list. length list ≤ MOST_STATEMENTS) }
    ensures fits { IfOk result (AllFit schema.now) }
    ensures fault { IfErr result (λ fault. (fault ≡ NoMemory) ⊎ IsFaultOfQueries schema.now bytes.now parts.now fault) }
{
    let read = read_queries(alloc, bytes, schema, parts);
    if are_too_many(parts.len(), &read) {
        drop(read);
        return Err(SqlFault::OverLimit(Limit::Statements));
    }
    read
}

// Whether there are too many parts, and none has a fault of a kind that is looked for before that.
fn are_too_many(count: usize, read: &Result<Seq<Statement>, SqlFault>) -> bool
    ensures { result ≡ are_too_many count read.now }
{
    match read {
        Ok(_) => count > MOST_STATEMENTS,
        Err(fault) => WIDTHS <= kind_of(fault) && count > MOST_STATEMENTS,
    }
}
