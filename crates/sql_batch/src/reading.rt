// The queries of a batch read one after another, with the first fault of the first kind.
ghost use Rattle.std.specs.Prelude.{◌≡◌, ◌≢◌, ◌≤◌, ◌⊎◌, ◌++◌, ◌∷◌, [], List, length, IfOk, IfErr};
ghost use Rattle.std.specs.List.{AllByRecursion};
ghost use Rattle.sql_batch.specs.declared.cutting.Part.{Part};
ghost use Rattle.sql_select.specs.Statements.{IsStatementText, StatementFits, IsSqlFault};
ghost use Rattle.sql_select.specs.declared.fault.SqlFault.TheVariants.{NoMemory};
ghost use Rattle.sql_batch.specs.Cutting.{IsPart, alone};
ghost use Rattle.sql_batch.specs.Batches.{kind_of, AreQueries, AllFit, IsFirstFault};
ghost use Rattle.sql_batch.specs.Reading.{first_of, IsRead, outcome_of};

use crate::cutting::{Part, alone};
use access_schema::Schema;
use lists::Seq;
use meaning::types::Statement;
use sql_select::{SqlFault, read_select};
use std::alloc::Global;

/// The kind of the faults of tokens, which are the last that are looked for in the text as a whole.
pub const TOKENS: u32 = 2;

/// The kind of the faults of widths, which are looked for behind all limits.
pub const WIDTHS: u32 = 5;

/// The number of a fault's kind: kinds are looked for in this order.
pub fn kind_of(fault: &SqlFault) -> u32
    ensures { result ≡ kind_of fault.now }
{
    match fault {
        SqlFault::NoMemory => 0,
        SqlFault::NotUtf8 { .. } => 1,
        SqlFault::Lex(_) => TOKENS,
        SqlFault::Syntax { .. } | SqlFault::Unsupported { .. } => 3,
        SqlFault::OverLimit(_) => 4,
        SqlFault::WrongWidth { .. } => WIDTHS,
        SqlFault::UnknownName { .. } | SqlFault::Ambiguous { .. } => 6,
        SqlFault::WrongSort { .. } => 7,
    }
}

/// What was read of the parts so far: their statements, and the first fault of the first kind that one of them has.
#[derive(Drop)]
pub struct Progress {
    pub statements: Seq<Statement>,
    pub first: Option<SqlFault>,
}

// Of the fault so far and that of a later query, the one of the earlier kind, and the first where both are of one kind.
fn first_of(first: Option<SqlFault>, new: SqlFault) -> SqlFault
    ensures { result ≡ first_of first new }
{
    match first {
        None => new,
        Some(old) => {
            if kind_of(&old) <= kind_of(&new) {
                old
            } else {
                new
            }
        }
    }
}

fn with_statement(read: Progress, statement: Statement) -> Result<Progress, SqlFault>
    ensures new { IfOk result (λ new. new ≡ record { statements = read.statements ++ statement ∷ []; first = read.first }) }
    ensures memory { IfErr result (λ fault. fault ≡ NoMemory) }
{
    let mut read = read;
    read.statements.push(statement)?;
    Ok(read)
}

fn with_fault(read: Progress, fault: SqlFault) -> Result<Progress, SqlFault>
    ensures new { IfOk result (λ new. (kind_of fault ≢ 0) × (new ≡ record { statements = read.statements; first = Some (first_of read.first fault) })) }
    ensures memory { IfErr result (λ fault. fault ≡ NoMemory) }
{
    if kind_of(&fault) == 0 {
        return Err(SqlFault::NoMemory);
    }
    let Progress { statements, first } = read;
    let first = Some(first_of(first, fault));
    Ok(Progress { statements, first })
}

fn read_part(
    alloc: Global,
    bytes: &[u8],
    schema: &Schema,
    part: Part,
) -> Result<Statement, SqlFault>
    requires short { length bytes.now ≤ 65536 }
    requires stands { IsPart bytes.now part }
    ensures read { IfOk result (IsStatementText schema.now (alone bytes.now part)) }
    ensures fits { IfOk result (StatementFits schema.now) }
    ensures fault { IfErr result (IsSqlFault schema.now (alone bytes.now part)) }
{
    let text = alone(alloc, bytes, part)?;
    read_select(alloc, text.as_slice(), schema)
}

// Reads one part more.
fn with_part(
    alloc: Global,
    bytes: &[u8],
    schema: &Schema,
    read: Progress,
    part: Part,
) -> Result<Progress, SqlFault>
    requires short { length bytes.now ≤ 65536 }
    requires stands { IsPart bytes.now part }
    ensures more { IfOk result (λ new. (parts : List Part) → IsRead schema.now bytes.now parts read → IsRead schema.now bytes.now (parts ++ part ∷ []) new) }
    ensures memory { IfErr result (λ fault. fault ≡ NoMemory) }
{
    match read_part(alloc, bytes, schema, part) {
        Ok(statement) => with_statement(read, statement),
        Err(fault) => with_fault(read, fault),
    }
}

fn read_all(
    alloc: Global,
    bytes: &[u8],
    schema: &Schema,
    parts: &[Part],
) -> Result<Progress, SqlFault>
    requires short { length bytes.now ≤ 65536 }
    requires stand { AllByRecursion (IsPart bytes.now) parts.now }
    ensures read { IfOk result (IsRead schema.now bytes.now parts.now) }
    ensures memory { IfErr result (λ fault. fault ≡ NoMemory) }
{
    let mut read = Progress {
        statements: Seq::new(alloc),
        first: None,
    };
    let mut left = parts;
    while let [part, after @ ..] = left {
        match with_part(alloc, bytes, schema, read, *part) {
            Ok(new) => read = new,
            Err(fault) => return Err(fault),
        }
        left = after;
    }
    Ok(read)
}

/// The statements that the parts of the bytes are, or the first fault of the first kind that one of them has.
pub fn read_queries(
    alloc: Global,
    bytes: &[u8],
    schema: &Schema,
    parts: &[Part],
) -> Result<Seq<Statement>, SqlFault>
    requires short { length bytes.now ≤ 65536 }
    requires stand { AllByRecursion (IsPart bytes.now) parts.now }
    ensures read { IfOk result (AreQueries schema.now bytes.now parts.now) }
    ensures fits { IfOk result (AllFit schema.now) }
    ensures fault { IfErr result (λ fault. (fault ≡ NoMemory) ⊎ IsFirstFault schema.now bytes.now parts.now fault) }
{
    match read_all(alloc, bytes, schema, parts) {
        Ok(read) => outcome(read),
        Err(fault) => Err(fault),
    }
}

fn outcome(read: Progress) -> Result<Seq<Statement>, SqlFault>
    ensures { result ≡ outcome_of read }
{
    let Progress { statements, first } = read;
    match first {
        None => Ok(statements),
        Some(fault) => Err(fault),
    }
}
