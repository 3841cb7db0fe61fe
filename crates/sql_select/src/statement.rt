// From bytes to a statement over a schema.
ghost use Rattle.std.specs.Prelude.{◌≡◌, ◌≤◌, ◌<◌, ◌^◌, length, IfOk, IfErr, MatchResult};
ghost use Rattle.std.specs.List.{AllByRecursion, AllZip};
ghost use Rattle.meaning.specs.declared.types.Statement.{Statement};
ghost use Rattle.access_schema.specs.Meaning.{meaning_of};
ghost use Rattle.sql_select.specs.declared.fault.SqlFault.TheVariants.{NoMemory};
ghost use Rattle.sql_select.specs.Limits.{IsWithinLimits};
ghost use Rattle.sql_select.specs.Naming.{named_select};
ghost use Rattle.sql_select.specs.Resolving.{AreNarrow};
ghost use Rattle.sql_select.specs.Select.{IsNamesFault, IsNamingFault};
ghost use Rattle.sql_select.specs.Sorts.{SelectsAreSorted, HaveAllConditions, IsSortFault};
ghost use Rattle.sql_select.specs.Spanning.{SelectStands};
ghost use Rattle.sql_select.specs.Statements.{Means, IsStatementText, StatementFits, IsSqlFault, result_names};

use crate::fault::SqlFault;
use crate::naming::named_select;
use crate::piece::RawSelect;
use crate::raw::read_raws;
use crate::resolve::resolve_select;
use crate::sorts::unsorted_offset;
use access_schema::Schema;
use lists::{Seq, Texts};
use meaning::types::{Relation, Select, Statement};
use pq_text::read_utf8;
use std::alloc::Global;

/// The statement over the schema that the bytes are, or the bytes' fault.
pub fn read_select(alloc: Global, bytes: &[u8], schema: &Schema) -> Result<Statement, SqlFault>
    requires { length bytes.now ≤ 65536 }
    ensures read { IfOk result (IsStatementText schema.now bytes.now) }

    // Bytes that are a statement are read as it, unless memory runs out.
    ensures only { (statement : Statement) → IsStatementText schema.now bytes.now statement
        → MatchResult result (λ found. found ≡ statement) (λ fault. fault ≡ NoMemory) }
    ensures fits { IfOk result (StatementFits schema.now) }
    ensures fault { IfErr result (IsSqlFault schema.now bytes.now) }
{
    read_bytes(alloc, bytes, schema)
}

fn read_bytes(alloc: Global, bytes: &[u8], schema: &Schema) -> Result<Statement, SqlFault>
    requires { length bytes.now ≤ 65536 }
    ensures read { IfOk result (IsStatementText schema.now bytes.now) }
    ensures fault { IfErr result (IsSqlFault schema.now bytes.now) }
{
    match read_utf8(bytes) {
        Ok(text) => read_text(alloc, text, schema),
        Err(offset) => Err(SqlFault::NotUtf8 { offset }),
    }
}

fn read_text(alloc: Global, text: &str, schema: &Schema) -> Result<Statement, SqlFault>
    requires { length text.now ≤ 65536 }
    ensures read { IfOk result (IsStatementText schema.now text.now) }
    ensures fault { IfErr result (IsSqlFault schema.now text.now) }
{
    let raws = read_raws(alloc, text)?;
    let parts = raws.as_slice();
    match resolve_selects(alloc, text, schema.relations.as_slice(), parts) {
        Ok(selects) => sorted_statement(schema, parts, selects),
        Err(fault) => Err(fault),
    }
}

// The statement of these selects, or the fault of their first condition that is not sorted.
fn sorted_statement(
    schema: &Schema,
    raws: &[RawSelect],
    selects: Seq<Select>,
) -> Result<Statement, SqlFault>
    requires { HaveAllConditions raws.now selects }
    ensures same { IfOk result (λ statement. statement.selects ≡ selects) }
    ensures sorted { IfOk result (λ statement. SelectsAreSorted (meaning_of schema.now) selects) }
    ensures fault { IfErr result (IsSortFault (meaning_of schema.now) raws.now selects) }
{
    match unsorted_offset(schema, raws, selects.as_slice()) {
        None => Ok(Statement { selects }),
        Some(offset) => {
            drop(selects);
            Err(SqlFault::WrongSort { offset })
        }
    }
}

// The select that the parts stand for, or the fault of their names.
fn resolve_raw(
    alloc: Global,
    text: &str,
    relations: &[Relation],
    raw: &RawSelect,
) -> Result<Select, SqlFault>
    requires few { length relations.now < 2 ^ 32 }
    requires narrow { AreNarrow relations.now }
    requires stands { SelectStands text.now raw.now }
    requires within { IsWithinLimits raw.now }
    ensures means { IfOk result (Means relations.now text.now raw.now) }
    ensures fault { IfErr result (IsNamingFault relations.now (named_select text.now raw.now)) }
{
    let parts = named_select(alloc, text, raw)?;
    resolve_select(alloc, relations, &parts)
}

// The selects that these parts stand for, or the fault of the first of them whose names have one.
fn resolve_selects(
    alloc: Global,
    text: &str,
    relations: &[Relation],
    raws: &[RawSelect],
) -> Result<Seq<Select>, SqlFault>
    requires few { length relations.now < 2 ^ 32 }
    requires narrow { AreNarrow relations.now }
    requires stand { AllByRecursion (SelectStands text.now) raws.now }
    requires within { AllByRecursion IsWithinLimits raws.now }
    ensures means { IfOk result (AllZip (Means relations.now text.now) raws.now) }
    ensures fault { IfErr result (IsNamesFault relations.now text.now raws.now) }
{
    let mut selects = Seq::new(alloc);
    let mut left = raws;
    while let [raw, rest @ ..] = left {
        match resolve_raw(alloc, text, relations, raw) {
            Ok(select) => selects.push(select)?,
            Err(fault) => return Err(fault),
        }
        left = rest;
    }
    Ok(selects)
}

/// The names of the columns of the statement's rows: those of its first select. Takes no memory.
pub fn result_names(statement: &Statement) -> &Texts
    requires { 1 ≤ length statement.now.selects }
    ensures { result.now ≡ result_names statement.now.selects }
{
    &statement.selects.as_slice()[0].names
}
