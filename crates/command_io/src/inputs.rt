// The texts of the files that a command names.
ghost use Rattle.std.specs.Prelude.{◌≡◌, ◌≤◌, Some, IfOk, IfErr, IfSome, length};
ghost use Rattle.source_trait.specs.Causes.{Rose};
ghost use Rattle.source_trait.specs.Outside.{bytes_of};
ghost use Rattle.command_io.specs.Inputs.{has_mark, without_mark as text_behind, SchemaIsRead, QueryIsRead, BatchIsRead, PlanIsRead, SchemaStop, QueryStop, BatchStop, PlanStop, TextsStop, FileStop};
ghost use Rattle.sql_select.specs.Statements.{StatementFits};
ghost use Rattle.sql_batch.specs.Batches.{AllFit};
ghost use Rattle.plan_form.specs.Fitting.{PlanFits};

use crate::stop::{Input, Stop};
use access_schema::Schema;
use lists::{Bytes, Seq, Text};
use meaning::types::{Plan, Statement};
use plan_form::{PlanReadFault, read_plan};
use source_trait::{FileFault, Files};
use sql_batch::{MOST_STATEMENTS, read_batch};
use sql_select::{SqlFault, read_select};
use std::alloc::Global;
use tgd_reader::{ReadFault, read_schema};

/// The longest schema file, in bytes.
pub const SCHEMA_LIMIT: u64 = 1048576;

/// The longest query file, in bytes.
pub const QUERY_LIMIT: u64 = 65536;

/// The longest plan file, in bytes.
pub const PLAN_LIMIT: u64 = 1048576;

// Whether the bytes begin with a byte order mark.
fn has_mark(bytes: &[u8]) -> bool
    ensures { result ≡ has_mark bytes.now }
{
    match bytes {
        [first, second, third, ..] => *first == 239 && (*second == 187 && *third == 191),
        _ => false,
    }
}

// The bytes behind the byte order mark, if they begin with one.
fn without_mark(bytes: &[u8]) -> &[u8]
    ensures { result.now ≡ text_behind bytes.now }
{
    if has_mark(bytes) { &bytes[3..] } else { bytes }
}

/// The schema that the file's text is. Stops where the file cannot be read or is too long, and where its text is none, with its fault.
pub fn schema_of<F: Files>(alloc: Global, files: &mut F, name: &Text) -> Result<Schema, Stop>
    ensures read { IfOk result (SchemaIsRead (F.contents files.old) name.now) }
    ensures cause { IfErr result (SchemaStop (F.contents files.old) name.now (Rose (F.faults files.old) (F.faults files.new))) }
    ensures later { F.faults files.old ≤ F.faults files.new }
    ensures same { F.contents files.new ≡ F.contents files.old }
{
    let bytes = read_file(alloc, files, name, SCHEMA_LIMIT, Input::Schema)?;
    match read_schema(alloc, without_mark(bytes.as_slice())) {
        Ok(schema) => Ok(schema),
        Err(fault) => match fault {
            ReadFault::NoMemory => Err(Stop::Memory),
            other => Err(Stop::Schema(other)),
        },
    }
}

/// The statement that the file's text is over the schema. Stops as `schema_of` does.
pub fn statement_of<F: Files>(
    alloc: Global,
    files: &mut F,
    name: &Text,
    schema: &Schema,
) -> Result<Statement, Stop>
    ensures read { IfOk result (QueryIsRead (F.contents files.old) name.now schema.now) }
    ensures fits { IfOk result (StatementFits schema.now) }
    ensures cause { IfErr result (QueryStop (F.contents files.old) name.now schema.now (Rose (F.faults files.old) (F.faults files.new))) }
    ensures later { F.faults files.old ≤ F.faults files.new }
    ensures same { F.contents files.new ≡ F.contents files.old }
{
    let bytes = read_file(alloc, files, name, QUERY_LIMIT, Input::Query)?;
    match read_select(alloc, without_mark(bytes.as_slice()), schema) {
        Ok(statement) => Ok(statement),
        Err(fault) => match fault {
            SqlFault::NoMemory => Err(Stop::Memory),
            other => Err(Stop::Query(other)),
        },
    }
}

/// The statements that the file's text is over the schema, one to 64 of them. Stops as `schema_of` does.
pub fn statements_of<F: Files>(
    alloc: Global,
    files: &mut F,
    name: &Text,
    schema: &Schema,
) -> Result<Seq<Statement>, Stop>
    ensures read { IfOk result (BatchIsRead (F.contents files.old) name.now schema.now) }
    ensures fits { IfOk result (AllFit schema.now) }
    ensures some { IfOk result (λ statements. (1 ≤ length statements) × (length statements ≤ MOST_STATEMENTS)) }
    ensures cause { IfErr result (BatchStop (F.contents files.old) name.now schema.now (Rose (F.faults files.old) (F.faults files.new))) }
    ensures later { F.faults files.old ≤ F.faults files.new }
    ensures same { F.contents files.new ≡ F.contents files.old }
{
    let bytes = read_file(alloc, files, name, QUERY_LIMIT, Input::Query)?;
    match read_batch(alloc, without_mark(bytes.as_slice()), schema) {
        Ok(statements) => Ok(statements),
        Err(fault) => match fault {
            SqlFault::NoMemory => Err(Stop::Memory),
            other => Err(Stop::Query(other)),
        },
    }
}

/// The schema, and the statement over it, that the texts of the two files are. Stops as `schema_of` does, first for the schema.
pub fn read_texts<F: Files>(
    alloc: Global,
    files: &mut F,
    schema_name: &Text,
    query_name: &Text,
) -> Result<(Schema, Statement), Stop>
    ensures schema { IfOk result (λ both. SchemaIsRead (F.contents files.old) schema_name.now both.0) }
    ensures statement { IfOk result (λ both. QueryIsRead (F.contents files.old) query_name.now both.0 both.1) }
    ensures fits { IfOk result (λ both. StatementFits both.0 both.1) }
    ensures cause { IfErr result (TextsStop (F.contents files.old) schema_name.now query_name.now (Rose (F.faults files.old) (F.faults files.new))) }
    ensures later { F.faults files.old ≤ F.faults files.new }
    ensures same { F.contents files.new ≡ F.contents files.old }
{
    let schema = schema_of(alloc, files, schema_name)?;
    let statement = statement_of(alloc, files, query_name, &schema)?;
    Ok((schema, statement))
}

/// The plan that the file's text is. Stops as `schema_of` does.
pub fn plan_of_file<F: Files>(alloc: Global, files: &mut F, name: &Text) -> Result<Plan, Stop>
    ensures read { IfOk result (PlanIsRead (F.contents files.old) name.now) }
    ensures fits { IfOk result PlanFits }
    ensures cause { IfErr result (PlanStop (F.contents files.old) name.now (Rose (F.faults files.old) (F.faults files.new))) }
    ensures later { F.faults files.old ≤ F.faults files.new }
    ensures same { F.contents files.new ≡ F.contents files.old }
{
    let bytes = read_file(alloc, files, name, PLAN_LIMIT, Input::Plan)?;
    match read_plan(alloc, without_mark(bytes.as_slice())) {
        Ok(plan) => Ok(plan),
        Err(fault) => match fault {
            PlanReadFault::NoMemory => Err(Stop::Memory),
            other => Err(Stop::Plan(other)),
        },
    }
}

// The bytes of a file, or the fault for which it is not read.
fn read_file<F: Files>(
    alloc: Global,
    files: &mut F,
    name: &Text,
    limit: u64,
    input: Input,
) -> Result<Bytes, Stop>
    ensures size { IfOk result (λ bytes. length bytes ≤ limit) }
    ensures bytes { IfOk result (λ bytes. IfSome (F.contents files.old) (λ all. bytes_of all name.now ≡ Some bytes)) }
    ensures cause { IfErr result (FileStop (F.contents files.old) name.now limit (Rose (F.faults files.old) (F.faults files.new)) input) }
    ensures later { F.faults files.old ≤ F.faults files.new }
    ensures same { F.contents files.new ≡ F.contents files.old }
{
    match files.read(alloc, name, limit) {
        Ok(bytes) => Ok(bytes),
        Err(fault) => match fault {
            FileFault::NoMemory => Err(Stop::Memory),
            fault => Err(Stop::File { input, fault }),
        },
    }
}
