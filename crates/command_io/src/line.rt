// The line of each stop.
ghost use Rattle.std.specs.Prelude.{◌≡◌, ◌++◌, [], IfOk, codes};
ghost use Rattle.command_io.specs.FaultLines.{fault_line, file_line as line_of_file, file_name};

use crate::query_lines::query_line;
use crate::schema_lines::{plan_line, schema_line};
use crate::source_lines::{query_call_line, relation_line, round_line, run_line};
use crate::stop::{Input, Stop};
use meaning::types::Relation;
use plan_form::illegal_text;
use source_trait::FileFault;
use std::alloc::{AllocError, Global};

/// The names of the files that the words name; a name that a command does not have is the empty text.
#[derive(Clone, Copy)]
pub struct FileNames<'a> {
    pub schema: &'a str,
    pub query: &'a str,
    pub plan: &'a str,
}

/// The line of a stop, where these are the schema's relations.
pub fn line_of(
    alloc: Global,
    stop: &Stop,
    files: FileNames<'_>,
    relations: &[Relation],
) -> Result<Vec<u8>, AllocError>
    ensures { IfOk result (λ line. line.items ≡ fault_line (record { schema = files.entry.schema.now; query = files.entry.query.now; plan = files.entry.plan.now; relations = relations.now }) stop.now) }
{
    match stop {
        Stop::Memory => plain(alloc, b"out of memory\n"),
        Stop::Words => plain(alloc, b"words: not understood\n"),
        Stop::File { input, fault } => file_line(alloc, named(*input, files), *fault),
        Stop::Schema(fault) => schema_line(alloc, *fault),
        Stop::Query(fault) => query_line(alloc, fault),
        Stop::Plan(fault) => plan_line(alloc, *fault),
        Stop::DecisionWrite => plain(alloc, b"write failed\n"),
        Stop::Illegal(fault) => Ok(illegal_text(alloc, fault)?.into_vec()),
        Stop::Run(fault) => run_line(alloc, *fault, relations),
        Stop::RoundFailed { round } => round_line(alloc, *round),
        Stop::QueryCall {
            query,
            branch,
            step,
        } => query_call_line(alloc, *query, *branch, *step),
        Stop::WholeFailed { rel } => relation_line(
            alloc,
            b"call failed on ",
            relations,
            *rel,
            b"\n",
        ),
        Stop::NotMet { line } => plain(alloc, line.as_slice()),
        Stop::ResultWrite => plain(alloc, b"write failed\n"),
    }
}

/// A line that is always the same.
pub fn plain(alloc: Global, text: &[u8]) -> Result<Vec<u8>, AllocError>
    ensures { IfOk result (λ line. line.items ≡ text.now) }
{
    let mut line = Vec::new(alloc);
    line.extend_from_slice(text)?;
    Ok(line)
}

fn named<'a>(input: Input, files: FileNames<'a>) -> &'a str
    ensures { result.now ≡ file_name (record { schema = files.entry.schema.now; query = files.entry.query.now; plan = files.entry.plan.now; relations = [] }) input }
{
    match input {
        Input::Schema => files.schema,
        Input::Query => files.query,
        Input::Plan => files.plan,
    }
}

fn file_line(alloc: Global, name: &str, fault: FileFault) -> Result<Vec<u8>, AllocError>
    ensures { IfOk result (λ line. line.items ≡ line_of_file name.now fault) }
{
    match fault {
        FileFault::Missing => read_line(alloc, name, b": missing\n"),
        FileFault::TooLarge => read_line(alloc, name, b": too large\n"),
        FileFault::Failed => read_line(alloc, name, b": failed\n"),
        FileFault::NoMemory => plain(alloc, b"out of memory\n"),
    }
}

// What became of reading the file of this name.
fn read_line(alloc: Global, name: &str, what: &[u8]) -> Result<Vec<u8>, AllocError>
    ensures { IfOk result (λ line. line.items ≡ codes "read " ++ name.now ++ what.now) }
{
    let mut line = plain(alloc, b"read ")?;
    line.extend_from_slice(name.as_bytes())?;
    line.extend_from_slice(what)?;
    Ok(line)
}
