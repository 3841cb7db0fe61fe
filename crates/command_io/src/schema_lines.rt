// The lines of schema texts and plan texts.
ghost use Rattle.std.specs.Prelude.{◌≡◌, ◌++◌, IfOk, OnOk, codes};
ghost use Rattle.std.specs.Fmt.{decimal};
ghost use Rattle.command_io.specs.FaultLines.{schema_line as line_of_schema, plan_line as line_of_plan, schema_what, limit_name};

use crate::line::plain;
use access_schema::{Limit, SchemaFault};
use plan_form::PlanReadFault;
use pq_text::print_number;
use std::alloc::{AllocError, Global};
use tgd_reader::ReadFault;

/// The line of a fault of a schema text.
pub fn schema_line(alloc: Global, fault: ReadFault) -> Result<Vec<u8>, AllocError>
    ensures { IfOk result (λ text. text.items ≡ line_of_schema fault) }
{
    match fault {
        ReadFault::NoMemory => plain(alloc, b"out of memory\n"),
        ReadFault::NotUtf8 { offset } => byte_line(alloc, b"schema: not UTF-8 at byte ", offset),
        ReadFault::Line { line } => number_line(
            alloc,
            b"schema: line ",
            line,
            b" is not a declaration\n",
        ),
        ReadFault::Schema { line, fault } => part_line(alloc, line, fault),
    }
}

/// The line of a fault of a plan text.
pub fn plan_line(alloc: Global, fault: PlanReadFault) -> Result<Vec<u8>, AllocError>
    ensures { IfOk result (λ text. text.items ≡ line_of_plan fault) }
{
    match fault {
        PlanReadFault::NoMemory => plain(alloc, b"out of memory\n"),
        PlanReadFault::NotUtf8 { offset } => byte_line(alloc, b"plan: not UTF-8 at byte ", offset),
        PlanReadFault::Line { line } => number_line(
            alloc,
            b"plan: line ",
            line,
            b" does not fit\n",
        ),
    }
}

/// A line that ends with the number of a byte.
pub fn byte_line(alloc: Global, first: &[u8], offset: u32) -> Result<Vec<u8>, AllocError>
    ensures { IfOk result (λ text. text.items ≡ first.now ++ decimal offset ++ codes "\n") }
{
    number_line(alloc, first, offset, b"\n")
}

/// A line with a number between two texts.
pub fn number_line(
    alloc: Global,
    first: &[u8],
    number: u32,
    last: &[u8],
) -> Result<Vec<u8>, AllocError>
    ensures { IfOk result (λ text. text.items ≡ first.now ++ decimal number ++ last.now) }
{
    let mut text = plain(alloc, first)?;
    print_number(&mut text, number as u64)?;
    text.extend_from_slice(last)?;
    Ok(text)
}

// The line of a faulty part.
fn part_line(alloc: Global, line: u32, fault: SchemaFault) -> Result<Vec<u8>, AllocError>
    ensures { IfOk result (λ text. text.items ≡ codes "schema: line " ++ decimal line ++ codes ": " ++ schema_what fault ++ codes "\n") }
{
    let mut text = number_line(alloc, b"schema: line ", line, b": ")?;
    push_what(&mut text, fault)?;
    text.extend_from_slice(b"\n")?;
    Ok(text)
}

fn push_what(text: &mut Vec<u8>, fault: SchemaFault) -> Result<(), AllocError>
    ensures { OnOk result (text.new.items ≡ text.old.items ++ schema_what fault) }
{
    match fault {
        SchemaFault::DuplicateName => text.extend_from_slice(b"duplicate name"),
        SchemaFault::UnknownRelation => text.extend_from_slice(b"unknown relation"),
        SchemaFault::WrongArity => text.extend_from_slice(b"wrong arity"),
        SchemaFault::UnknownColumn => text.extend_from_slice(b"unknown column"),
        SchemaFault::OverLimit(limit) => push_over(text, limit),
        SchemaFault::Recursive => text.extend_from_slice(b"recursive rules"),
        SchemaFault::WrongSort => text.extend_from_slice(b"wrong sort"),
    }
}

/// What is said where a limit is passed.
pub fn push_over(text: &mut Vec<u8>, limit: Limit) -> Result<(), AllocError>
    ensures { OnOk result (text.new.items ≡ text.old.items ++ (codes "over the limit of " ++ limit_name limit)) }
{
    text.extend_from_slice(b"over the limit of ")?;
    push_limit(text, limit)
}

fn push_limit(text: &mut Vec<u8>, limit: Limit) -> Result<(), AllocError>
    ensures { OnOk result (text.new.items ≡ text.old.items ++ limit_name limit) }
{
    match limit {
        Limit::Relations => text.extend_from_slice(b"relations"),
        Limit::Methods => text.extend_from_slice(b"methods"),
        Limit::Rules => text.extend_from_slice(b"rules"),
        Limit::Columns => text.extend_from_slice(b"columns"),
        Limit::BodyAtoms => text.extend_from_slice(b"body atoms"),
        Limit::HeadAtoms => text.extend_from_slice(b"head atoms"),
        Limit::Variables => text.extend_from_slice(b"variables"),
        Limit::Cost => text.extend_from_slice(b"cost"),
        Limit::Constants => text.extend_from_slice(b"constants"),
        Limit::Froms => text.extend_from_slice(b"from items"),
        Limit::Conditions => text.extend_from_slice(b"conditions"),
        Limit::Items => text.extend_from_slice(b"items"),
        Limit::Statements => text.extend_from_slice(b"statements"),
        Limit::Selects => text.extend_from_slice(b"selects"),
    }
}
