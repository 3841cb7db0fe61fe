// The lines of sources and of rounds of requests.
ghost use Rattle.std.specs.Prelude.{◌≡◌, ◌++◌, ◌+◌, OnOk, IfOk, slice_get, codes, option_copied};
ghost use Rattle.std.specs.Fmt.{decimal};
ghost use Rattle.command_io.specs.FaultLines.{run_line as line_of_run, round_line as line_of_round, query_call_line as line_of_query_call, call_text, attach_line as line_of_attach, name_in, relation_name, column_in};

use crate::line::plain;
use lists::{Text, Texts};
use meaning::types::Relation;
use middleware::RunFault;
use pq_text::{print_name, print_number};
use source_trait::AttachFault;
use std::alloc::{AllocError, Global};

/// The line of a fault of the execution.
pub fn run_line(
    alloc: Global,
    fault: RunFault,
    relations: &[Relation],
) -> Result<Vec<u8>, AllocError>
    ensures { IfOk result (λ line. line.items ≡ line_of_run relations.now fault) }
{
    match fault {
        RunFault::NoMemory => plain(alloc, b"out of memory\n"),
        RunFault::NoSource { rel } => relation_line(
            alloc,
            b"source ",
            relations,
            rel,
            b": no source line\n",
        ),
        RunFault::UnknownKind { rel } => relation_line(
            alloc,
            b"source ",
            relations,
            rel,
            b": unknown kind\n",
        ),
        RunFault::Attach { rel, fault } => data_line(alloc, relations, rel, fault),
        RunFault::CallFailed { branch, step } => call_line(alloc, branch, step),
        RunFault::OverCalls { made, wanted, cap } => cap_line(alloc, made, wanted, cap),
        RunFault::BadNumber { rel, column } => bad_number_line(alloc, relations, rel, column),
    }
}

fn relation(relations: &[Relation], rel: u32) -> Option<&Relation>
    ensures { option_copied result ≡ slice_get relations.now rel }
{
    relations.get(rel as usize)
}

/// A line with the name of a relation between two texts.
pub fn relation_line(
    alloc: Global,
    first: &[u8],
    relations: &[Relation],
    rel: u32,
    last: &[u8],
) -> Result<Vec<u8>, AllocError>
    ensures { IfOk result (λ line. line.items ≡ first.now ++ relation_name relations.now rel ++ last.now) }
{
    let mut line = plain(alloc, first)?;
    push_relation(&mut line, relation(relations, rel))?;
    line.extend_from_slice(last)?;
    Ok(line)
}

fn push_relation(line: &mut Vec<u8>, relation: Option<&Relation>) -> Result<(), AllocError>
    ensures { OnOk result (line.new.items ≡ line.old.items ++ name_in (option_copied relation.entry)) }
{
    match relation {
        Some(relation) => print_name(line, &relation.name),
        None => Ok(()),
    }
}

fn data_line(
    alloc: Global,
    relations: &[Relation],
    rel: u32,
    fault: AttachFault,
) -> Result<Vec<u8>, AllocError>
    ensures { IfOk result (λ line. line.items ≡ codes "source " ++ relation_name relations.now rel ++ line_of_attach (slice_get relations.now rel) fault) }
{
    let mut line = relation_line(alloc, b"source ", relations, rel, b"")?;
    push_attach(&mut line, relation(relations, rel), fault)?;
    Ok(line)
}

// What is wrong with the data of a relation.
fn push_attach(
    line: &mut Vec<u8>,
    relation: Option<&Relation>,
    fault: AttachFault,
) -> Result<(), AllocError>
    ensures { OnOk result (line.new.items ≡ line.old.items ++ line_of_attach (option_copied relation.entry) fault) }
{
    match fault {
        AttachFault::Missing => line.extend_from_slice(b": missing\n"),
        AttachFault::Failed => line.extend_from_slice(b": failed\n"),
        AttachFault::BadHeader { column } => push_for_column(
            line,
            b": bad header for ",
            relation,
            column,
        ),
        AttachFault::BadRow { number } => push_row(line, b": bad row ", number),
        AttachFault::NotUtf8 { number } => push_row(line, b": not UTF-8 in row ", number),
        AttachFault::TooLarge => line.extend_from_slice(b": too large\n"),
        AttachFault::NoMemory => line.extend_from_slice(b"out of memory\n"),
    }
}

fn push_row(line: &mut Vec<u8>, what: &[u8], number: u32) -> Result<(), AllocError>
    ensures { OnOk result (line.new.items ≡ line.old.items ++ (what.now ++ decimal number ++ codes "\n")) }
{
    line.extend_from_slice(what)?;
    print_number(line, number as u64)?;
    line.extend_from_slice(b"\n")
}

// A text with the name of a column behind it, and the line feed.
fn push_for_column(
    line: &mut Vec<u8>,
    what: &[u8],
    relation: Option<&Relation>,
    column: u32,
) -> Result<(), AllocError>
    ensures { OnOk result (line.new.items ≡ line.old.items ++ (what.now ++ column_in (option_copied relation.entry) column ++ codes "\n")) }
{
    line.extend_from_slice(what)?;
    push_column(line, relation, column)?;
    line.extend_from_slice(b"\n")
}

fn push_column(
    line: &mut Vec<u8>,
    relation: Option<&Relation>,
    column: u32,
) -> Result<(), AllocError>
    ensures { OnOk result (line.new.items ≡ line.old.items ++ column_in (option_copied relation.entry) column) }
{
    let Some(relation) = relation else {
        return Ok(());
    };
    match column_name(&relation.columns, column) {
        Some(name) => print_name(line, name),
        None => Ok(()),
    }
}

fn column_name(columns: &Texts, column: u32) -> Option<&Text>
    ensures { option_copied result ≡ slice_get columns.now column }
{
    columns.get(column as usize)
}

fn bad_number_line(
    alloc: Global,
    relations: &[Relation],
    rel: u32,
    column: u32,
) -> Result<Vec<u8>, AllocError>
    ensures { IfOk result (λ line. line.items ≡ codes "source " ++ relation_name relations.now rel ++ codes ": bad number for "
        ++ column_in (slice_get relations.now rel) column ++ codes "\n") }
{
    let mut line = relation_line(alloc, b"source ", relations, rel, b"")?;
    push_for_column(
        &mut line,
        b": bad number for ",
        relation(relations, rel),
        column,
    )?;
    Ok(line)
}

// A failed call, and the line feed.
fn push_call(line: &mut Vec<u8>, branch: u32, step: u32) -> Result<(), AllocError>
    ensures { OnOk result (line.new.items ≡ line.old.items ++ call_text branch step) }
{
    line.extend_from_slice(b"call failed in branch ")?;
    print_number(line, branch as u64 + 1)?;
    line.extend_from_slice(b" step ")?;
    print_number(line, step as u64 + 1)?;
    line.extend_from_slice(b"\n")?;
    Ok(())
}

fn call_line(alloc: Global, branch: u32, step: u32) -> Result<Vec<u8>, AllocError>
    ensures { IfOk result (λ line. line.items ≡ call_text branch step) }
{
    let mut line = Vec::new(alloc);
    push_call(&mut line, branch, step)?;
    Ok(line)
}

/// The line of a failed call of a round.
pub fn round_line(alloc: Global, round: u32) -> Result<Vec<u8>, AllocError>
    ensures { IfOk result (λ line. line.items ≡ line_of_round round) }
{
    let mut line = plain(alloc, b"call failed in round ")?;
    print_number(&mut line, round as u64 + 1)?;
    line.extend_from_slice(b"\n")?;
    Ok(line)
}

/// The line of a failed call of a query of a batch.
pub fn query_call_line(
    alloc: Global,
    query: u32,
    branch: u32,
    step: u32,
) -> Result<Vec<u8>, AllocError>
    ensures { IfOk result (λ line. line.items ≡ line_of_query_call query branch step) }
{
    let mut line = plain(alloc, b"query ")?;
    print_number(&mut line, query as u64 + 1)?;
    line.extend_from_slice(b": ")?;
    push_call(&mut line, branch, step)?;
    Ok(line)
}

fn cap_line(alloc: Global, made: u32, wanted: u32, cap: u32) -> Result<Vec<u8>, AllocError>
    ensures { IfOk result (λ line. line.items ≡ codes "call cap: " ++ decimal made ++ codes " made, " ++ decimal wanted ++ codes " wanted, cap " ++ decimal cap ++ codes "\n") }
{
    let mut line = plain(alloc, b"call cap: ")?;
    print_number(&mut line, made as u64)?;
    line.extend_from_slice(b" made, ")?;
    print_number(&mut line, wanted as u64)?;
    line.extend_from_slice(b" wanted, cap ")?;
    print_number(&mut line, cap as u64)?;
    line.extend_from_slice(b"\n")?;
    Ok(line)
}
