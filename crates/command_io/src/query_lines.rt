// The lines of query texts.
ghost use Rattle.std.specs.Prelude.{◌≡◌, ◌++◌, IfOk, codes};
ghost use Rattle.std.specs.Fmt.{decimal};
ghost use Rattle.command_io.specs.FaultLines.{query_line as line_of_query, lex_line as line_of_lex, limit_name};

use crate::line::plain;
use crate::schema_lines::{byte_line, push_over};
use access_schema::Limit;
use lists::Text;
use pq_text::{LexFault, print_number};
use sql_select::SqlFault;
use std::alloc::{AllocError, Global};

/// The line of a fault of a query text.
pub fn query_line(alloc: Global, fault: &SqlFault) -> Result<Vec<u8>, AllocError>
    ensures { IfOk result (λ text. text.items ≡ line_of_query fault.now) }
{
    match fault {
        SqlFault::NoMemory => plain(alloc, b"out of memory\n"),
        SqlFault::NotUtf8 { offset } => byte_line(alloc, b"query: not UTF-8 at byte ", *offset),
        SqlFault::Syntax { offset } => byte_line(alloc, b"query: syntax at byte ", *offset),
        SqlFault::Unsupported { word, offset } => unsupported_line(alloc, word, *offset),
        SqlFault::UnknownName { offset } => byte_line(
            alloc,
            b"query: unknown name at byte ",
            *offset,
        ),
        SqlFault::Ambiguous { offset } => byte_line(
            alloc,
            b"query: ambiguous name at byte ",
            *offset,
        ),
        SqlFault::WrongWidth { offset } => byte_line(
            alloc,
            b"query: wrong width at byte ",
            *offset,
        ),
        SqlFault::OverLimit(limit) => limit_line(alloc, *limit),
        SqlFault::Lex(fault) => lex_line(alloc, *fault),
        SqlFault::WrongSort { offset } => byte_line(alloc, b"query: wrong sort at byte ", *offset),
    }
}

fn unsupported_line(alloc: Global, word: &Text, offset: u32) -> Result<Vec<u8>, AllocError>
    ensures { IfOk result (λ text. text.items ≡ codes "query: unsupported " ++ word.now ++ codes " at byte " ++ decimal offset ++ codes "\n") }
{
    let mut text = plain(alloc, b"query: unsupported ")?;
    text.extend_from_slice(word.as_bytes())?;
    text.extend_from_slice(b" at byte ")?;
    print_number(&mut text, offset as u64)?;
    text.extend_from_slice(b"\n")?;
    Ok(text)
}

fn limit_line(alloc: Global, limit: Limit) -> Result<Vec<u8>, AllocError>
    ensures { IfOk result (λ text. text.items ≡ codes "query: " ++ (codes "over the limit of " ++ limit_name limit) ++ codes "\n") }
{
    let mut text = plain(alloc, b"query: ")?;
    push_over(&mut text, limit)?;
    text.extend_from_slice(b"\n")?;
    Ok(text)
}

fn lex_line(alloc: Global, fault: LexFault) -> Result<Vec<u8>, AllocError>
    ensures { IfOk result (λ text. text.items ≡ line_of_lex fault) }
{
    match fault {
        LexFault::NoMemory => plain(alloc, b"out of memory\n"),
        LexFault::BadByte { offset } => byte_line(alloc, b"query: bad byte at byte ", offset),
        LexFault::OpenQuote { offset } => byte_line(alloc, b"query: open quote at byte ", offset),
    }
}
