// A query, from the texts of its files to its answers on the facts that the methods of the schema reach.
ghost use Rattle.std.specs.Prelude.{◌≡◌, ◌≤◌, IfOk, Ok, length};
ghost use Rattle.meaning.specs.Answers.{Answers};
ghost use Rattle.meaning.specs.Instances.{IsInstance};
ghost use Rattle.access_schema.specs.Meaning.{meaning_of};
ghost use Rattle.row_text.specs.RowText.{IsRowText};
ghost use Rattle.source_trait.specs.Causes.{Rose};
ghost use Rattle.source_trait.specs.Lanes.{LanesStay};
ghost use Rattle.sql_select.specs.Statements.{StatementFits, result_names as names_of};
ghost use Rattle.command_io.specs.Executing.{Delivers};
ghost use Rattle.command_io.specs.Moments.{Stays};
ghost use Rattle.crawl_command.specs.Ends.{CrawlsOrStops};
ghost use Rattle.crawl_command.specs.Reach.{IsReached, ReachEnds};

use access_schema::Schema;
use command_io::{FileNames, Outcome, Outside, Stop, print, read_texts, stop_of_crawl, tell};
use crawl::crawl;
use lists::{Bytes, NoMemory, Text};
use meaning::types::{Instance, Statement};
use row_text::{PackedRows, csv_text};
use source_trait::{Files, Lane, Sink, Source};
use sql_conjunctive::answers;
use sql_select::result_names;
use std::alloc::Global;
use std::thread::Threads;

/// Writes the answers of the query of the second file on the facts that the methods of the schema of the first reach from its constants,
/// and says why it stopped.
///
/// All of the lanes are crawled, of which there are at most 8, with at most `calls` requests. The query's own constants are not known
/// at first. The rows go to standard output as CSV under the query's names, each once and in ascending order.
pub fn reach_query<R: Threads + Sync, F: Files, S: Source + Send + Drop, O: Sink, E: Sink>(
    rt: &R,
    alloc: Global,
    schema_name: &Text,
    query_name: &Text,
    calls: u32,
    outside: &mut Outside<F, O, E>,
    lanes: &mut [Lane<S>],
) -> Result<Outcome, Stop>
    requires calls { calls ≤ 1_000_000 }
    requires lanes { length lanes.old ≤ 8 }
    ensures ends { ReachEnds S.seen schema_name.now query_name.now calls outside.old outside.new lanes.old lanes.new result }
    ensures stays { Stays outside.old outside.new }
    ensures lanes { LanesStay S.seen lanes.old lanes.new }
{
    let names = FileNames {
        schema: schema_name.as_str(),
        query: query_name.as_str(),
        plan: "",
    };
    let (schema, statement) = match read_texts(alloc, &mut outside.files, schema_name, query_name) {
        Ok(texts) => texts,
        Err(stop) => return Err(tell(alloc, &mut outside.outputs.err, stop, names, &[])),
    };
    match deliver_answers(
        rt,
        alloc,
        &schema,
        &statement,
        calls,
        lanes,
        &mut outside.outputs.out,
    ) {
        Ok(()) => Ok(Outcome::Done),
        Err(stop) => Err(tell(
            alloc,
            &mut outside.outputs.err,
            stop,
            names,
            schema.relations.as_slice(),
        )),
    }
}

// Crawls all of the lanes, and writes the answers of the statement on the facts that came.
fn deliver_answers<R: Threads + Sync, S: Source + Send + Drop, O: Sink>(
    rt: &R,
    alloc: Global,
    schema: &Schema,
    statement: &Statement,
    calls: u32,
    lanes: &mut [Lane<S>],
    out: &mut O,
) -> Result<(), Stop>
    requires fits { StatementFits schema.now statement.now }
    requires calls { calls ≤ 1_000_000 }
    requires lanes { length lanes.old ≤ 8 }
    ensures delivers { Delivers (CrawlsOrStops S.seen schema.now calls lanes.old lanes.new)
        (IsReached S.seen schema.now statement.now lanes.new)
        (O.taken out.old) (O.taken out.new) (Rose (O.faults out.old) (O.faults out.new)) result }
    ensures lanes { LanesStay S.seen lanes.old lanes.new }
    ensures later { O.faults out.old ≤ O.faults out.new }
{
    match crawl(rt, alloc, schema, lanes, calls) {
        Ok(part) => write_answers(alloc, schema, statement, &part, out),
        Err(fault) => Err(stop_of_crawl(fault)),
    }
}

// Writes the answers of the statement on the facts.
fn write_answers<O: Sink>(
    alloc: Global,
    schema: &Schema,
    statement: &Statement,
    part: &Instance,
    out: &mut O,
) -> Result<(), Stop>
    requires fits { StatementFits schema.now statement.now }
    requires instance { IsInstance (meaning_of schema.now) part.now }
    ensures delivers { Delivers (λ ended. ended ≡ Ok part.now)
        (λ facts. IsRowText (names_of statement.now.selects) (Answers statement.now facts))
        (O.taken out.old) (O.taken out.new) (Rose (O.faults out.old) (O.faults out.new)) result }
    ensures later { O.faults out.old ≤ O.faults out.new }
{
    let text = match answers_text(alloc, schema, statement, part) {
        Ok(text) => text,
        Err(_) => return Err(Stop::Memory),
    };
    print(out, text.as_slice(), Stop::ResultWrite)
}

// The text of the answers of the statement on the facts, under the statement's names.
fn answers_text(
    alloc: Global,
    schema: &Schema,
    statement: &Statement,
    part: &Instance,
) -> Result<Bytes, NoMemory>
    requires fits { StatementFits schema.now statement.now }
    requires instance { IsInstance (meaning_of schema.now) part.now }
    ensures { IfOk result (IsRowText (names_of statement.now.selects) (Answers statement.now part.now)) }
{
    let rows = answers(alloc, statement, schema, part)?;
    let packed = PackedRows::from_rows(alloc, rows.as_slice())?;
    drop(rows);
    csv_text(alloc, result_names(statement), &packed)
}
