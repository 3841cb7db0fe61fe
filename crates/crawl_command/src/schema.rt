// A schema, from the text of its file to the facts that its methods reach.
ghost use Rattle.std.specs.Prelude.{◌≡◌, ◌≤◌, Ok, length};
ghost use Rattle.source_trait.specs.Causes.{Rose};
ghost use Rattle.source_trait.specs.Lanes.{LanesStay};
ghost use Rattle.fact_lines.specs.Lines.{IsFactsText};
ghost use Rattle.command_io.specs.Executing.{Delivers};
ghost use Rattle.command_io.specs.Moments.{Stays};
ghost use Rattle.crawl_command.specs.Ends.{CrawlsOrStops, CrawlEnds};

use access_schema::Schema;
use command_io::{FileNames, Outcome, Outside, Stop, print, schema_of, stop_of_crawl, tell};
use crawl::crawl;
use fact_lines::facts_text;
use lists::Text;
use meaning::types::Instance;
use source_trait::{Files, Lane, Sink, Source};
use std::alloc::Global;
use std::mem::forget;
use std::thread::Threads;

/// Writes the facts that the methods of the schema in the file reach from its constants, and says why it stopped.
///
/// All of the lanes are crawled, of which there are at most 8, with at most `calls` requests. The facts go to standard output, each once
/// and in ascending order.
pub fn crawl_schema<R: Threads + Sync, F: Files, S: Source + Send + Drop, O: Sink, E: Sink>(
    rt: &R,
    alloc: Global,
    schema_name: &Text,
    calls: u32,
    outside: &mut Outside<F, O, E>,
    lanes: &mut [Lane<S>],
) -> Result<Outcome, Stop>
    requires calls { calls ≤ 1_000_000 }
    requires lanes { length lanes.old ≤ 8 }
    ensures ends { CrawlEnds S.seen schema_name.now calls outside.old outside.new lanes.old lanes.new result }
    ensures stays { Stays outside.old outside.new }
    ensures lanes { LanesStay S.seen lanes.old lanes.new }
{
    let names = FileNames {
        schema: schema_name.as_str(),
        query: "",
        plan: "",
    };
    let schema = match schema_of(alloc, &mut outside.files, schema_name) {
        Ok(schema) => schema,
        Err(stop) => return Err(tell(alloc, &mut outside.outputs.err, stop, names, &[])),
    };
    match deliver_facts(rt, alloc, &schema, calls, lanes, &mut outside.outputs.out) {
        Ok(()) => Ok(Outcome::Done),
        Err(stop) => Err(tell(
            alloc,
            &mut outside.outputs.err,
            stop,
            names,
            schema.relations.as_slice(),
        )),
    }
}

// Crawls all of the lanes, and writes the facts that came.
fn deliver_facts<R: Threads + Sync, S: Source + Send + Drop, O: Sink>(
    rt: &R,
    alloc: Global,
    schema: &Schema,
    calls: u32,
    lanes: &mut [Lane<S>],
    out: &mut O,
) -> Result<(), Stop>
    requires calls { calls ≤ 1_000_000 }
    requires lanes { length lanes.old ≤ 8 }
    ensures delivers { Delivers (CrawlsOrStops S.seen schema.now calls lanes.old lanes.new) (IsFactsText schema.now)
        (O.taken out.old) (O.taken out.new) (Rose (O.faults out.old) (O.faults out.new)) result }
    ensures lanes { LanesStay S.seen lanes.old lanes.new }
    ensures later { O.faults out.old ≤ O.faults out.new }
{
    match crawl(rt, alloc, schema, lanes, calls) {
        Ok(part) => {
            let written = write_facts(alloc, schema, &part, out);
            // the facts are not freed one by one: the system takes them back with the process
            forget(part);
            written
        }
        Err(fault) => Err(stop_of_crawl(fault)),
    }
}

// Writes the text of the facts.
fn write_facts<O: Sink>(
    alloc: Global,
    schema: &Schema,
    part: &Instance,
    out: &mut O,
) -> Result<(), Stop>
    ensures delivers { Delivers (λ ended. ended ≡ Ok part.now) (IsFactsText schema.now)
        (O.taken out.old) (O.taken out.new) (Rose (O.faults out.old) (O.faults out.new)) result }
    ensures later { O.faults out.old ≤ O.faults out.new }
{
    let text = match facts_text(alloc, schema, part) {
        Ok(text) => text,
        Err(_) => return Err(Stop::Memory),
    };
    print(out, text.as_slice(), Stop::ResultWrite)
}
