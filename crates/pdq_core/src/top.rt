// The top call.
ghost use Rattle.std.specs.Prelude.{◌≡◌};
ghost use Rattle.source_trait.specs.Lanes.{LanesStay};
ghost use Rattle.command_io.specs.Moments.{Stays};
ghost use Rattle.pdq_core.specs.Runs.{Runs, ended as ended_by};

use crate::first_lanes::{task_on_first, world_on_first};
use crate::help::print_usage;
use check_command::check_plan;
use command_io::{Outcome, Outside, Status, Stop, say, status};
use command_words::{Command, read_words};
use lists::Text;
use run_command::explain_query;
use schema_command::print_schema;
use source_trait::{Files, Lane, Sink, Source};
use std::alloc::Global;
use std::thread::Threads;
use verify_command::verify_rules;

/// Runs the command that the words are, and answers how it ended.
///
/// `words` are those after the program's name. The command reads its texts from `files`, writes its result to `out`, and its decision
/// and the line of what stopped it to `err`. `run`, `batch`, `exec`, `crawl`, `reach` and `world` use the first lanes, as many as the words
/// say or all where there are fewer, which ask at once in threads of `rt`; `verify` uses the first.
pub fn run_words<R: Threads + Sync, F: Files, S: Source + Send + Drop, O: Sink, E: Sink>(
    rt: &R,
    alloc: Global,
    words: &[Text],
    outside: &mut Outside<F, O, E>,
    lanes: &mut Vec<Lane<S>>,
) -> Status
    // The run ends in one of the ways of `Runs`, each of which says what was read, planned, attached, asked and written, and
    // why it ended as it did; and the status is that of the way.
    ensures run { Runs S.seen words.now outside.old outside.new lanes.old.items lanes.new.items result }
    // The contents of the files stay, and no count of faults falls.
    ensures stays { Stays outside.old outside.new }
    // Lanes and kinds keep their order, and no count of faults of a source falls.
    ensures lanes { LanesStay S.seen lanes.old.items lanes.new.items }
{
    match read_words(words) {
        None => status(&say(
            &mut outside.outputs.err,
            b"words: not understood\n",
            Stop::Words,
        )),
        Some(Command::Help) => ended(print_usage(alloc, &mut outside.outputs)),
        Some(Command::Schema { schema }) => ended(print_schema(alloc, schema, outside)),
        Some(
            Command::Explain {
                schema,
                query,
                firings,
                search,
            },
        ) => ended(explain_query(alloc, schema, query, firings, search, outside)),
        Some(
            Command::Check {
                schema,
                query,
                plan,
                firings,
            },
        ) => ended(check_plan(alloc, schema, query, plan, firings, outside)),
        Some(Command::Verify { schema }) => ended(verify_rules(alloc, schema, outside, lanes)),
        Some(
            Command::Calling {
                task,
                workers,
                calls,
            },
        ) => ended(task_on_first(rt, alloc, task, workers, calls, outside, lanes)),
        Some(Command::World { size, workers }) => {
            ended(world_on_first(rt, alloc, size, workers, &mut outside.outputs, lanes))
        }
    }
}

// The status of the end of a command.
fn ended(end: Result<Outcome, Stop>) -> Status
    ensures { result ≡ ended_by end }
{
    match end {
        Ok(Outcome::Done) => Status::Done,
        Ok(Outcome::No) => Status::No,
        Ok(Outcome::Undecided) => Status::Undecided,
        Err(stop) => status(&stop),
    }
}
