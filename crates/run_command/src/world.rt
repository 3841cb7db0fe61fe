// The world of a size, from its texts to the summary of its execution.
ghost use Rattle.std.specs.Prelude.{◌≡◌, ◌≤◌, IfErr, IfOk, length};
ghost use Rattle.source_trait.specs.Lanes.{LanesStay};
ghost use Rattle.tgd_reader.specs.SchemaText.{IsSchemaText};
ghost use Rattle.sql_select.specs.Statements.{IsStatementText, StatementFits};
ghost use Rattle.world_source.specs.Texts.{query_text, schema_text};
ghost use Rattle.run_command.specs.World.{WorldEnds, WorldStop};

use crate::run::answer;
use crate::settings::{Limits, Settings};
use access_schema::Schema;
use command_io::{CALLS, FileNames, Outcome, Outputs, Report, Stop, tell};
use lists::Text;
use meaning::types::Statement;
use source_trait::{Lane, Sink, Source};
use sql_select::{SqlFault, read_select};
use std::alloc::Global;
use std::thread::Threads;
use tgd_reader::{ReadFault, read_schema};
use world_source::{WorldTexts, world};

/// How many firings the proof of a world's query may take.
pub const FIRINGS: u32 = 10_000;

/// How many units the search for a cheaper branch may take there.
pub const UNITS: u32 = 10_000;

// How far its query is taken.
const SETTINGS: Settings = Settings {
    limits: Limits {
        firings: FIRINGS,
        search: UNITS,
        calls: CALLS,
    },
    verify: false,
};

/// Answers the query of the world of a size, and says why it stopped.
///
/// The decision is written to `err` before any source is attached, and where it is a plan, the summary of its execution on all of the
/// lanes, of which there are at most 8, to `out`.
pub fn run_world<R: Threads + Sync, S: Source + Send + Drop, O: Sink, E: Sink>(
    rt: &R,
    alloc: Global,
    size: u32,
    outputs: &mut Outputs<O, E>,
    lanes: &mut [Lane<S>],
) -> Result<Outcome, Stop>
    requires small { size ≤ 10000 }
    requires lanes { length lanes.old ≤ 8 }
    ensures ends { WorldEnds S.seen size outputs.old outputs.new lanes.old lanes.new result }
    ensures lanes { LanesStay S.seen lanes.old lanes.new }
    ensures later_out { outputs.old.out_faults ≤ outputs.new.out_faults }
    ensures later_err { outputs.old.err_faults ≤ outputs.new.err_faults }
{
    let names = FileNames {
        schema: "",
        query: "",
        plan: "",
    };
    match read_world(alloc, size) {
        Ok((schema, statement)) => answer(
            rt,
            alloc,
            names,
            &schema,
            &statement,
            SETTINGS,
            Report::Summary(size),
            outputs,
            lanes,
        ),
        Err(stop) => Err(tell(alloc, &mut outputs.err, stop, names, &[])),
    }
}

// The schema and the statement that the texts of the world are.
fn read_world(alloc: Global, size: u32) -> Result<(Schema, Statement), Stop>
    requires { size ≤ 10000 }
    ensures schema { IfOk result (λ both. IsSchemaText (schema_text size) both.0) }
    ensures statement { IfOk result (λ both. IsStatementText both.0 query_text both.1) }
    ensures fits { IfOk result (λ both. StatementFits both.0 both.1) }
    ensures stops { IfErr result (WorldStop size) }
{
    let texts = match world(alloc, size) {
        Ok(texts) => texts,
        Err(_) => return Err(Stop::Memory),
    };
    let schema = world_schema(alloc, size, &texts)?;
    let statement = world_statement(alloc, size, &texts, &schema)?;
    Ok((schema, statement))
}

fn world_schema(alloc: Global, size: u32, texts: &WorldTexts) -> Result<Schema, Stop>
    requires is { texts.now.schema ≡ schema_text size }
    requires short { length texts.now.schema ≤ 2000 }
    ensures schema { IfOk result (IsSchemaText (schema_text size)) }
    ensures stops { IfErr result (WorldStop size) }
{
    match read_schema(alloc, texts.schema.as_slice()) {
        Ok(schema) => Ok(schema),
        Err(fault) => match fault {
            ReadFault::NoMemory => Err(Stop::Memory),
            other => Err(Stop::Schema(other)),
        },
    }
}

fn world_statement(
    alloc: Global,
    size: u32,
    texts: &WorldTexts,
    schema: &Schema,
) -> Result<Statement, Stop>
    requires is { texts.now.query ≡ query_text }
    requires schema { IsSchemaText (schema_text size) schema.now }
    ensures statement { IfOk result (IsStatementText schema.now query_text) }
    ensures fits { IfOk result (StatementFits schema.now) }
    ensures stops { IfErr result (WorldStop size) }
{
    match read_select(alloc, texts.query.as_slice(), schema) {
        Ok(statement) => Ok(statement),
        Err(fault) => match fault {
            SqlFault::NoMemory => Err(Stop::Memory),
            other => Err(Stop::Query(other)),
        },
    }
}
