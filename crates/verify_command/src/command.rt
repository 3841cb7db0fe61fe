// The rules of a schema, from the text of its file to whether the rows of the sources meet them.
ghost use Rattle.std.specs.Prelude.{◌≡◌, ◌⊎◌, OnOk, OnErr, IfErr, ◌≤◌};
ghost use Rattle.source_trait.specs.Causes.{Rose};
ghost use Rattle.source_trait.specs.Lanes.{LanesStay};
ghost use Rattle.data_verify.specs.Telling.{verification_text as text_of};
ghost use Rattle.command_io.specs.Moments.{Stays, ResultStop};
ghost use Rattle.command_io.specs.Writing.{TookAll, TookPart};
ghost use Rattle.rule_rows.specs.Verifying.{others};
ghost use Rattle.verify_command.specs.Ends.{TestsOrStops, VerifyEnds, outcome_of};

use access_schema::Schema;
use command_io::{FileNames, Outcome, Outside, Stop, print, schema_of, stop_of_verify, tell};
use data_verify::{Broken, verification_text};
use lists::Text;
use rule_rows::verify_rows;
use source_trait::{Files, Lane, Sink, Source};
use std::alloc::Global;

/// Reads the schema of the file of this name, and tells whether the rows of the sources of the first lane meet its rules;
/// says why it stopped.
///
/// The relations that some rule names are attached and then asked whole, in ascending order. `Done` comes where all rules are
/// met, and `No` where one is not; `out` takes the line that says so.
pub fn verify_rules<F: Files, S: Source + Send + Drop, O: Sink, E: Sink>(
    alloc: Global,
    schema_name: &Text,
    outside: &mut Outside<F, O, E>,
    lanes: &mut Vec<Lane<S>>,
) -> Result<Outcome, Stop>
    ensures ends { VerifyEnds S.seen schema_name.now outside.old outside.new lanes.old.items lanes.new.items result }
    ensures stays { Stays outside.old outside.new }
    ensures lanes { LanesStay S.seen lanes.old.items lanes.new.items }
{
    let names = FileNames {
        schema: schema_name.as_str(),
        query: "",
        plan: "",
    };
    let schema = match schema_of(alloc, &mut outside.files, schema_name) {
        Ok(schema) => schema,
        Err(stop) => return Err(tell(alloc, &mut outside.outputs.err, stop, names, &[])),
    };
    let relations = schema.relations.as_slice();
    let found = match first_broken(alloc, &schema, lanes) {
        Ok(found) => found,
        Err(stop) => return Err(tell(alloc, &mut outside.outputs.err, stop, names, relations)),
    };
    match write_found(alloc, &schema, &found, &mut outside.outputs.out) {
        Ok(()) => Ok(outcome(&found)),
        Err(stop) => Err(tell(alloc, &mut outside.outputs.err, stop, names, relations)),
    }
}

// The first rule that the rows on the first lane do not meet, or the stop that says why that is not known.
fn first_broken<S: Source + Send + Drop>(
    alloc: Global,
    schema: &Schema,
    lanes: &mut Vec<Lane<S>>,
) -> Result<Option<Broken>, Stop>
    ensures verifies { TestsOrStops S.seen schema.now lanes.old.items lanes.new.items result }
    ensures others { others lanes.new.items ≡ others lanes.old.items }
    ensures lanes { LanesStay S.seen lanes.old.items lanes.new.items }
{
    match verify_rows(alloc, schema, lanes.as_mut_slice()) {
        Ok(found) => Ok(found),
        Err(fault) => Err(stop_of_verify(fault)),
    }
}

// All rules are met where none is broken.
fn outcome(found: &Option<Broken>) -> Outcome
    ensures { result ≡ outcome_of found.now }
{
    match found {
        None => Outcome::Done,
        Some(_) => Outcome::No,
    }
}

// Writes the line that says whether all rules are met.
fn write_found<O: Sink>(
    alloc: Global,
    schema: &Schema,
    found: &Option<Broken>,
    out: &mut O,
) -> Result<(), Stop>
    ensures whole { OnOk result (TookAll (O.taken out.old) (O.taken out.new) (text_of schema.now found.now)) }
    ensures part { OnErr result ((O.taken out.new ≡ O.taken out.old) ⊎ TookPart (O.taken out.old) (O.taken out.new) (text_of schema.now found.now)) }
    ensures cause { IfErr result (ResultStop (Rose (O.faults out.old) (O.faults out.new))) }
    ensures later { O.faults out.old ≤ O.faults out.new }
{
    let text = match verification_text(alloc, schema, found) {
        Ok(text) => text,
        Err(_) => return Err(Stop::Memory),
    };
    print(out, text.as_slice(), Stop::ResultWrite)
}
