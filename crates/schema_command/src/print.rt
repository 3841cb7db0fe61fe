// A schema, from the text of its file to the text on standard output.
ghost use Rattle.std.specs.Prelude.{◌≡◌, ◌⊎◌, OnOk, OnErr, IfErr, ◌≤◌};
ghost use Rattle.source_trait.specs.Causes.{Rose};
ghost use Rattle.tgd_reader.specs.Printed.{text_of_schema};
ghost use Rattle.command_io.specs.Moments.{Stays, ResultStop};
ghost use Rattle.command_io.specs.Writing.{TookAll, TookPart};
ghost use Rattle.schema_command.specs.Ends.{SchemaEnds};

use access_schema::Schema;
use command_io::{FileNames, Outcome, Outside, Stop, print, schema_of, tell};
use lists::Text;
use source_trait::{Files, Sink};
use std::alloc::Global;
use tgd_reader::schema_text;

/// Reads the schema of the file of this name, and writes its text; says why it stopped.
pub fn print_schema<F: Files, O: Sink, E: Sink>(
    alloc: Global,
    name: &Text,
    outside: &mut Outside<F, O, E>,
) -> Result<Outcome, Stop>
    ensures ends { SchemaEnds name.now outside.old outside.new result }
    ensures stays { Stays outside.old outside.new }
{
    let names = FileNames {
        schema: name.as_str(),
        query: "",
        plan: "",
    };
    let schema = match schema_of(alloc, &mut outside.files, name) {
        Ok(schema) => schema,
        Err(stop) => return Err(tell(alloc, &mut outside.outputs.err, stop, names, &[])),
    };
    match write_schema(alloc, &schema, &mut outside.outputs.out) {
        Ok(()) => Ok(Outcome::Done),
        Err(stop) => Err(tell(
            alloc,
            &mut outside.outputs.err,
            stop,
            names,
            schema.relations.as_slice(),
        )),
    }
}

// Writes the text of the schema.
fn write_schema<O: Sink>(alloc: Global, schema: &Schema, out: &mut O) -> Result<(), Stop>
    ensures whole { OnOk result (TookAll (O.taken out.old) (O.taken out.new) (text_of_schema schema.now)) }
    ensures part { OnErr result ((O.taken out.new ≡ O.taken out.old) ⊎ TookPart (O.taken out.old) (O.taken out.new) (text_of_schema schema.now)) }
    ensures cause { IfErr result (ResultStop (Rose (O.faults out.old) (O.faults out.new))) }
    ensures later { O.faults out.old ≤ O.faults out.new }
{
    let text = match schema_text(alloc, schema) {
        Ok(text) => text,
        Err(_) => return Err(Stop::Memory),
    };
    print(out, text.as_slice(), Stop::ResultWrite)
}
