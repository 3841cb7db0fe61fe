// The command `help`.
ghost use Rattle.std.specs.Prelude.{◌≤◌};
ghost use Rattle.pdq_core.specs.Help.{HelpEnds};

use command_io::{FileNames, Outcome, Outputs, Stop, print, tell};
use command_words::usage_text;
use source_trait::Sink;
use std::alloc::Global;

/// Writes the usage text to `out`, or says on `err` why not all of it was written.
pub fn print_usage<O: Sink, E: Sink>(
    alloc: Global,
    outputs: &mut Outputs<O, E>,
) -> Result<Outcome, Stop>
    ensures ends { HelpEnds outputs.old outputs.new result }
    ensures later_out { outputs.old.out_faults ≤ outputs.new.out_faults }
    ensures later_err { outputs.old.err_faults ≤ outputs.new.err_faults }
{
    match print(&mut outputs.out, usage_text(), Stop::ResultWrite) {
        Ok(()) => Ok(Outcome::Done),
        Err(stop) => {
            let names = FileNames {
                schema: "",
                query: "",
                plan: "",
            };
            Err(tell(alloc, &mut outputs.err, stop, names, &[]))
        }
    }
}
