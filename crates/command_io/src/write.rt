// Writing all of a text.
ghost use Rattle.std.specs.Prelude.{◌≡◌, ◌≤◌, OnOk, OnErr, IsErrOf};
ghost use Rattle.source_trait.specs.Causes.{Rose};
ghost use Rattle.command_io.specs.Writing.{TookAll, TookPart};

use source_trait::{Sink, SinkFault};

/// Writes the whole text, or a first part of it where the sink fails.
pub fn write_all<K: Sink>(sink: &mut K, text: &[u8]) -> Result<(), SinkFault>
    ensures whole { OnOk result (TookAll (K.taken sink.old) (K.taken sink.new) text.now) }
    ensures part { OnErr result (TookPart (K.taken sink.old) (K.taken sink.new) text.now) }
    ensures failed { IsErrOf result SinkFault.Failed → Rose (K.faults sink.old) (K.faults sink.new) }
    ensures later { K.faults sink.old ≤ K.faults sink.new }
{
    let mut done = 0;
    while done < text.len() {
        let count = sink.write(&text[done..])?;
        done += count;
    }
    Ok(())
}
