// What is said on standard error.
ghost use Rattle.std.specs.Prelude.{◌≡◌, ◌≤◌, ◌⊎◌, OnOk, OnErr, IfErr};
ghost use Rattle.source_trait.specs.Causes.{Rose};
ghost use Rattle.command_io.specs.Writing.{TookAll, TookPart};
ghost use Rattle.command_io.specs.Telling.{Said, Tells};
ghost use Rattle.command_io.specs.declared.stop.Stop.{Stop};

use crate::line::{FileNames, line_of};
use crate::stop::Stop;
use crate::write::write_all;
use meaning::types::Relation;
use source_trait::{Sink, SinkFault};
use std::alloc::Global;

/// Writes the whole text, or stops: with `failed` where the sink failed.
pub fn print<K: Sink>(sink: &mut K, text: &[u8], failed: Stop) -> Result<(), Stop>
    ensures whole { OnOk result (TookAll (K.taken sink.old) (K.taken sink.new) text.now) }
    ensures part { OnErr result (TookPart (K.taken sink.old) (K.taken sink.new) text.now) }
    ensures cause { IfErr result (λ stop. (stop ≡ Stop.Memory) ⊎ ((stop ≡ failed) × Rose (K.faults sink.old) (K.faults sink.new))) }
    ensures later { K.faults sink.old ≤ K.faults sink.new }
{
    match write_all(sink, text) {
        Ok(()) => Ok(()),
        Err(SinkFault::Failed) => Err(failed),
        Err(SinkFault::NoMemory) => Err(Stop::Memory),
    }
}

/// Writes the line of a stop, where `files` are the names of the files and these are the schema's relations. A sink that
/// fails leaves the stop; a lack of memory takes its place.
pub fn tell<E: Sink>(
    alloc: Global,
    err: &mut E,
    stop: Stop,
    files: FileNames<'_>,
    relations: &[Relation],
) -> Stop
    ensures tells { Tells (E.taken err.old) (E.taken err.new) (Rose (E.faults err.old) (E.faults err.new)) (record { schema = files.entry.schema.now; query = files.entry.query.now; plan = files.entry.plan.now; relations = relations.now }) stop result }
    ensures later { E.faults err.old ≤ E.faults err.new }
{
    match line_of(alloc, &stop, files, relations) {
        Ok(line) => say(err, line.as_slice(), stop),
        Err(_) => say(err, b"out of memory\n", Stop::Memory),
    }
}

/// Writes a line, and says which stop stays.
pub fn say<E: Sink>(err: &mut E, line: &[u8], stop: Stop) -> Stop
    ensures said { Said (E.taken err.old) (E.taken err.new) (Rose (E.faults err.old) (E.faults err.new)) line.now stop result }
    ensures later { E.faults err.old ≤ E.faults err.new }
{
    match write_all(err, line) {
        Ok(()) => stop,
        Err(SinkFault::Failed) => stop,
        Err(SinkFault::NoMemory) => Stop::Memory,
    }
}
