// A schema from the bytes of its text.
ghost use Rattle.std.specs.Prelude.{◌≡◌, ◌<◌, ◌≤◌, ◌^◌, length, IfOk, IfErr, OnOk};
ghost use Rattle.access_schema.specs.declared.schema.Schema.{Schema};
ghost use Rattle.access_schema.specs.Content.{Builds};
ghost use Rattle.access_schema.specs.Faults.{AreNamed, HaveSorts, AreFaultless};
ghost use Rattle.tgd_reader.specs.SchemaText.{IsSchemaText, IsReadFault, IsReadAs, IsFaultyPart};

use crate::fault::ReadFault;
use crate::parts::{Declared, read_parts};
use access_schema::{BuildFault, Schema};
use pq_text::read_utf8;
use std::alloc::Global;

/// The schema whose text the bytes are, or the first fault: no UTF-8, then the first line that is no declaration,
/// then the first faulty declaration with its least fault.
pub fn read_schema(alloc: Global, bytes: &[u8]) -> Result<Schema, ReadFault>
    requires { length bytes.now ≤ 2 ^ 20 }
    ensures read { IfOk result (λ schema. IsSchemaText bytes.now schema) }

    // Each schema whose text the bytes are is read, unless memory runs out.
    ensures only { (schema : Schema) → IsSchemaText bytes.now schema → IsReadAs schema result }
    ensures fault { IfErr result (λ fault. IsReadFault bytes.now fault) }
{
    bytes_schema(alloc, bytes)
}

fn bytes_schema(alloc: Global, bytes: &[u8]) -> Result<Schema, ReadFault>
    requires { length bytes.now ≤ 2 ^ 20 }
    ensures read { IfOk result (λ schema. IsSchemaText bytes.now schema) }
    ensures fault { IfErr result (λ fault. IsReadFault bytes.now fault) }
{
    let text = match read_utf8(bytes) {
        Ok(text) => text,
        Err(offset) => return Err(ReadFault::NotUtf8 { offset }),
    };
    let declared = read_parts(alloc, text)?;
    declared_schema(alloc, declared)
}

// The schema of the parts of a text. A fault has the line on which its part stands.
fn declared_schema(alloc: Global, declared: Declared) -> Result<Schema, ReadFault>
    requires few { length declared.parts < 2 ^ 32 }
    requires lines { length declared.lines ≡ length declared.parts }
    requires named { AreNamed declared.parts }
    requires sorts { HaveSorts declared.parts }
    ensures schema { IfOk result (Builds declared.parts) }
    ensures faultless { OnOk result (AreFaultless declared.parts) }
    ensures fault { IfErr result (IsFaultyPart declared) }
{
    let Declared { parts, lines } = declared;
    match Schema::build(alloc, parts) {
        Ok(schema) => Ok(schema),
        Err(BuildFault::NoMemory) => Err(ReadFault::NoMemory),
        Err(BuildFault::At { index, fault }) => {
            let line = lines.as_slice()[index as usize];
            Err(ReadFault::Schema { line, fault })
        }
    }
}
