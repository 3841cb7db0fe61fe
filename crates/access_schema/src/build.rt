// Parts into a schema.
ghost use Rattle.std.specs.Prelude.{◌≡◌, ◌<◌, ◌^◌, length, IfOk, IfErr, OnOk};
ghost use Rattle.access_schema.specs.Content.{relations_of, Builds};
ghost use Rattle.access_schema.specs.Faults.{AreNamed, HaveSorts, AreFaultless, IsCause};

use crate::content::{methods_of, relations_of, sources_of};
use crate::fault::BuildFault;
use crate::first_fault::first_fault;
use crate::part::{Part, Parts};
use crate::rules::{constants_of, rules_of};
use crate::schema::Schema;
use meaning::types::Relations;
use std::alloc::{AllocError, Global};

impl Schema {
    /// The schema of these parts, or the first faulty part with its least fault.
    pub fn build(alloc: Global, parts: Parts) -> Result<Schema, BuildFault>
        requires few { length parts < 2 ^ 32 }
        requires named { AreNamed parts }
        requires sorts { HaveSorts parts }
        ensures schema { IfOk result (Builds parts) }
        ensures faultless { OnOk result (AreFaultless parts) }
        ensures fault { IfErr result (IsCause parts) }
    {
        build_parts(alloc, parts.as_slice())
    }
}

fn build_parts(alloc: Global, parts: &[Part]) -> Result<Schema, BuildFault>
    requires few { length parts.now < 2 ^ 32 }
    requires named { AreNamed parts.now }
    requires sorts { HaveSorts parts.now }
    ensures schema { IfOk result (Builds parts.now) }
    ensures faultless { OnOk result (AreFaultless parts.now) }
    ensures fault { IfErr result (IsCause parts.now) }
{
    let relations = relations_of(alloc, parts)?;
    first_fault(alloc, relations.as_slice(), parts)?;
    Ok(schema_of(alloc, parts, relations)?)
}

/// The schema of parts without faults.
fn schema_of(alloc: Global, parts: &[Part], relations: Relations) -> Result<Schema, AllocError>
    requires relations { relations ≡ relations_of parts.now }
    requires named { AreNamed parts.now }
    requires sorts { HaveSorts parts.now }
    requires faultless { AreFaultless parts.now }
    ensures { IfOk result (Builds parts.now) }
{
    let methods = methods_of(alloc, relations.as_slice(), parts)?;
    let rules = rules_of(alloc, relations.as_slice(), parts)?;
    let constants = constants_of(alloc, parts)?;
    let sources = sources_of(alloc, relations.as_slice(), parts)?;
    Ok(Schema {
        relations,
        methods,
        rules,
        constants,
        sources,
    })
}
