// A plan executed where the rules are met.
ghost use Rattle.std.specs.Prelude.{◌<◌, ◌≤◌, ◌^◌, List, ℕ, Contains, length};
ghost use Rattle.meaning.specs.declared.types.Branch.{Branch};
ghost use Rattle.meaning.specs.Plans.{IsLawful};
ghost use Rattle.access_schema.specs.Meaning.{meaning_of};
ghost use Rattle.source_trait.specs.Lanes.{LanesStay};
ghost use Rattle.rule_rows.specs.RuleRelations.{needed_verified};
ghost use Rattle.rule_rows.specs.Verifying.{Verifies};
ghost use Rattle.rule_rows.specs.Executing.{RunsVerified};

use crate::fault::{VerifiedFault, VerifyFault};
use crate::relations::with_accessed;
use crate::verifying::attach_and_test;
use access_schema::Schema;
use data_verify::Broken;
use meaning::types::Plan;
use middleware::{Run, RunFault, accessed};
use plan_execution::execute_attached;
use source_trait::{Lane, Source};
use std::alloc::Global;
use std::thread::Threads;

/// Tests the rules of the schema, and executes a lawful plan on all of the lanes where they are met, with at most `cap` requests.
///
/// The relations of the rules and of the plan are attached on the first lane, and those of the plan on each further one. Each of the first
/// lane's is then asked whole, which does not count. Where a rule is not met no request of the plan is made. Fails where the rules cannot
/// be tested, where one is not met, and where the execution fails.
pub fn execute_verified<R: Threads + Sync, S: Source + Send + Drop>(
    rt: &R,
    alloc: Global,
    plan: &Plan,
    schema: &Schema,
    lanes: &mut [Lane<S>],
    cap: u32,
) -> Result<Run, VerifiedFault>
    requires lawful { (constants : List (List ℕ)) × IsLawful plan.now (meaning_of schema.now) constants }
    requires lanes { length lanes.old ≤ 8 }
    requires cap { cap ≤ 1_000_000 }
    requires few { length plan.now.branches < 2 ^ 32 }
    requires short { (branch : Branch) → Contains plan.now.branches branch → length branch.steps < 2 ^ 32 }
    ensures runs { RunsVerified S.seen schema.now plan.now cap lanes.old lanes.new result }
    ensures lanes { LanesStay S.seen lanes.old lanes.new }
{
    match verify_for(alloc, schema, plan, lanes) {
        Ok(None) => {}
        Ok(Some(broken)) => return Err(VerifiedFault::NotMet(broken)),
        Err(fault) => return Err(VerifiedFault::NotVerified(fault)),
    }
    match execute_attached(rt, alloc, plan, schema, lanes, cap) {
        Ok(run) => Ok(run),
        Err(fault) => Err(VerifiedFault::NotExecuted(fault)),
    }
}

// The first rule that is not met by the rows of the relations of the rules and of the plan, which are attached.
fn verify_for<S: Source + Send + Drop>(
    alloc: Global,
    schema: &Schema,
    plan: &Plan,
    lanes: &mut [Lane<S>],
) -> Result<Option<Broken>, VerifyFault>
    ensures verifies { Verifies S.seen schema.now (needed_verified schema.now plan.now) lanes.old lanes.new result }
    ensures lanes { LanesStay S.seen lanes.old lanes.new }
{
    let others = match accessed(alloc, schema, plan) {
        Ok(rels) => rels,
        Err(_) => return Err(VerifyFault::NotAttached(RunFault::NoMemory)),
    };
    let first = match with_accessed(alloc, schema, others.as_slice()) {
        Ok(rels) => rels,
        Err(_) => return Err(VerifyFault::NotAttached(RunFault::NoMemory)),
    };
    attach_and_test(alloc, schema, lanes, first.as_slice(), others.as_slice())
}
