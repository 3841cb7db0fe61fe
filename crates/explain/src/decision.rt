// The text of a decision.
ghost use Rattle.std.specs.Prelude.{IfOk};
ghost use Rattle.std.specs.Str.{IsUtf8};
ghost use Rattle.explain.specs.Printing.{IsDecisionText};

use crate::chosen::planned_text;
use crate::firings::undecided_text;
use crate::refutation::witness_text;
use access_schema::Schema;
use findings::Decision;
use lists::{Bytes, NoMemory};
use std::alloc::Global;

/// The text of a decision: the plan behind a comment line for each select, the refutation, or the firings that were spent.
pub fn decision_text(alloc: Global, decision: &Decision, schema: &Schema) -> Result<Bytes, NoMemory>
    ensures text { IfOk result (λ text. IsDecisionText schema.now decision.now text) }
    ensures utf8 { IfOk result (λ text. IsUtf8 text) }
{
    match decision {
        Decision::Plan { plan, selects } => planned_text(alloc, plan, selects),
        Decision::NoPlan(pair) => witness_text(alloc, pair, schema),
        Decision::Undecided { select, log } => undecided_text(alloc, *select, log, schema),
    }
}
