// What is found of a plan.

use lists::Row;
use meaning::types::{Instance, Triggers};
use plan_form::PlanFault;

/// What was tried: a select of the statement against the plan, or a branch of the plan against the statement. Both count from 0.
#[derive(Clone, Copy, Debug, PartialEq, Eq)]
pub enum Side {
    Select(u32),
    Branch(u32),
}

/// What is found of a plan: it is equivalent to the statement; it is illegal; it loses a row of the statement on an instance, or adds one
/// that is none of the statement's there; or nothing, where the firings of a trial are spent, with the log of these.
#[derive(Drop)]
pub enum Verdict {
    Equivalent,
    Illegal(PlanFault),
    Loses(Instance, Row),
    Adds(Instance, Row),
    Undecided { side: Side, log: Triggers },
}
