// Whether a plan may be run for a statement at all.
ghost use Rattle.std.specs.Prelude.{◌≡◌, ◌↔◌, IsTrue, IfSome, IfNone, All, length};
ghost use Rattle.plan_form.specs.Fitting.{HasFewSteps};
ghost use Rattle.plan_check.specs.Verdicts.{IsLegalOver, IsIllegalOver, wrong_width_fault};

use access_schema::Schema;
use lists::Texts;
use meaning::types::{Plan, Statement};
use plan_form::{PlanFault, PlanFaultKind, lawful};

/// What is wrong with a plan for a statement: its first fault over the known constants; and where it has none, that it is not as wide as
/// the statement's selects, which is told at the first branch. Takes no memory.
pub fn fault_of(
    schema: &Schema,
    statement: &Statement,
    plan: &Plan,
    known: &Texts,
) -> Option<PlanFault>
    requires few { HasFewSteps plan.now }
    ensures some { IfSome result (IsIllegalOver schema.now statement.now plan.now known.now) }
    ensures none { IfNone result (IsLegalOver schema.now statement.now plan.now known.now) }
{
    match lawful(plan, schema, known.as_slice()) {
        Err(fault) => Some(fault),
        Ok(()) => {
            if is_as_wide(plan, statement) {
                None
            } else {
                Some(wrong_width())
            }
        }
    }
}

// The fault of a plan of another width.
fn wrong_width() -> PlanFault
    ensures { result ≡ wrong_width_fault }
{
    PlanFault {
        branch: 0,
        step: 0,
        place: 0,
        kind: PlanFaultKind::WrongWidth,
    }
}

// Whether each select has as many items as the plan is wide.
fn is_as_wide(plan: &Plan, statement: &Statement) -> bool
    ensures { IsTrue result ↔ All (λ select. length select.items ≡ plan.now.width) statement.now.selects }
{
    let selects = statement.selects.as_slice();
    let width = plan.width as usize;
    selects.iter().all(|select| select.items.len() == width)
}
