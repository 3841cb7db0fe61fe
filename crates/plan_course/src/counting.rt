// How many steps a plan has.
ghost use Rattle.std.specs.Prelude.{◌≡◌, length};
ghost use Rattle.shared_rounds.specs.SharedRounds.{turns_of};
ghost use Rattle.plan_course.specs.Courses.{CanNumber};

use meaning::types::Plan;

/// How many steps the plan has, counted through its branches.
pub fn count_steps(plan: &Plan) -> usize
    requires { CanNumber plan.now }
    ensures { result ≡ length (turns_of plan.now) }
{
    let mut count: usize = 0;
    for branch in plan.branches.as_slice() {
        count += branch.steps.as_slice().len();
    }
    count
}
