// How far one plan has come.
ghost use Rattle.std.specs.Prelude.{◌≡◌, ◌↔◌, ◌≤◌, ◌<◌, ◌+◌, ◌^◌, List, ℕ, Contains, IfOk, length};
ghost use Rattle.std.specs.List.Sorted.{IsStrictlySortedBy};
ghost use Rattle.meaning.specs.declared.types.SchemaParts.{SchemaParts};
ghost use Rattle.meaning.specs.declared.types.Fact.{Fact};
ghost use Rattle.meaning.specs.declared.types.Plan.{Plan};
ghost use Rattle.meaning.specs.Plans.{IsWellFormed};
ghost use Rattle.meaning.specs.Rows.{IsRow};
ghost use Rattle.row_text.specs.RowText.{row_cmp};
ghost use Rattle.shared_rounds.specs.SharedRounds.{turns_of};
ghost use Rattle.plan_course.specs.Courses.{AreReadyBranches, HasOutputs, HaveOutputs, IsAt, IsWithin, Knows, Passes, Settles, Stands};

use lists::NoMemory;
use meaning::types::{Branch, Plan};
use middleware::{Block, add_outputs};
use row_text::{PackedRows, ascending_distinct};
use std::alloc::Global;

/// How far a plan has come: in the branch of a number, before the step of a number there, or behind all branches.
#[derive(Drop)]
pub struct Course {
    pub branch: usize,
    pub step: usize,
    /// how many columns the partial rows have
    pub count: u32,
    /// the partial rows, in blocks
    pub blocks: Vec<Block>,
    /// the rows of the branches that are done
    pub rows: PackedRows,
}

impl Course {
    /// Before the first step of the plan. The rows of branches without steps are there already.
    pub fn start(alloc: Global, plan: &Plan) -> Result<Course, NoMemory>
        requires { HaveOutputs plan.now }
        ensures at { IfOk result (λ course. IsAt plan.now 0 course) }
        ensures knows { IfOk result (λ course. (schema : SchemaParts) (facts : List Fact) → IsWellFormed schema
            → AreReadyBranches schema plan.now → Knows schema facts plan.now course) }
    {
        let first = Course {
            branch: 0,
            step: 0,
            count: 0,
            blocks: Vec::new(alloc),
            rows: PackedRows::new(alloc),
        };
        settle(alloc, plan, first)
    }
}

/// Passes over branches whose steps are done, and adds their outputs, up to one that has a step left.
pub(crate) fn settle(alloc: Global, plan: &Plan, course: Course) -> Result<Course, NoMemory>
    requires stands { Stands plan.now course }
    requires outputs { HaveOutputs plan.now }
    ensures settles { IfOk result (λ next. Settles plan.now course next) }
    ensures knows { IfOk result (λ next. (schema : SchemaParts) (facts : List Fact) → IsWellFormed schema → AreReadyBranches schema plan.now
        → Knows schema facts plan.now course → Knows schema facts plan.now next) }
{
    let branches = plan.branches.as_slice();
    let mut reached = course;
    for number in reached.branch..branches.len() {
        let branch = &branches[number];
        if reached.step < branch.steps.len() {
            return Ok(reached);
        }
        reached = past(alloc, branch, reached)?;
    }
    Ok(reached)
}

// Adds the outputs of a branch whose steps are done, and begins the next one.
fn past(alloc: Global, branch: &Branch, course: Course) -> Result<Course, NoMemory>
    requires within { IsWithin branch.now course }
    requires done { course.step ≡ length branch.now.steps }
    requires outputs { HasOutputs branch.now }
    requires fits { course.branch + 1 < 2 ^ 64 }
    ensures { IfOk result (λ next. Passes branch.now course next) }
{
    let Course {
        branch: number,
        step: _,
        count,
        blocks,
        rows,
    } = course;
    let more = add_outputs(alloc, branch.output.as_slice(), count, blocks, rows)?;
    Ok(Course {
        branch: number + 1,
        step: 0,
        count: 0,
        blocks: Vec::new(alloc),
        rows: more,
    })
}

/// The rows of a plan that has no step left, ascending and each once.
pub fn rows(alloc: Global, course: Course) -> Result<PackedRows, NoMemory>
    ensures ascends { IfOk result (λ rows. IsStrictlySortedBy row_cmp rows) }
    ensures all { IfOk result (λ rows. (schema : SchemaParts) (facts : List Fact) (plan : Plan) (n : ℕ) → IsAt plan n course
        → length (turns_of plan) ≤ n → Knows schema facts plan course
        → (row : List (List ℕ)) → Contains rows row ↔ IsRow schema plan facts row) }
{
    ascending_distinct(alloc, &course.rows)
}
