// A lone answer in ascending order.
ghost use Rattle.std.specs.Prelude.{◌≡◌, IfOk, IsTrue, length};
ghost use Rattle.middleware.specs.Joining.{HaveSameRows};

use crate::answers::Answers;
use crate::ascending::distinct_rows;
use std::alloc::{AllocError, Global};

/// The answers to the requests of so many partial rows. A lone answer with fewer rows than that is put in ascending order, so that the
/// rows to which ascending partial rows grow by it ascend as they are made.
pub fn lone_in_order(alloc: Global, answers: Answers, rows: usize) -> Result<Answers, AllocError>
    ensures { IfOk result (λ ordered. HaveSameRows answers ordered) }
{
    if !is_lone_below(&answers, rows) {
        return Ok(answers);
    }
    let ordered = distinct_rows(alloc, answers.into_rows())?;
    Answers::new(alloc).with(ordered)
}

// Whether there is one answer, with fewer rows than that.
fn is_lone_below(answers: &Answers, rows: usize) -> bool
    ensures { IsTrue result → length answers.now ≡ 1 }
{
    match answers.lone() {
        Some(lone) => lone.len() < rows,
        None => false,
    }
}
