// The requests of a step, and the next partial rows.
ghost use Rattle.std.specs.Prelude.{◌↔◌, List, ℕ, Contains, IfOk};
ghost use Rattle.middleware.specs.Joining.{AreJoined};
ghost use Rattle.middleware.specs.Rounds.{IsWanted};

use crate::answers::Answers;
use crate::ascending::distinct_rows;
use crate::by_request::rows_by_request;
use crate::lone_answer::lone_in_order;
use crate::partial_rows::{input_rows, join};
use meaning::types::Place;
use row_text::PackedRows;
use std::alloc::{AllocError, Global};

/// The partial rows grown by the rows of the answers to their requests.
pub fn join_answers(
    alloc: Global,
    places: &[Place],
    inputs: &[u32],
    wanted: &Wanted,
    answers: Answers,
) -> Result<PackedRows, AllocError>
    requires wanted { IsWanted places.now inputs.now wanted.now.rows wanted.now.requests }
    ensures { IfOk result (λ next. AreJoined places.now inputs.now wanted.now.requests answers wanted.now.rows next) }
{
    let ordered = lone_in_order(alloc, answers, wanted.rows.len())?;
    let next = join(
        alloc,
        places,
        inputs,
        &wanted.requests,
        ordered,
        &wanted.rows,
    )?;
    Ok(next)
}

/// The distinct partial rows, in the order of what they ask for, and their distinct input rows, ascending.
#[derive(Drop)]
pub struct Wanted {
    pub rows: PackedRows,
    pub requests: PackedRows,
}

/// The distinct partial rows, and what they ask for.
pub fn wanted_rows(
    alloc: Global,
    places: &[Place],
    inputs: &[u32],
    rows: PackedRows,
) -> Result<Wanted, AllocError>
    ensures wanted { IfOk result (λ w. IsWanted places.now inputs.now w.rows w.requests) }
    ensures same { IfOk result (λ w. (row : List (List ℕ)) → Contains w.rows row ↔ Contains rows row) }
{
    let sorted = rows_by_request(alloc, places, inputs, rows)?;
    let list = input_rows(alloc, places, inputs, &sorted)?;
    let requests = distinct_rows(alloc, list)?;
    Ok(Wanted {
        rows: sorted,
        requests,
    })
}
