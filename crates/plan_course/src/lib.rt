//! How far one plan has come, alone or together with other plans.
//!
//! Begin at `specs/Courses.antt`. A course starts before the plan's first step (`Course::start`). In a round `turn` says what the next
//! step asks, and `take` goes on with the answers; `rows` gives the plan's rows at the end. Nothing here asks anything.
#![tactic(auto)]

mod counting;
mod course;
mod turns;

pub use counting::count_steps;
pub use course::{Course, rows};
pub use turns::{Next, Pending, take, turn};
