//! One plan executed over sources: its relations attached, and its rounds asked one after another.
//!
//! Crates above call `execute` of `src/execution.rt` with a lawful plan. Begin at `specs/Executing.antt`, which says in
//! one record what it promises; then `specs/Running.antt` and `specs/PlanRounds.antt`. How far the plan has come is a
//! course of `plan_course`.
#![tactic(auto)]

mod asking;
mod execution;
mod rounds;

pub use execution::{execute, execute_attached};
