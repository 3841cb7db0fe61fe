//! Several plans executed together, in rounds that they share: each distinct request is asked once.
//!
//! Crates above call `batch` of `src/execution.rt`. Begin at `specs/Batching.antt`, which says what it promises in the record `ExecutesAll`.
#![tactic(auto)]

mod execution;
mod fault;
mod kept;
mod member;
mod naming;
mod needs;
mod received;
mod round;
mod rounds;

pub use execution::batch;
pub use fault::BatchFault;
