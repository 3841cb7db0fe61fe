//! What plans do over sources: relations attached, requests asked round by round, and answers joined.
//!
//! Crates above attach relations by `attach_needed`, and ask by `ask_wanted` the requests of a step, or by `ask_round` those of several
//! plans. The words of their contracts are in `specs/`, in the order of `specs/Lib.antt`.
#![tactic(auto)]

mod accesses;
mod answers;
mod ascending;
mod ask;
mod asking;
mod attach;
mod block_round;
mod blocks;
mod branch;
mod by_request;
mod crossing;
mod fault;
mod lane_round;
mod live;
mod lone_answer;
mod lookup;
mod naming;
mod needs;
mod partial_rows;
mod parts;
mod round;
mod whole_answer;

pub use accesses::accessed;
pub use answers::Answers;
pub use asking::ask_wanted;
pub use block_round::{Asking, asking_of, checked_blocks};
pub use blocks::Block;
pub use branch::add_outputs;
pub use fault::{Run, RunFault};
pub use lane_round::{AskFault, ask_round, start_for};
pub use lookup::{line_of, method_of};
pub use needs::attach_needed;
pub use round::{Wanted, join_answers, wanted_rows};
pub use row_text::csv_text;
