//! A crawl: everything that the methods reach is asked for, round by round, until nothing new can be asked.
//!
//! Here are the rounds by themselves, without sources: the crate `crawl` asks them. Begin at `specs/Rows.antt`, `specs/Rounds.antt` and `specs/Log.antt`,
//! which find a round's requests from the known values; `src/laws.rt` says that they are those of `meaning`, by its
//! `specs/Crawls.antt`.
#![tactic(auto)]

mod class_list;
mod counting;
pub mod laws;

pub use class_list::classes;
pub use counting::{count_round, count_rows};
