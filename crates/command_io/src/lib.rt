//! What every command shares: its files and outputs as one value, exit statuses, why a command stops and the line that says so,
//! the texts of its files, and writing whole texts.
//!
//! Crates above use this: each stop has one status and one line, a text is read exactly as its grammar says or refused by
//! its cause, and a sink takes all of a text or a first part of it. Begin at `specs/Inputs.antt`.
#![tactic(auto)]

mod delivery;
mod exit_status;
mod inputs;
mod line;
mod outcome;
mod outside;
mod query_lines;
mod schema_lines;
mod source_lines;
mod stop;
mod summary;
mod telling;
mod verified;
mod write;

pub use delivery::{
    CALLS, Report, deliver, stop_of_batch, stop_of_crawl, stop_of_run, write_report,
};
pub use exit_status::Status;
pub use inputs::{
    PLAN_LIMIT, QUERY_LIMIT, SCHEMA_LIMIT, plan_of_file, read_texts, schema_of, statement_of,
    statements_of,
};
pub use line::{FileNames, line_of};
pub use outcome::Outcome;
pub use outside::{Outputs, Outside};
pub use stop::{Input, Stop, status};
pub use telling::{print, say, tell};
pub use verified::{deliver_verified, stop_of_verify};
pub use write::write_all;
