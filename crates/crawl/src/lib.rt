//! Everything that the methods of a schema reach: lanes of sources crawled, round by round.
//!
//! Crates above call `crawl` of `src/lanes.rt`. Begin at `specs/Crawling.antt`, which says what it promises in the record `Crawls`.
#![tactic(auto)]

mod asks;
mod beginnings;
mod cursor;
mod found;
mod known;
mod lanes;
mod numbers;
mod progress;
mod round;
mod spare_asks;
mod started;
mod taking;

pub use lanes::crawl;
