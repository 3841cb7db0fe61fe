//! Tests of crawls: the rows and the classes of a round, worked out by hand, and whole crawls over sources in memory.
//!
//! There is nothing here but tests: a crate with tests is proved twice, so these stand in a crate above.
#![tactic(auto)]

#[cfg(test)]
mod of_crawl;
#[cfg(test)]
mod of_crawl_rounds;
#[cfg(test)]
mod office;
