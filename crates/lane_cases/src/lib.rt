//! Tests of lanes and of runs over sources in memory: items shared by workers, runs with two workers, the log of the requests that a source
//! was asked, and runs in which a call of the outside fails.
//!
//! There is nothing here but tests: a crate with tests is proved twice, so these stand in a crate above.
#![tactic(auto)]

#[cfg(test)]
mod of_faults;
#[cfg(test)]
mod of_log;
#[cfg(test)]
mod of_pool;
#[cfg(test)]
mod of_runs;
#[cfg(test)]
mod office;
