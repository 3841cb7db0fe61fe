//! The space of a search for the least cost: sets of exposures over the base facts of a proof.
//!
//! Crates above use this: `cheapest` of the crate `least_search` goes over an `ExposureSpace`, and `reach` makes the proof of what
//! it found. Begin at `specs/Tries.antt` and `specs/Exploring.antt`.
#![tactic(auto)]

mod aiming;
mod candidate_index;
mod candidates;
mod exposure_space;
mod founding;
mod going;
mod images;
pub mod laws;
mod listing;
mod looking;
mod makers;
mod marks;
mod quieting;
mod refuting;
mod relevance;
mod visiting;
mod wanted;

pub use exposure_space::ExposureSpace;
pub use founding::base_proof;
pub use refuting::has_head;
