//! The least cost of a set of numbered facts with a goal, by moves that add a fact each.
//!
//! Crates above use this: a `Space` says which moves are possible and which sets have a goal, and `cheapest` searches it.
//! Begin at `specs/Walks.antt` and `src/space.rt`.
#![tactic(auto)]

mod cuts;
mod frontier;
mod growing;
mod laws;
mod node;
mod paths;
mod residues;
mod rest;
mod search;
mod set_key;
mod side;
mod space;
mod table;
mod waiting;

pub use cuts::{Cut, find_cuts};
pub use laws::cuts_bound;
pub use node::Node;
pub use search::{Ended, Outcome, cheapest};
pub use space::{End, Move, Space, Visit};
