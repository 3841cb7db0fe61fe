//! The commands `run`, `explain` and `world`, which decide a statement. `explain` prints the decision; `run` prints it too, and where it is
//! a plan, executes it and writes the answer. `world` does so for a schema and a query of its own, and writes a summary.
//!
//! Begin at `specs/Deciding.antt`, which says what a decision and its text show, and then at `specs/Ends.antt`,
//! `specs/Explained.antt` and `specs/World.antt`, which say how the commands end.
#![tactic(auto)]

mod deciding;
mod explaining;
mod run;
mod settings;
mod world;

pub use deciding::decided;
pub use explaining::explain_query;
pub use run::run_query;
pub use settings::{Limits, Settings};
pub use world::run_world;
