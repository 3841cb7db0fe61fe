//! Whether an instance meets the rules of a schema, and otherwise what shows that it does not.
//!
//! Crates above use this: `verify` answers none exactly where the instance meets every rule, and otherwise the first rule
//! that is not met with the least facts that break it. Begin at `specs/Breaking.antt`.
#![tactic(auto)]

mod broken;
mod fitting;
mod inclusion;
mod key_set;
mod keys;
mod least;
mod remaining;
mod row_key;
mod rows;
mod settling;
mod text;
mod verifying;

pub use broken::{Broken, Facts};
pub use text::verification_text;
pub use verifying::{verify, verify_taken};
