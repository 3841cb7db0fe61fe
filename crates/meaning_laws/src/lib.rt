//! The laws between the definitions of `meaning`: each is the contract of a public function that does nothing.
//!
//! A crate above calls a law, and so has its clause among the facts of its own proof. Begin at `src/laws.rt`;
//! `src/worked.rt` says what each definition says of one small schema.
#![tactic(auto)]

pub mod laws;
pub mod worked;
