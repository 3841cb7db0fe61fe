//! The laws of integer columns: each is the contract of a public function that does nothing.
//!
//! They say that what stands at an integer column stays an integer along firings, conjunctive forms and names, and
//! that the laws of `meaning_laws` that build instances then build sorted ones.
#![tactic(auto)]

pub mod laws;
pub mod worked;
