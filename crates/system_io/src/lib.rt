//! Files of the system, standard output and standard error, as the traits of `source_trait`.
//!
//! The program hands these to the top call. Begin at `Opens` and `Tells`: what is proved holds over anything that opens files by their names,
//! and over any writer.
#![tactic(auto)]

mod real;

pub use real::{Opens, RealErr, RealFiles, RealOut, RealSink, System, Tells};
