//! Texts and lists of values, which contracts see as lists; the lowest crate.
//!
//! Every plural name of the crates above is an alias of `Seq`, and every name and value is a `Text`.
//! Begin at `src/seq.rt`.
#![tactic(auto)]

mod compared;
mod copies;
mod decimals;
mod exact;
mod hash;
mod seq;
mod text;

pub use copies::Copies;
pub use decimals::decimal_up_to;
pub use exact::Exact;
pub use hash::mix;
pub use seq::Seq;
pub use std::alloc::AllocError as NoMemory;
pub use text::Text;

/// Bytes, as a file has them.
pub type Bytes = Seq<u8>;

/// Numbers, as those of the calls that are to fail.
pub type Numbers = Seq<u64>;

/// Texts in order, as the columns of a relation.
pub type Texts = Seq<Text>;

/// The values of a row, in the order of the columns.
pub type Row = Seq<Text>;

/// Rows in order.
pub type Rows = Seq<Row>;

/// Positions of columns, or numbers of relations.
pub type Places = Seq<u32>;
