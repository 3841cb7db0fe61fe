//! The commands `crawl` and `reach`. `crawl` writes all facts that the methods of a schema reach; `reach` writes the answers of a query
//! on these facts.
//!
//! Begin at `specs/Ends.antt` and `specs/Reach.antt`, which say how the commands end.
#![tactic(auto)]

mod reach;
mod schema;

pub use reach::reach_query;
pub use schema::crawl_schema;
