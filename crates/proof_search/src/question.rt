// What is asked of queries.

use access_schema::Schema;
use lists::Texts;
use meaning::types::{Queries, Query, Vals};

/// Which branches answer the queries of a statement's selects: over this schema, with these known constants, by proofs of at most `firings`
/// firings.
#[derive(Drop)]
pub struct Questions<'a> {
    pub schema: &'a Schema,
    pub queries: &'a Queries,
    pub known: &'a Texts,
    pub firings: u32,
}

/// Which branch answers a query, among all the queries of its statement: over this schema, with these known constants, by proofs of at
/// most `firings` firings. The head is the query's frozen one.
#[derive(Drop)]
pub struct Question<'a> {
    pub schema: &'a Schema,
    pub query: &'a Query,
    pub queries: &'a Queries,
    pub known: &'a Texts,
    pub head: &'a Vals,
    pub firings: u32,
}
