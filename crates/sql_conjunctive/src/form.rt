// What a select is as a query.
use meaning::types::Query;

/// A select that has no answer on any instance, or its query.
#[derive(Drop)]
pub enum Conjunctive {
    Never,
    Query(Query),
}
