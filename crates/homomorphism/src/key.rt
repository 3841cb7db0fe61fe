// What facts are looked up by.
use meaning::types::Val;

/// A relation, by its number, or a relation with a value at a position.
#[derive(PartialEq, Eq, PartialOrd, Ord, Drop)]
pub enum Key {
    Relation(u32),
    Value { rel: u32, position: usize, val: Val },
}
