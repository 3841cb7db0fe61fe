// The limit of a select that the conjunctive form relies on.

/// The most FROM items of a select.
pub const MOST_FROMS: usize = 16;
