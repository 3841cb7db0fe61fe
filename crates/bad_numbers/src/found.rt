// Findings of several parts, taken together.
ghost use Rattle.std.specs.Prelude.{◌≡◌};
ghost use Rattle.bad_numbers.specs.Found.{lower_of, stands_first, earlier_of};

/// A column of a relation, both by number, at which a value is no integer.
#[derive(Clone, Copy, Debug, PartialEq, Eq)]
pub struct BadNumber {
    pub rel: u32,
    pub column: u32,
}

impl BadNumber {
    ghost use Rattle.std.specs.Prelude.{◌≡◌};
    ghost use Rattle.bad_numbers.specs.Found.{of_relation};

    /// What was found of rows of the relation.
    pub fn of(rel: u32, found: Option<u32>) -> Option<BadNumber>
        ensures { result ≡ of_relation rel found }
    {
        match found {
            Some(column) => Some(BadNumber { rel, column }),
            None => None,
        }
    }
}

/// The lower of the columns found of two parts of the rows of a relation.
pub fn lower(first: Option<u32>, second: Option<u32>) -> Option<u32>
    ensures { result ≡ lower_of first second }
{
    match (first, second) {
        (Some(column), Some(other)) => Some(column.min(other)),
        (Some(column), None) => Some(column),
        (None, found) => found,
    }
}

/// The earlier of the bad numbers found of two parts of what was received: the lower relation goes first, and then the lower column.
pub fn earlier(first: Option<BadNumber>, second: Option<BadNumber>) -> Option<BadNumber>
    ensures { result ≡ earlier_of first second }
{
    match (first, second) {
        (Some(one), Some(other)) => Some(if stands_first(one, other) { one } else { other }),
        (Some(one), None) => Some(one),
        (None, found) => found,
    }
}

// Whether the one stands before the other, or where it does.
fn stands_first(one: BadNumber, other: BadNumber) -> bool
    ensures { result ≡ stands_first one other }
{
    one.rel < other.rel || (one.rel == other.rel && one.column <= other.column)
}
