// Two instances against any plan.

use lists::Row;
use meaning::types::Instance;

/// Two instances, and a row that is an answer on the first and not on the second.
#[derive(Drop)]
pub struct Witness {
    pub first: Instance,
    pub second: Instance,
    pub answer: Row,
}
