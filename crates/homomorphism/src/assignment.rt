// Values for variables.
use lists::{Copies, NoMemory, Seq};
use meaning::types::{Val, Vals};
use std::alloc::Global;

/// For each variable a value, or none.
pub type Bindings = Seq<Option<Val>>;

/// A value for each variable, by number.
#[derive(Drop)]
pub struct Assignment {
    pub vals: Vals,
}

pub type Assignments = Seq<Assignment>;

impl Copies for Assignment {
    fn copy(&self, alloc: Global) -> Result<Assignment, NoMemory> {
        Ok(Assignment {
            vals: self.vals.copy(alloc)?,
        })
    }
}
