// The columns that access steps have made so far.
ghost use Rattle.std.specs.Prelude.{◌≡◌, ◌≤◌, ◌<◌, ◌^◌, [], length, IfOk, OnOk};
ghost use Rattle.meaning.specs.Extract.{column_of, label_place, label_out, with_label};

use lists::NoMemory;
use meaning::types::{Out, Place};
use std::alloc::Global;
use std::marker::Model;

/// The label of each column, which contracts see as a list.
#[derive(Drop)]
pub struct Columns {
    labels: Vec<u32>,
}

impl Model for Columns {
    ghost use Rattle.std.specs.Prelude.{ℕ, List};

    ghost Value = { List ℕ };

    ghost view = { λ c. c.labels.items };
}

impl Columns {
    /// No column. Takes no memory.
    pub fn new(alloc: Global) -> Columns
        ensures { result ≡ [] }
    {
        Columns {
            labels: Vec::new(alloc),
        }
    }

    /// The place of a label in a step: its column, or a new one, which it then has.
    pub fn place(&mut self, label: u32) -> Result<Place, NoMemory>
        requires { length self.old < 2 ^ 32 }
        ensures place { IfOk result (λ place. place ≡ label_place (column_of self.old label)) }
        ensures columns { OnOk result (self.new ≡ with_label self.old label (column_of self.old label)) }
    {
        match find(self.labels.as_slice(), label) {
            Some(column) => Ok(Place::Col(column)),
            None => {
                self.labels.push(label)?;
                Ok(Place::New)
            }
        }
    }

    /// The place of a label in an output: its column, or the first one where it has none. Takes no memory.
    pub fn out(&self, label: u32) -> Out
        requires { length self.now ≤ 2 ^ 32 }
        ensures { result ≡ label_out (column_of self.now label) }
    {
        match find(self.labels.as_slice(), label) {
            Some(column) => Out::Col(column),
            None => Out::Col(0),
        }
    }
}

// The number of the first column that has the label.
fn find(labels: &[u32], label: u32) -> Option<u32>
    requires { length labels.now ≤ 2 ^ 32 }
    ensures { result ≡ column_of labels.now label }
{
    let mut column: u64 = 0;
    let mut left = labels;
    while let [first, rest @ ..] = left {
        if *first == label {
            return Some(column as u32);
        }
        column += 1;
        left = rest;
    }
    None
}
