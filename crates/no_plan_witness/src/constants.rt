// The known constants, among which a text is found by bisection.
ghost use Rattle.std.specs.Prelude.{◌↔◌, ℕ, List, IsTrue, Contains, IfOk};

use lists::{Copies, NoMemory, Text, Texts};
use std::alloc::Global;
use std::marker::Model;

/// Constants in ascending order. Contracts see their list.
#[derive(Drop)]
pub struct Constants {
    sorted: Vec<Text>,
}

impl Model for Constants {
    ghost use Rattle.std.specs.Prelude.{List, ℕ};
    ghost use Rattle.std.specs.Cmp.Lexicographic.{slice_cmp};
    ghost use Rattle.std.specs.Ordering.{nat_cmp};
    ghost use Rattle.std.specs.List.Sorted.{IsSorted};

    ghost Value = { List (List ℕ) };

    ghost view = { λ c. c.sorted.items };

    ghost invariant = { λ c. IsSorted (slice_cmp nat_cmp) c.sorted.items };
}

impl Constants {
    /// These constants.
    pub fn new(alloc: Global, known: &Texts) -> Result<Constants, NoMemory>
        ensures { IfOk result (λ constants. (text : List ℕ) → Contains constants text ↔ Contains known.now text) }
    {
        let mut sorted = known.copy(alloc)?.into_vec();
        sorted.sort_unstable();
        Ok(Constants { sorted })
    }

    /// Whether the text is one of them. Takes no memory.
    pub fn has(&self, text: &Text) -> bool
        ensures { IsTrue result ↔ Contains self.now text.now }
    {
        self.sorted.as_slice().binary_search(text).is_ok()
    }
}
