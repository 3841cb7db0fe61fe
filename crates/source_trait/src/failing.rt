// The numbers of the calls that are to fail, and how many calls were made.
ghost use Rattle.std.specs.Prelude.{◌≡◌, ◌↔◌, IsTrue, Contains};
ghost use Rattle.source_trait.specs.Failing.{next};

use lists::Numbers;

/// Calls that are counted from 1, with the numbers of those that are to fail.
#[derive(Drop)]
pub struct FailingCalls {
    numbers: Numbers,
    made: u64,
}

impl FailingCalls {
    /// No call is made yet. Takes no memory.
    pub fn new(numbers: Numbers) -> FailingCalls
        ensures { result ≡ record { numbers = numbers; made = 0 } }
    {
        FailingCalls { numbers, made: 0 }
    }

    /// Counts a call, and says whether it is to fail.
    pub fn fails_next(&mut self) -> bool
        ensures counts { self.new.made ≡ next self.old.made }
        ensures stays { self.new.numbers ≡ self.old.numbers }
        ensures listed { IsTrue result ↔ Contains self.old.numbers (next self.old.made) }
    {
        self.made = self.made.saturating_add(1);
        self.numbers.as_slice().contains(&self.made)
    }
}
