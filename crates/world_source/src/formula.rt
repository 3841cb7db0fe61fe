// The formula of a relation, and its rows.
ghost use Rattle.std.specs.Prelude.{◌≡◌, ◌≢◌, ◌↔◌, ◌<◌, ◌≤◌, ◌+◌, ◌-◌, ◌%◌, ◌++◌, ◌∷◌, [], ℕ, Some, length, option_map, IfOk, IsTrue, MatchOption};
ghost use Rattle.std.specs.Fmt.{decimal};
ghost use Rattle.std.specs.List.{filter};
ghost use Rattle.source_trait.specs.Asking.{agrees};
ghost use Rattle.world_source.specs.Formulas.{IsPairKey, in_range, numbers_of, row_of, rows_of};

use lists::{NoMemory, Text};
use pq_text::plain_number;
use row_text::PackedRows;
use std::alloc::Global;

/// The formula of a relation: each number below `count` leads to the one that is `step` further on, counted round from `count` to 0.
#[derive(Clone, Copy)]
pub struct Formula {
    pub step: u32,
    pub count: u32,
    ghost near: { step ≤ 8 },
    ghost some: { 1 ≤ count },
    ghost few: { count ≤ 10000 },
}

impl Formula {
    /// The formula of a locator `k/n`, where k is 1 to 8 and n is 1 to 10,000; none where it is another text.
    pub fn at(alloc: Global, locator: &Text) -> Result<Option<Formula>, NoMemory>
        ensures { IfOk result (λ found. option_map (λ f. (f.step, f.count)) found ≡ numbers_of locator.now) }
    {
        let Some((step, count)) = locator.as_str().split_once('/') else {
            return Ok(None);
        };
        let step = Text::from_str(alloc, step)?;
        let count = Text::from_str(alloc, count)?;
        let Some(step) = plain_number(&step) else {
            return Ok(None);
        };
        let Some(count) = plain_number(&count) else {
            return Ok(None);
        };
        Ok(formula_of(step, count))
    }

    /// The rows that have the values at the positions, in order.
    pub fn rows_with(
        self,
        alloc: Global,
        positions: &[u32],
        values: &[Text],
    ) -> Result<PackedRows, NoMemory>
        requires { IsPairKey positions.now values.now }
        ensures { IfOk result (λ rows. rows ≡ filter (agrees positions.now values.now) (rows_of self.step self.count)) }
    {
        if positions.is_empty() {
            return self.rows(alloc);
        }
        let none = PackedRows::new(alloc);
        match self.number_with(positions, values) {
            Some(number) => self.with_row(alloc, none, number),
            None => Ok(none),
        }
    }

    // All rows, in order.
    fn rows(self, alloc: Global) -> Result<PackedRows, NoMemory>
        ensures { IfOk result (λ rows. rows ≡ rows_of self.step self.count) }
    {
        let mut rows = PackedRows::new(alloc);
        for number in 0..self.count {
            rows = self.with_row(alloc, rows, number)?;
        }
        Ok(rows)
    }

    // The rows, and the one of a number behind them.
    fn with_row(self, alloc: Global, rows: PackedRows, number: u32) -> Result<PackedRows, NoMemory>
        requires { number < self.count }
        ensures { IfOk result (λ more. more ≡ rows ++ row_of self.step self.count number ∷ []) }
    {
        let first = format!(in alloc; "{number}")?;
        let second = format!(in alloc; "{}", self.next(number))?;
        rows.with_texts(&[first.as_str(), second.as_str()])
    }

    // The number of the one row that has the values at the positions; none where no row has them.
    fn number_with(self, positions: &[u32], values: &[Text]) -> Option<u32>
        requires key { IsPairKey positions.now values.now }
        requires some { 1 ≤ length positions.now }
        ensures { MatchOption result (filter (agrees positions.now values.now) (rows_of self.step self.count) ≡ [])
            (λ number. (number < self.count) × (filter (agrees positions.now values.now) (rows_of self.step self.count) ≡ row_of self.step self.count number ∷ [])) }
    {
        let Some(number) = self.number_of(&values[0]) else {
            return None;
        };
        if positions[0] == 1 {
            return Some(self.before(number));
        }
        match values.get(1) {
            Some(second) if !self.leads_to(number, second) => None,
            _ => Some(number),
        }
    }

    // The number below the count that is written so.
    fn number_of(self, text: &Text) -> Option<u32>
        ensures { MatchOption result ((n : ℕ) → n < self.count → text.now ≢ decimal n) (λ n. (text.now ≡ decimal n) × (n < self.count)) }
    {
        match plain_number(text) {
            Some(number) if number < self.count => Some(number),
            _ => None,
        }
    }

    // Whether the text is the number that a number leads to.
    fn leads_to(self, number: u32, text: &Text) -> bool
        requires { number < self.count }
        ensures { IsTrue result ↔ (text.now ≡ decimal ((number + self.step) % self.count)) }
    {
        match self.number_of(text) {
            Some(other) => other == self.next(number),
            None => false,
        }
    }

    // The number that a number leads to.
    fn next(self, number: u32) -> u32
        requires { number < self.count }
        ensures { result ≡ (number + self.step) % self.count }
    {
        (number + self.step) % self.count
    }

    // The number that leads to a number.
    fn before(self, number: u32) -> u32
        requires { number < self.count }
        ensures below { result < self.count }
        ensures leads { (result + self.step) % self.count ≡ number }
    {
        (number + self.count - self.step % self.count) % self.count
    }
}

// The formula of these numbers, where they are in range.
fn formula_of(step: u32, count: u32) -> Option<Formula>
    ensures { option_map (λ f. (f.step, f.count)) result ≡ in_range (Some step) (Some count) }
{
    if 1 <= step && step <= 8 && (1 <= count && count <= 10_000) {
        Some(Formula { step, count })
    } else {
        None
    }
}
