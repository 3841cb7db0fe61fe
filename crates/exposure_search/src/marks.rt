// Marks at numbers, and those that are made before a search.
ghost use Rattle.std.specs.Prelude.{◌≡◌, ◌↔◌, IsTrue, IfOk, Some, slice_get, false};
ghost use Rattle.exposure_search.specs.Tries.{IsMarked};
ghost use Rattle.exposure_search.specs.Ahead.{AreTheMarked};

use lists::NoMemory;
use std::alloc::Global;

/// Marks of the base facts that are relevant, of those among them on which a match can rest directly or by rules, and of the rules
/// that can make such a fact. The other relevant facts hold a value that is an input of a relevant fact.
#[derive(Drop)]
pub struct Marks {
    pub relevant: Vec<bool>,
    pub needed: Vec<bool>,
    pub makers: Vec<bool>,
}

/// Whether the mark with that number is set. Takes no memory.
pub(crate) fn is_marked(marks: &[bool], number: usize) -> bool
    ensures { IsTrue result ↔ IsMarked marks.now number }
{
    match marks.get(number) {
        Some(mark) => *mark,
        None => false,
    }
}

/// Whether the mark with that number is there, and not set. Takes no memory.
pub(crate) fn is_clear(marks: &[bool], number: usize) -> bool
    ensures { IsTrue result ↔ (slice_get marks.now number ≡ Some false) }
{
    match marks.get(number) {
        Some(mark) => !*mark,
        None => false,
    }
}

/// The numbers that are marked.
pub(crate) fn marked_numbers(alloc: Global, marks: &[bool]) -> Result<Vec<usize>, NoMemory>
    ensures { IfOk result (λ numbers. AreTheMarked marks.now numbers.items) }
{
    let mut numbers = Vec::new(alloc);
    for (number, mark) in marks.iter().enumerate() {
        if *mark {
            numbers.push(number)?;
        }
    }
    Ok(numbers)
}
