// Choices of one match of each part of a body, by their numbers, one after another.
ghost use Rattle.std.specs.Prelude.{◌≡◌, ◌∷◌, [], slice_index_or, true, false, IfOk};
ghost use Rattle.homomorphism.specs.Walks.{Advances, AreWithin, IsLater, begun, turns};

use lists::{NoMemory, Seq};
use std::alloc::Global;

/// How many of its matches each part gives.
pub type Counts = Seq<usize>;

/// Choices of one match of each part that are left.
#[derive(Drop)]
pub struct Turning {
    /// How many of its matches each part gives.
    pub counts: Counts,
    /// For each part the number of its match in the next choice.
    pub numbers: Seq<usize>,
}

impl Turning {
    /// All choices below the counts.
    pub fn begin(alloc: Global, counts: Counts) -> Result<Turning, NoMemory>
        ensures { IfOk result (λ one. one ≡ begun counts) }
    {
        let numbers = vec![in alloc; 0; counts.len()]?;
        Ok(Turning {
            counts,
            numbers: Seq::from_vec(numbers),
        })
    }

    /// What is left behind the next choice, if anything is.
    pub fn later(self, alloc: Global) -> Result<Option<Turning>, NoMemory>
        requires { AreWithin self.counts self.numbers }
        ensures { IfOk result (λ later. IsLater self later) }
    {
        let mut next = Vec::new(alloc);
        if advanced(self.counts.as_slice(), self.numbers.as_slice(), &mut next)? {
            return Ok(Some(Turning {
                counts: self.counts,
                numbers: Seq::from_vec(next),
            }));
        }
        Ok(None)
    }
}

/// Adds the numbers of the next choice, if there is one; the first number changes first.
fn advanced(counts: &[usize], numbers: &[usize], next: &mut Vec<usize>) -> Result<bool, NoMemory>
    requires { AreWithin counts.now numbers.now }
    ensures more { IfOk result (λ more. more ≡ true → Advances counts.now numbers.now next.old.items next.new.items) }
    ensures last { IfOk result (λ more. more ≡ false → turns counts.now numbers.now ≡ numbers.now ∷ []) }
{
    let [number, later @ ..] = numbers else {
        return Ok(false);
    };
    let [count, others @ ..] = counts else {
        return Ok(false);
    };
    let following = *number + 1;
    if following < *count {
        next.push(following)?;
        next.extend_from_slice(later)?;
        return Ok(true);
    }
    next.push(0)?;
    advanced(others, later, next)
}

/// The number that stands for the part.
pub fn number_of(numbers: &[usize], part: usize) -> usize
    ensures { result ≡ slice_index_or numbers.now part 0 }
{
    match numbers.get(part) {
        Some(number) => *number,
        None => 0,
    }
}
