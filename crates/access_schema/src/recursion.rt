// Whether rules are recursive: marks go from the relations of a new rule's head along the older rules.
ghost use Rattle.std.specs.Prelude.{◌≡◌, ◌↔◌, ◌++◌, ◌∷◌, [], IfOk, IsTrue, All, ◌<◌, length, option_copied, replicate, false};
ghost use Rattle.std.specs.List.{find};
ghost use Rattle.access_schema.specs.Links.{AreBelow, IsBelow, LeadRound, Spreads};
ghost use Rattle.access_schema.specs.Marks.{any_marked, all_marked, with_marks, is_open};

use lists::Places;
use std::alloc::{AllocError, Global};

/// The relations of a rule's body and of its head, as numbers.
#[derive(Drop)]
pub struct Link {
    pub body: Places,
    pub head: Places,
}

fn any_marked(marks: &[bool], numbers: &[u32]) -> bool
    requires { All (λ number. number < length marks.now) numbers.now }
    ensures { result ≡ any_marked marks.now numbers.now }
{
    numbers.iter().any(|number| marks[*number as usize])
}

fn all_marked(marks: &[bool], numbers: &[u32]) -> bool
    requires { All (λ number. number < length marks.now) numbers.now }
    ensures { result ≡ all_marked marks.now numbers.now }
{
    numbers.iter().all(|number| marks[*number as usize])
}

fn mark_all(marks: &mut Vec<bool>, numbers: &[u32])
    requires { All (λ number. number < length marks.old.items) numbers.now }
    ensures { marks.new.items ≡ with_marks marks.old.items numbers.now }
{
    let mut left = numbers;
    while let [number, rest @ ..] = left {
        marks[*number as usize] = true;
        left = rest;
    }
}

fn is_open(marks: &[bool], link: &Link) -> bool
    requires { IsBelow (length marks.now) link.now }
    ensures { result ≡ is_open marks.now link.now }
{
    any_marked(marks, link.body.as_slice()) && !all_marked(marks, link.head.as_slice())
}

fn next_open<'a>(marks: &[bool], links: &'a [Link]) -> Option<&'a Link>
    requires { AreBelow (length marks.now) links.now }
    ensures { option_copied result ≡ find (is_open marks.now) links.now }
{
    let mut left = links;
    while let [link, rest @ ..] = left {
        if is_open(marks, link) {
            return Some(link);
        }
        left = rest;
    }
    None
}

/// Marks all that the links lead to from the marks.
fn spread(marks: &mut Vec<bool>, links: &[Link])
    requires { AreBelow (length marks.old.items) links.now }
    ensures { Spreads links.now marks.old.items marks.new.items }
{
    while let Some(link) = next_open(marks.as_slice(), links) {
        mark_all(marks, link.head.as_slice());
    }
}

fn no_marks(alloc: Global, count: usize) -> Result<Vec<bool>, AllocError>
    ensures { IfOk result (λ marks. marks.items ≡ replicate count false) }
{
    vec![in alloc; false; count]
}

/// Whether the links lead round, where those before the last do not: what they lead to from its head meets its body.
pub fn leads_round(
    alloc: Global,
    count: usize,
    older: &[Link],
    last: &Link,
) -> Result<bool, AllocError>
    requires older { AreBelow count older.now }
    requires last { IsBelow count last.now }
    requires straight { LeadRound older.now → ⊥ }
    ensures { IfOk result (λ round. IsTrue round ↔ LeadRound (older.now ++ last.now ∷ [])) }
{
    let mut marks = no_marks(alloc, count)?;
    mark_all(&mut marks, last.head.as_slice());
    spread(&mut marks, older);
    Ok(any_marked(marks.as_slice(), last.body.as_slice()))
}
