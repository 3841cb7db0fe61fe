// Lists of names: whether a name is among them, its place, repetitions, and each name once.
ghost use Rattle.std.specs.Prelude.{◌≡◌, ◌≤◌, ◌∷◌, [], length, IfOk, OnOk, OnErr};
ghost use Rattle.access_schema.specs.Lists.{is_among, place_of, repeats, once_after};

use lists::{Copies, Text};
use std::alloc::{AllocError, Global};
use std::collections::BTreeSet;

/// Whether the text is one of the list.
pub fn is_among(texts: &[Text], text: &Text) -> bool
    ensures { result ≡ is_among texts.now text.now }
{
    texts.contains(text)
}

/// The first place of the text, or the length of a list that lacks it.
pub fn place_of(texts: &[Text], text: &Text) -> usize
    ensures place { result ≡ place_of texts.now text.now }
    ensures within { result ≤ length texts.now }
{
    let mut place = 0;
    let mut left = texts;
    while let [first, rest @ ..] = left {
        if *first == *text {
            return place;
        }
        place += 1;
        left = rest;
    }
    place
}

/// Whether a text stands twice in the list.
pub fn repeats(alloc: Global, texts: &[Text]) -> Result<bool, AllocError>
    ensures { IfOk result (λ twice. twice ≡ repeats texts.now) }
{
    let mut passed = BTreeSet::new(alloc);
    for text in texts {
        if !passed.insert(text.as_str())? {
            return Ok(true);
        }
    }
    Ok(false)
}

/// Appends a copy of the text if it is not among the known ones.
pub fn add_once(alloc: Global, known: &mut Vec<Text>, text: &Text) -> Result<(), AllocError>
    ensures ok { OnOk result (known.new.items ≡ once_after known.old.items (text.now ∷ [])) }
    ensures err { OnErr result (known.new.items ≡ known.old.items) }
{
    if !is_among(known.as_slice(), text) {
        known.push(text.copy(alloc)?)?;
    }
    Ok(())
}
