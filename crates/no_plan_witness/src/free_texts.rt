// Texts that are no constants.
ghost use Rattle.std.specs.Prelude.{◌≡◌, ◌<◌, ◌+◌, ◌^◌, IfOk, length};
ghost use Rattle.no_plan_witness.specs.Texts.{AreFirstFree, numbered_text};

use crate::constants::Constants;
use lists::{NoMemory, Text, Texts};
use meaning::types::Sort;
use std::alloc::Global;

/// The highest number: the highest integer of 64 bits.
const MOST: u64 = (1 << 63) - 1;

/// For each of the labels one text: the first ones of `_1`, `_2`, `_3` and so on that are not known, or as integers of `1`, `2`, `3`.
pub fn free_texts(
    alloc: Global,
    sort: Sort,
    known: &Texts,
    labels: &[u32],
) -> Result<Vec<Text>, NoMemory>
    ensures free { IfOk result (λ texts. AreFirstFree sort known.now texts.items) }
    ensures as_many { IfOk result (λ texts. length texts.items ≡ length labels.now) }
{
    let constants = Constants::new(alloc, known)?;
    let mut texts = Vec::with_capacity(alloc, labels.len())?;
    let mut number: u64 = 0;
    while texts.len() < labels.len() {
        number = next_number(number)?;
        let text = numbered_text(alloc, sort, number)?;
        if !constants.has(&text) {
            texts.push(text)?;
        }
    }
    Ok(texts)
}

/// The next number. There is no memory for as many texts as numbers of 63 bits.
fn next_number(number: u64) -> Result<u64, NoMemory>
    ensures next { IfOk result (λ next. next ≡ number + 1) }
    ensures few { IfOk result (λ next. next < 2 ^ 63) }
{
    if number < MOST {
        Ok(number + 1)
    } else {
        Err(NoMemory)
    }
}

/// The text with this number.
fn numbered_text(alloc: Global, sort: Sort, number: u64) -> Result<Text, NoMemory>
    ensures { IfOk result (λ text. text ≡ numbered_text sort number) }
{
    match sort {
        Sort::Text => Text::from_string(format!(in alloc; "_{number}")?),
        Sort::Int => Text::from_string(format!(in alloc; "{number}")?),
    }
}
