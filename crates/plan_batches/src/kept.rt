// The answers to requests of earlier rounds.
ghost use Rattle.std.specs.Prelude.{◌≡◌, ◌<◌, ◌++◌, [], ℕ, Contains, IfOk, length, slice_index_or};
ghost use Rattle.plan_batches.specs.Kept.{answers_at};

use lists::NoMemory;
use middleware::Answers;
use row_text::{LentRows, PackedRows};
use std::alloc::Global;

/// The answers, and behind them those of a round.
pub fn keep(alloc: Global, kept: Answers, round: &Answers) -> Result<Answers, NoMemory>
    ensures { IfOk result (λ all. all ≡ kept ++ round.now) }
{
    let mut all = kept;
    for number in 0..round.len() {
        all = all.with(copied(alloc, &rows_at(round, number))?)?;
    }
    Ok(all)
}

/// The answers of these numbers.
pub fn picked(alloc: Global, kept: &Answers, numbers: &[usize]) -> Result<Answers, NoMemory>
    requires { (number : ℕ) → Contains numbers.now number → number < length kept.now }
    ensures { IfOk result (λ answers. answers ≡ answers_at kept.now numbers.now) }
{
    let mut answers = Answers::new(alloc);
    for number in numbers {
        answers = answers.with(copied(alloc, &rows_at(kept, *number))?)?;
    }
    Ok(answers)
}

/// The rows of the answer of a number that there is.
pub fn rows_at(answers: &Answers, number: usize) -> LentRows<'_>
    requires { number < length answers.now }
    ensures { result ≡ slice_index_or answers.now number [] }
{
    match answers.get(number) {
        Some(rows) => rows,
        None => unreachable!(),
    }
}

// The rows that are lent.
fn copied(alloc: Global, rows: &LentRows<'_>) -> Result<PackedRows, NoMemory>
    ensures { IfOk result (λ copied. copied ≡ rows.now) }
{
    let mut copied = PackedRows::new(alloc);
    for number in 0..rows.len() {
        copied = copied.with_lent(&rows.at(number))?;
    }
    Ok(copied)
}
