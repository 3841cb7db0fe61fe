// The answers of a round, taken into what was received.
ghost use Rattle.std.specs.Prelude.{◌≡◌, ◌+◌, ◌<◌, ◌^◌, [], List, OnOk, Some, length, slice_get};
ghost use Rattle.crawl_rounds.specs.Log.{Answered, IsAmong};
ghost use Rattle.crawl.specs.Progress.{AreKnownTo, Gains, StandsInAnswers, answered_by, TakesRound};
ghost use Rattle.crawl.specs.declared.progress.Progress.{Progress};

use crate::progress::Progress;
use lists::NoMemory;
use middleware::Answers;
use row_text::LentRows;
use source_trait::Ask;
use std::alloc::Global;

/// Takes the answers of a piece of a round, each to the request at its place. What is known stays. Where memory is
/// refused, a part of them may have been taken.
pub fn take_answers(
    alloc: Global,
    asks: &[Ask],
    answers: &Answers,
    progress: &mut Progress,
) -> Result<(), NoMemory>
    requires known { AreKnownTo asks.now progress.old.known }
    requires answered { length answers.now ≡ length asks.now }
    ensures { OnOk result (Gains (StandsInAnswers (answered_by asks.now answers.now)) (IsAmong (answered_by asks.now answers.now)) progress.old progress.new) }
{
    let mut number: usize = 0;
    for ask in asks {
        let rows = rows_at(answers, number);
        progress.take_rows(alloc, &ask.request, &rows)?;
        number += 1;
    }
    Ok(())
}

/// Ends a round of so many requests, whose answers were taken: what was found is known, and new where it was not known
/// before. All values so far are old.
pub fn end_round(alloc: Global, asked: u32, progress: &mut Progress) -> Result<(), NoMemory>
    requires made { progress.old.made + asked < 2 ^ 32 }
    requires rounds { progress.old.rounds + 1 < 2 ^ 32 }
    ensures { OnOk result ((answers : List Answered) (start : Progress) → start.found.list.items ≡ [] → length answers ≡ asked
        → Gains (StandsInAnswers answers) (IsAmong answers) start progress.old → TakesRound answers start progress.new) }
{
    progress.found.arrange();
    progress.known.settle();
    progress.known.take_in(alloc, &mut progress.found.list)?;
    progress.known.arrange();
    progress.made += asked;
    progress.rounds += 1;
    Ok(())
}

/// The rows of the answer of a number that there is.
pub fn rows_at(answers: &Answers, number: usize) -> LentRows<'_>
    requires { number < length answers.now }
    ensures { slice_get answers.now number ≡ Some result }
{
    match answers.get(number) {
        Some(rows) => rows,
        None => unreachable!(),
    }
}
