// What the steps of a round received, and the first bad number there.
ghost use Rattle.std.specs.Prelude.{◌≡◌, ◌<◌, ◌+◌, ◌^◌, ◌++◌, [], ℕ, Contains, length, slice_index_or};
ghost use Rattle.access_schema.specs.Meaning.{meaning_of};
ghost use Rattle.bad_numbers.specs.Numbers.{FindsBad};
ghost use Rattle.plan_batches.specs.Naming.{NumbersBelow};
ghost use Rattle.plan_batches.specs.Receiving.{FindsFirst, FindsOf, rows_of};

use crate::kept::rows_at;
use crate::member::Going;
use access_schema::Schema;
use bad_numbers::{BadNumber, bad_in, lower};
use middleware::Answers;
use plan_course::Next;
use row_text::LentRows;

/// The first plan whose step received a bad number in a round: its number, counted from 0, the relation of the step, and the least
/// column with a bad number of what the step received.
#[derive(Clone, Copy, Debug, PartialEq, Eq)]
pub struct FirstBad {
    pub plan: u32,
    pub rel: u32,
    pub column: u32,
}

/// The first of the plans whose step received a bad number. Their answers are among those that are kept and those of the round. Takes no
/// memory.
pub fn first_bad(
    schema: &Schema,
    goings: &[Going],
    kept: &Answers,
    round: &Answers,
) -> Option<FirstBad>
    requires few { length goings.now < 2 ^ 32 }
    requires numbers { NumbersBelow (length kept.now + length round.now) goings.now }
    ensures { FindsFirst schema.now (kept.now ++ round.now) goings.now result }
{
    let mut plan: u32 = 0;
    for going in goings {
        match bad_of(schema, going, kept, round) {
            Some(BadNumber { rel, column }) => return Some(FirstBad { plan, rel, column }),
            None => plan += 1,
        }
    }
    None
}

// The relation of the step and the least column with a bad number of what the step received.
fn bad_of(schema: &Schema, going: &Going, kept: &Answers, round: &Answers) -> Option<BadNumber>
    requires { (number : ℕ) → Contains going.now.numbers.items number → number < length kept.now + length round.now }
    ensures { FindsOf schema.now (kept.now ++ round.now) going.now result }
{
    match &going.next {
        Next::Wants(pending) => {
            let rel = pending.method.rel;
            let found = bad_at(schema, rel, kept, round, going.numbers.as_slice());
            BadNumber::of(rel, found)
        }
        Next::Done(_) => None,
    }
}

// The least column with a bad number in the answers of these numbers, to requests of the relation.
fn bad_at(
    schema: &Schema,
    rel: u32,
    kept: &Answers,
    round: &Answers,
    numbers: &[usize],
) -> Option<u32>
    requires { (number : ℕ) → Contains numbers.now number → number < length kept.now + length round.now }
    ensures { FindsBad (meaning_of schema.now) rel (rows_of (kept.now ++ round.now) numbers.now) result }
{
    let mut found = None;
    for number in numbers {
        found = lower(found, bad_in(schema, rel, &answer_at(kept, round, *number)));
    }
    found
}

// The rows of the answer of a number, counted through those that are kept and those of the round.
fn answer_at<'a>(kept: &'a Answers, round: &'a Answers, number: usize) -> LentRows<'a>
    requires { number < length kept.now + length round.now }
    ensures { result ≡ slice_index_or (kept.now ++ round.now) number [] }
{
    if number < kept.len() {
        rows_at(kept, number)
    } else {
        rows_at(round, number - kept.len())
    }
}
