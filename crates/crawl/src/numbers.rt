// Bad numbers in the answers of a round.
ghost use Rattle.std.specs.Prelude.{◌≡◌, length};
ghost use Rattle.access_schema.specs.Meaning.{meaning_of};
ghost use Rattle.bad_numbers.specs.Found.{FindsAmong};
ghost use Rattle.crawl_rounds.specs.Log.{IsAmong};
ghost use Rattle.crawl.specs.Progress.{answered_by};

use crate::taking::rows_at;
use access_schema::Schema;
use bad_numbers::{BadNumber, bad_in, earlier};
use middleware::Answers;
use source_trait::Ask;

/// The least relation, and its least integer column, at which a row of the answers has another value; none where each has integers
/// there. Takes no memory.
pub fn first_bad(schema: &Schema, asks: &[Ask], answers: &Answers) -> Option<BadNumber>
    requires { length answers.now ≡ length asks.now }
    ensures { FindsAmong (meaning_of schema.now) (IsAmong (answered_by asks.now answers.now)) result }
{
    let mut found = None;
    let mut number: usize = 0;
    for ask in asks {
        let rel = ask.request.rel;
        let rows = rows_at(answers, number);
        found = earlier(found, BadNumber::of(rel, bad_in(schema, rel, &rows)));
        number += 1;
    }
    found
}
