// The requests of one round, asked of one source of a lane.
ghost use Rattle.std.specs.Prelude.{◌≡◌, List, ℕ, Contains, IfErr};
ghost use Rattle.source_trait.specs.Asking.{CallGives, CanAsk};
ghost use Rattle.source_trait.specs.Lanes.{AtKind, StepsOn};
ghost use Rattle.source_trait.specs.declared.source.CallFault.TheVariants.{Failed};
ghost use Rattle.middleware.specs.Rounds.{AnswersAll, CallBreaks};

use crate::answers::Answers;
use lists::{Places, Text};
use row_text::{LentRow, PackedRows};
use source_trait::{CallFault, Lane, Source, call_on};
use std::alloc::Global;

/// The answers of the lane's source of the kind to the requests, which are asked in order, each once, up to the first that is refused.
pub fn ask_all<S: Source + Send + Drop>(
    alloc: Global,
    lane: &mut Lane<S>,
    kind: &Text,
    rel: u32,
    positions: &Places,
    requests: &PackedRows,
) -> Result<Answers, CallFault>
    requires there { AtKind lane.old.kinds.items kind.now (λ s. Unit {0}) }
    requires ready { (values : List (List ℕ)) → Contains requests.now values → AtKind lane.old.kinds.items kind.now (λ s. CanAsk ((S.seen s).attached rel) positions.now values) }
    ensures steps { StepsOn lane.old.kinds.items lane.new.kinds.items kind.now (λ s t. AnswersAll rel positions.now requests.now result (S.seen s) (S.seen t)) }
    ensures breaks { IfErr result (λ fault. fault ≡ Failed
        → CallBreaks S.seen rel positions.now requests.now kind.now lane.old.kinds.items lane.new.kinds.items) }
    ensures stopped { lane.new.stopped ≡ lane.old.stopped }
{
    let mut answers = Answers::new(alloc);
    for number in 0..requests.len() {
        let answer = ask_row(alloc, lane, kind, rel, positions, &requests.at(number))?;
        answers = match answers.with(answer) {
            Ok(more) => more,
            Err(_) => return Err(CallFault::NoMemory),
        };
    }
    Ok(answers)
}

// The answer to the request of these values, of which a copy is made for the call.
fn ask_row<S: Source + Send + Drop>(
    alloc: Global,
    lane: &mut Lane<S>,
    kind: &Text,
    rel: u32,
    positions: &Places,
    values: &LentRow<'_>,
) -> Result<PackedRows, CallFault>
    requires ready { AtKind lane.old.kinds.items kind.now (λ s. CanAsk ((S.seen s).attached rel) positions.now values.now) }
    ensures steps { StepsOn lane.old.kinds.items lane.new.kinds.items kind.now (λ s t. CallGives (S.seen s) (S.seen t) rel positions.now values.now result) }
    ensures stopped { lane.new.stopped ≡ lane.old.stopped }
{
    match values.copy(alloc) {
        Ok(values) => call_on(alloc, lane, kind, rel, positions, &values),
        Err(_) => Err(CallFault::NoMemory),
    }
}
