// Lanes as workers, which answer requests.
use crate::lanes::{Lane, call_on};
use crate::source::{CallFault, Source};
use lane_pool::Worker;
use lists::Text;
use meaning::types::Request;
use row_text::PackedRows;
use std::alloc::Global;

/// A request, and the kind of the source that is asked.
#[derive(Drop)]
pub struct Ask {
    pub kind: Text,
    pub request: Request,
}

/// What a lane answers: the rows of the request, why it has none, or that the lane was stopped and asked nothing.
#[derive(Drop)]
pub enum Asked {
    Rows(PackedRows),
    Failed,
    NoMemory,
    Skipped,
}

/// A lane that is not stopped asks the first source of the kind just the request, and is stopped where the call is refused.
impl<S: Source + Send + Drop> Worker for Lane<S> {
    ghost use Rattle.source_trait.specs.Works.{MayAsk, Works};

    type Item = Ask;

    type Answer = Asked;

    ghost ready = { MayAsk S.seen };

    ghost did = { Works S.seen };

    fn work(&mut self, alloc: Global, ask: &Ask) -> Asked {
        if self.stopped {
            return Asked::Skipped;
        }
        let request = &ask.request;
        match call_on(
            alloc,
            self,
            &ask.kind,
            request.rel,
            &request.positions,
            &request.values,
        ) {
            Ok(rows) => Asked::Rows(rows),
            Err(CallFault::Failed) => {
                self.stopped = true;
                Asked::Failed
            }
            Err(CallFault::NoMemory) => {
                self.stopped = true;
                Asked::NoMemory
            }
        }
    }
}
