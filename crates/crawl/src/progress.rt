// What a crawl has received, round by round.
ghost use Rattle.std.specs.Prelude.{◌≡◌, ◌++◌, ◌∷◌, [], Contains, OnOk, IfOk};
ghost use Rattle.meaning.specs.Values.{Value};
ghost use Rattle.crawl.specs.Progress.{BeginsWith, Gains, StandsIn, IsRowOf};

use crate::found::FoundValues;
use crate::known::KnownValues;
use crate::started::StartedRow;
use lists::{NoMemory, Text};
use meaning::types::Request;
use row_text::{LentRow, LentRows};
use std::alloc::Global;

/// The values that are known, the facts that were received, as often as they came, and how many requests and rounds were asked.
#[derive(Drop)]
pub struct Progress {
    pub known: KnownValues,
    // what came in the last round
    pub found: FoundValues,
    pub received: Vec<(u32, StartedRow)>,
    pub made: u32,
    pub rounds: u32,
}

impl Progress {
    /// That before the first round, where the constants alone are known.
    pub fn new(alloc: Global, constants: &[Text]) -> Result<Progress, NoMemory>
        ensures { IfOk result (BeginsWith constants.now) }
    {
        let mut found = FoundValues::of(alloc, constants)?;
        let mut known = KnownValues::new(alloc);
        known.take_in(alloc, &mut found.list)?;
        known.arrange();
        Ok(Progress {
            known,
            found,
            received: Vec::new(alloc),
            made: 0,
            rounds: 0,
        })
    }

    /// Takes the rows of the answer to a request of known values. Where memory is refused, a part of them may have been taken.
    pub fn take_rows(
        &mut self,
        alloc: Global,
        request: &Request,
        rows: &LentRows<'_>,
    ) -> Result<(), NoMemory>
        requires { (v : Value) → Contains request.now.values v → Contains self.old.known.all.keys v }
        ensures { OnOk result (Gains (StandsIn rows.now) (IsRowOf request.now.rel rows.now) self.old self.new) }
    {
        for number in 0..rows.len() {
            self.take_row(alloc, request, &rows.at(number))?;
        }
        Ok(())
    }

    fn take_row(
        &mut self,
        alloc: Global,
        request: &Request,
        lent: &LentRow<'_>,
    ) -> Result<(), NoMemory>
        requires { (v : Value) → Contains request.now.values v → Contains self.old.known.all.keys v }
        ensures { OnOk result (Gains (Contains lent.now) (λ fact. fact ≡ record { rel = request.now.rel; row = lent.now }) self.old self.new) }
    {
        let row = self.found.take_row(alloc, request.values.as_slice(), lent)?;
        self.received.push((request.rel, StartedRow::new(row)))?;
        Ok(())
    }
}
