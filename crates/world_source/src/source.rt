// The generator as a source.
ghost use Rattle.std.specs.Prelude.{◌≡◌, ◌≤◌, Some, false, true, IsErrOf};
ghost use Rattle.source_trait.specs.Asking.{CallGives, CanAsk};
ghost use Rattle.source_trait.specs.Holding.{facts_held, attached_in};
ghost use Rattle.world_source.specs.Formulas.{offered};
ghost use Rattle.world_source.specs.Generated.{IsFresh, Offers, offers};

use crate::formula::Formula;
use crate::generated::Relations;
use lists::{Places, Row, Text, Texts};
use row_text::PackedRows;
use source_trait::{AttachFault, CallFault, RequestLog, Source};
use std::alloc::Global;

/// A source of relations of two columns, whose rows are those of the formula that their locator `k/n` names.
///
/// It is missing where the locator is no such text, with k from 1 to 8 and n from 1 to 10,000 without leading zeros. Its calls never fail.
#[derive(Drop)]
pub struct WorldSource {
    relations: Relations,
    asked: RequestLog,
}

impl WorldSource {
    /// A source to which nothing is attached. Takes no memory.
    pub fn new(alloc: Global) -> WorldSource
        ensures { IsFresh (⟦<WorldSource as Source>⟧.seen result) }
    {
        WorldSource {
            relations: Relations::new(alloc),
            asked: RequestLog::new(alloc),
        }
    }
}

impl Source for WorldSource {
    ghost seen = { λ w. record {
      held = Some (facts_held w.relations);
      offer = offers;
      passes = λ list. false;
      asked = Some w.asked;
      attached = attached_in w.relations;
      faults = 0;
      never_fails = true;
    } };

    fn attach(
        &mut self,
        alloc: Global,
        rel: u32,
        columns: &Texts,
        locator: &Text,
    ) -> Result<(), AttachFault> {
        self.relations.detach(rel);
        let formula = offered_formula(alloc, columns.len(), locator)?;
        match self.relations.take(alloc, rel, columns, locator, formula) {
            Ok(()) => Ok(()),
            Err(_) => Err(AttachFault::NoMemory),
        }
    }

    fn call(
        &mut self,
        alloc: Global,
        rel: u32,
        positions: &Places,
        values: &Row,
    ) -> Result<PackedRows, CallFault>
        requires { CanAsk ((⟦<WorldSource as Source>⟧.seen self.old).attached rel) positions.now values.now }
        ensures gives { CallGives (⟦<WorldSource as Source>⟧.seen self.old) (⟦<WorldSource as Source>⟧.seen self.new) rel positions.now values.now result }
        ensures works { ¬ (IsErrOf result CallFault.Failed) }
    {
        let rows = match self
            .relations
            .ask(alloc, rel, positions.as_slice(), values.as_slice())
        {
            Ok(rows) => rows,
            Err(_) => return Err(CallFault::NoMemory),
        };
        match self.asked.push(alloc, rel, positions, values) {
            Ok(()) => Ok(rows),
            Err(_) => Err(CallFault::NoMemory),
        }
    }

    fn told(&self) -> Option<&RequestLog> {
        Some(&self.asked)
    }
}

// The formula of the rows that a relation of so many columns has at the locator.
fn offered_formula(alloc: Global, columns: usize, locator: &Text) -> Result<Formula, AttachFault>
    ensures { Offers columns (offered locator.now columns) result }
{
    match Formula::at(alloc, locator) {
        Ok(Some(formula)) if columns == 2 => Ok(formula),
        Ok(Some(_)) => Err(AttachFault::BadHeader { column: 0 }),
        Ok(None) => Err(AttachFault::Missing),
        Err(_) => Err(AttachFault::NoMemory),
    }
}
