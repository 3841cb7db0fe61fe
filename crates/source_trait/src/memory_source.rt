// A source in memory, which tells everything and fails at the listed calls.
ghost use Rattle.std.specs.Prelude.{◌≡◌, ◌<◌, ◌+◌, ◌^◌, ◌↔◌, ◌++◌, ◌∷◌, [], Some, length, true, false, IsTrue, IsErrOf, IfOk, OnOk, OnErr, option_copied, IfSome};
ghost use Rattle.std.specs.List.{AllByRecursion};
ghost use Rattle.source_trait.specs.Asking.{Seen, HaveArity, agrees, pick, AttachGives, CallGives};
ghost use Rattle.source_trait.specs.Failing.{FailsAsListed};
ghost use Rattle.source_trait.specs.Holding.{facts_held, attached_in};
ghost use Rattle.source_trait.specs.Tables.{rows_under, offered, bad_row, Offers, LocatorsDiffer};

use crate::failing::FailingCalls;
use crate::holding::Holding;
use crate::request_log::RequestLog;
use crate::source::{AttachFault, CallFault, Source};
use crate::table::{Table, Tables};
use lists::{NoMemory, Numbers, Places, Row, Rows, Text, Texts};
use row_text::PackedRows;
use std::alloc::Global;

/// Tables in memory as a source, of which the listed attaches and calls fail.
#[derive(Drop)]
pub struct MemorySource {
    tables: Tables,
    attaches: FailingCalls,
    calls: FailingCalls,
    holding: Holding,
    asked: RequestLog,
    failures: u64,
}

impl MemorySource {
    /// The tables, of which no one is attached; attaches and calls are counted apart, each from 1. Takes no memory.
    pub fn new(
        alloc: Global,
        tables: Tables,
        failing_attach: Numbers,
        failing_calls: Numbers,
    ) -> MemorySource
        requires { LocatorsDiffer tables }
        ensures tables { result.tables ≡ tables }
        ensures attaches { result.attaches ≡ record { numbers = failing_attach; made = 0 } }
        ensures calls { result.calls ≡ record { numbers = failing_calls; made = 0 } }
        ensures holding { result.holding ≡ [] }
        ensures asked { result.asked ≡ [] }
        ensures failures { result.failures ≡ 0 }
    {
        MemorySource {
            tables,
            attaches: FailingCalls::new(failing_attach),
            calls: FailingCalls::new(failing_calls),
            holding: Holding::new(alloc),
            asked: RequestLog::new(alloc),
            failures: 0,
        }
    }
}

/// Whether no two tables have one locator.
pub fn locators_differ(tables: &Tables) -> bool
    ensures { IsTrue result ↔ LocatorsDiffer tables.now }
{
    let mut left = tables.as_slice();
    while let [table, rest @ ..] = left {
        if rows_of(rest, &table.locator).is_some() {
            return false;
        }
        left = rest;
    }
    true
}

impl Source for MemorySource {
    ghost seen = { λ m. record {
      held = Some (facts_held m.holding);
      offer = λ rel columns locator. Some (offered (rows_under m.tables locator) (length columns));
      passes = λ list. false;
      asked = Some m.asked;
      attached = attached_in m.holding;
      faults = m.failures;
      never_fails = false;
    } };

    fn attach(
        &mut self,
        alloc: Global,
        rel: u32,
        columns: &Texts,
        locator: &Text,
    ) -> Result<(), AttachFault>
        ensures gives { AttachGives (⟦<MemorySource as Source>⟧.seen self.old) (⟦<MemorySource as Source>⟧.seen self.new) rel columns.now locator.now result }
        ensures turn { FailsAsListed self.old.attaches self.new.attaches self.old.failures self.new.failures (IsErrOf result AttachFault.Failed) ⊥ }
        ensures calls { self.new.calls ≡ self.old.calls }
        ensures tables { self.new.tables ≡ self.old.tables }
    {
        self.holding.detach(rel);
        if self.attaches.fails_next() {
            self.failures = self.failures.saturating_add(1);
            return Err(AttachFault::Failed);
        }
        match offered_rows(alloc, self.tables.as_slice(), columns.len(), locator) {
            Ok(rows) => match self.holding.take(alloc, rel, columns, locator, rows, 0) {
                Ok(()) => Ok(()),
                Err(_) => Err(AttachFault::NoMemory),
            },
            Err(fault) => Err(fault),
        }
    }

    fn call(
        &mut self,
        alloc: Global,
        rel: u32,
        positions: &Places,
        values: &Row,
    ) -> Result<PackedRows, CallFault>
        ensures gives { CallGives (⟦<MemorySource as Source>⟧.seen self.old) (⟦<MemorySource as Source>⟧.seen self.new) rel positions.now values.now result }
        ensures turn { FailsAsListed self.old.calls self.new.calls self.old.failures self.new.failures (IsErrOf result CallFault.Failed) (IsErrOf result CallFault.NoMemory) }
        ensures attaches { self.new.attaches ≡ self.old.attaches }
        ensures tables { self.new.tables ≡ self.old.tables }
    {
        let fails = self.calls.fails_next();
        match answer(
            alloc,
            &mut self.holding,
            &mut self.asked,
            rel,
            positions,
            values,
        ) {
            Ok(rows) => {
                if fails {
                    self.failures = self.failures.saturating_add(1);
                    return Err(CallFault::Failed);
                }
                Ok(rows)
            }
            Err(_) => Err(CallFault::NoMemory),
        }
    }

    fn told(&self) -> Option<&RequestLog> {
        Some(&self.asked)
    }
}

// The rows that a request is answered with, and the request noted behind those before it.
fn answer(
    alloc: Global,
    holding: &mut Holding,
    asked: &mut RequestLog,
    rel: u32,
    positions: &Places,
    values: &Row,
) -> Result<PackedRows, NoMemory>
    ensures picks { IfOk result (λ rows. rows ≡ pick (facts_held holding.old) rel positions.now values.now) }
    ensures fits { IfOk result (λ rows. IfSome (attached_in holding.old rel) (λ a. AllByRecursion (λ row. (length row ≡ length a.0) × (agrees positions.now values.now row ≡ true)) rows)) }
    ensures held { holding.new ≡ holding.old }
    ensures noted { OnOk result (asked.new ≡ asked.old ++ record { rel = rel; positions = positions.now; values = values.now } ∷ []) }
    ensures stays { OnErr result (asked.new ≡ asked.old) }
{
    let rows = holding.ask(alloc, rel, positions.as_slice(), values.as_slice())?;
    asked.push(alloc, rel, positions, values)?;
    Ok(rows)
}

// A copy of the rows under the locator, where each is so long.
fn offered_rows(
    alloc: Global,
    tables: &[Table],
    arity: usize,
    locator: &Text,
) -> Result<PackedRows, AttachFault>
    ensures offers { Offers (offered (rows_under tables.now locator.now) arity) result }
    ensures fit { IfOk result (λ rows. HaveArity arity rows) }
{
    match rows_of(tables, locator) {
        None => Err(AttachFault::Missing),
        Some(rows) => {
            let number = first_bad(rows.as_slice(), arity);
            if number > 0 {
                return Err(AttachFault::BadRow { number });
            }
            match PackedRows::from_rows(alloc, rows.as_slice()) {
                Ok(packed) => Ok(packed),
                Err(_) => Err(AttachFault::NoMemory),
            }
        }
    }
}

// The rows under a locator.
fn rows_of<'a>(tables: &'a [Table], locator: &Text) -> Option<&'a Rows>
    ensures value { option_copied result ≡ rows_under tables.now locator.now }
    ensures few { IfSome result (λ rows. length rows.now < 2 ^ 32) }
{
    let mut left = tables;
    while let [table, rest @ ..] = left {
        if table.locator == *locator {
            return Some(&table.rows);
        }
        left = rest;
    }
    None
}

// The number, counted from 1, of the first row of another length, or 0.
fn first_bad(rows: &[Row], arity: usize) -> u32
    requires { length rows.now < 2 ^ 32 }
    ensures { result ≡ bad_row arity 1 rows.now }
{
    let mut number: usize = 1;
    let mut left = rows;
    while let [row, rest @ ..] = left {
        if row.len() != arity {
            return number as u32;
        }
        number += 1;
        left = rest;
    }
    0
}
