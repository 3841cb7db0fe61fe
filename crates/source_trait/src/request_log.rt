// The requests that a source was asked.
ghost use Rattle.std.specs.Prelude.{◌≡◌, ◌≤◌, ◌<◌, ◌+◌, ◌^◌, ◌↔◌, ◌++◌, ◌∷◌, [], List, length, replicate, IfOk, IsTrue, OnOk, OnErr};
ghost use Rattle.source_trait.specs.declared.request_log.Shape.{Shape};
ghost use Rattle.source_trait.specs.RequestLog.{EndsWith, requests_in, shapes_of, width_of};

use crate::crowded::first_values;
use crate::packed_texts::PackedTexts;
use lists::{Copies, Exact, NoMemory, Places, Row, Text};
use meaning::types::{Request, Requests};
use std::alloc::Global;
use std::marker::Model;

/// What requests that follow one another have in common: the relation, the positions, and how many values each has.
#[derive(Drop)]
pub struct Shape {
    rel: u32,
    positions: Places,
    width: usize,
}

/// So many requests of one shape, one after another.
#[derive(Drop)]
pub struct Run {
    shape: Shape,
    count: usize,
}

/// The requests that a source was asked, in order. Contracts see the list of them.
///
/// The values of all requests lie in one buffer, and requests of one shape that follow one another name it once: a request takes its
/// bytes and 8 bytes more for each value.
#[derive(Drop)]
pub struct RequestLog {
    runs: Vec<Run>,
    values: PackedTexts,
    count: usize,
}

impl Model for RequestLog {
    ghost use Rattle.std.specs.Prelude.{List};
    ghost use Rattle.meaning.specs.declared.types.Request.{Request};
    ghost use Rattle.source_trait.specs.RequestLog.{IsLog, requests_in, shapes_of};

    ghost Value = { List Request };

    ghost view = { λ log. requests_in (shapes_of log.runs.items) log.values };

    ghost invariant = { λ log. IsLog (shapes_of log.runs.items) log.values log.count };
}

impl RequestLog {
    /// No requests. Takes no memory.
    pub fn new(alloc: Global) -> RequestLog
        ensures { result ≡ [] }
    {
        RequestLog {
            runs: Vec::new(alloc),
            values: PackedTexts::new(alloc),
            count: 0,
        }
    }

    /// How many requests there are.
    pub fn len(&self) -> usize
        ensures { result ≡ length self.now }
    {
        self.count
    }

    /// Notes a request behind the others; where memory is refused, or there are 2^64 - 1 requests, the log stays.
    pub fn push(
        &mut self,
        alloc: Global,
        rel: u32,
        positions: &Places,
        values: &Row,
    ) -> Result<(), NoMemory>
        ensures noted { OnOk result (self.new ≡ self.old ++ record { rel = rel; positions = positions.now; values = values.now } ∷ []) }
        ensures stays { OnErr result (self.new ≡ self.old) }
    {
        let Some(count) = self.count.checked_add(1) else {
            return Err(NoMemory);
        };
        open_run(alloc, &mut self.runs, rel, positions, values.len())?;
        self.values.push_all(values.as_slice())?;
        count_one(&mut self.runs);
        self.count = count;
        Ok(())
    }

    /// Copies of the requests, in order.
    pub fn requests(&self, alloc: Global) -> Result<Requests, NoMemory>
        ensures { IfOk result (λ requests. requests ≡ self.now) }
    {
        let values = self.values.texts(alloc)?;
        requests_of(alloc, self.runs.as_slice(), values.as_slice())
    }
}

// Makes a run of this shape the last one: a new one, of no requests yet, where the last is of another shape.
fn open_run(
    alloc: Global,
    runs: &mut Vec<Run>,
    rel: u32,
    positions: &Places,
    width: usize,
) -> Result<(), NoMemory>
    ensures same { shapes_of runs.new.items ≡ shapes_of runs.old.items }
    ensures open { OnOk result (EndsWith runs.new.items record { rel = rel; positions = positions.now; width = width }) }
{
    if ends_with(runs, rel, positions, width) {
        return Ok(());
    }
    let shape = Shape {
        rel,
        positions: positions.copy(alloc)?,
        width,
    };
    runs.push(Run { shape, count: 0 })?;
    Ok(())
}

// Whether the last run is of this shape.
fn ends_with(runs: &[Run], rel: u32, positions: &Places, width: usize) -> bool
    ensures { IsTrue result ↔ EndsWith runs.now record { rel = rel; positions = positions.now; width = width } }
{
    match runs.last() {
        Some(run) => has_shape(&run.shape, rel, positions, width),
        None => false,
    }
}

fn has_shape(shape: &Shape, rel: u32, positions: &Places, width: usize) -> bool
    ensures { IsTrue result ↔ (shape.now ≡ record { rel = rel; positions = positions.now; width = width }) }
{
    shape.rel == rel && shape.width == width && shape.positions.same(positions)
}

// Counts one more request of the last run.
fn count_one(runs: &mut Vec<Run>)
    requires some { 1 ≤ length runs.old.items }
    requires room { length (shapes_of runs.old.items) + 1 < 2 ^ 64 }
    ensures { (shape : Shape) → EndsWith runs.old.items shape → shapes_of runs.new.items ≡ shapes_of runs.old.items ++ shape ∷ [] }
{
    let last = runs.len() - 1;
    let run = &mut runs[last];
    run.count += 1;
}

// The requests of runs with these values.
fn requests_of(alloc: Global, runs: &[Run], values: &[Text]) -> Result<Requests, NoMemory>
    requires { width_of (shapes_of runs.now) ≤ length values.now }
    ensures { IfOk result (λ requests. requests ≡ requests_in (shapes_of runs.now) values.now) }
{
    let mut requests = Requests::new(alloc);
    let mut later = runs;
    let mut left = values;
    while let [run, rest @ ..] = later {
        left = add_requests(alloc, &mut requests, run, left)?;
        later = rest;
    }
    Ok(requests)
}

// Adds the requests of a run, whose values are the first of these, and answers the values behind them.
fn add_requests<'a>(
    alloc: Global,
    requests: &mut Requests,
    run: &Run,
    values: &'a [Text],
) -> Result<&'a [Text], NoMemory>
    requires { width_of (replicate run.now.count run.now.shape) ≤ length values.now }
    ensures added { IfOk result (λ left. (later : List Shape) → requests.new ++ requests_in later left.now ≡ requests.old ++ requests_in (replicate run.now.count run.now.shape ++ later) values.now) }
    ensures left { IfOk result (λ left. width_of (replicate run.now.count run.now.shape) + length left.now ≡ length values.now) }
{
    let mut left = values;
    for _ in 0..run.count {
        requests.push(Request {
            rel: run.shape.rel,
            positions: run.shape.positions.copy(alloc)?,
            values: first_values(alloc, left, run.shape.width)?,
        })?;
        left = left.split_at(run.shape.width).1;
    }
    Ok(left)
}
