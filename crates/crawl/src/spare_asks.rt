// Requests that take over the memory of those that were asked before.
ghost use Rattle.std.specs.Prelude.{◌≡◌, ◌++◌, ◌∷◌, [], IfOk, IsTrue, OnOk};

use lists::{Copies, Exact, NoMemory, Places, Row, Text};
use meaning::types::Request;
use source_trait::Ask;
use std::alloc::Global;
use std::mem::swap;

/// The requests of a piece of a round, and those that were asked before it whose memory is still free.
///
/// A long crawl has few requests a round, most often of the same classes, and a long round has many pieces. So a
/// request that is added takes over the memory of another where there is one.
#[derive(Drop)]
pub struct Asks {
    pub list: Vec<Ask>,
    pub spare: Vec<Ask>,
}

impl Asks {
    /// No requests. Takes no memory.
    pub fn new(alloc: Global) -> Asks
        ensures { result.list.items ≡ [] }
    {
        Asks {
            list: Vec::new(alloc),
            spare: Vec::new(alloc),
        }
    }

    /// Begins a piece without requests: those of the last one are spare.
    pub fn begin(&mut self)
        ensures { self.new.list.items ≡ [] }
    {
        swap(&mut self.list, &mut self.spare);
        self.list.clear();
    }

    /// Frees the memory that no request of the piece took over.
    pub fn end(&mut self)
        ensures stays { self.new.list.items ≡ self.old.list.items }
        ensures freed { self.new.spare.items ≡ [] }
    {
        self.spare.clear();
    }

    /// Adds the request of these values.
    pub fn add(
        &mut self,
        alloc: Global,
        kind: &Text,
        rel: u32,
        inputs: &Places,
        values: Row,
    ) -> Result<(), NoMemory>
        ensures { OnOk result (self.new.list.items ≡ self.old.list.items ++ record { kind = kind.now; request = record { rel = rel; positions = inputs.now; values = values } } ∷ []) }
    {
        let ask = match self.spare.pop() {
            Some(spare) => of_class(alloc, with_values(spare, values), kind, rel, inputs)?,
            None => new_ask(alloc, kind, rel, inputs, values)?,
        };
        self.list.push(ask)?;
        Ok(())
    }

    /// Adds the request of these values and one behind them.
    pub fn add_longer(
        &mut self,
        alloc: Global,
        kind: &Text,
        rel: u32,
        inputs: &Places,
        front: &Row,
        value: &Text,
    ) -> Result<(), NoMemory>
        ensures { OnOk result (self.new.list.items ≡ self.old.list.items ++ record {
          kind = kind.now;
          request = record { rel = rel; positions = inputs.now; values = front.now ++ value.now ∷ [] };
        } ∷ []) }
    {
        let ask = match self.spare.pop() {
            Some(spare) => of_class(
                alloc,
                with_longer(alloc, spare, front, value)?,
                kind,
                rel,
                inputs,
            )?,
            None => new_ask(
                alloc,
                kind,
                rel,
                inputs,
                longer_row(alloc, Vec::new(alloc), front, value)?,
            )?,
        };
        self.list.push(ask)?;
        Ok(())
    }
}

// The request with these values in the place of its own. Takes no memory.
fn with_values(ask: Ask, values: Row) -> Ask
    ensures { result ≡ record { kind = ask.kind; request = record { rel = ask.request.rel; positions = ask.request.positions; values = values } } }
{
    let Ask { kind, request } = ask;
    let Request { rel, positions, .. } = request;
    Ask {
        kind,
        request: Request {
            rel,
            positions,
            values,
        },
    }
}

// The request with these values and one behind them in the place of its own, in their memory.
fn with_longer(alloc: Global, ask: Ask, front: &Row, value: &Text) -> Result<Ask, NoMemory>
    ensures { IfOk result (λ with. with ≡ record {
      kind = ask.kind;
      request = record { rel = ask.request.rel; positions = ask.request.positions; values = front.now ++ value.now ∷ [] };
    }) }
{
    let Ask { kind, request } = ask;
    let Request {
        rel,
        positions,
        values,
    } = request;
    Ok(Ask {
        kind,
        request: Request {
            rel,
            positions,
            values: longer_row(alloc, values.into_vec(), front, value)?,
        },
    })
}

// The row of these values and one behind them, in the memory of other values.
fn longer_row(alloc: Global, memory: Vec<Text>, front: &Row, value: &Text) -> Result<Row, NoMemory>
    ensures { IfOk result (λ row. row ≡ front.now ++ value.now ∷ []) }
{
    let mut values = memory;
    values.clear();
    for known in front.as_slice() {
        values.push(known.copy(alloc)?)?;
    }
    values.push(value.copy(alloc)?)?;
    Ok(Row::from_vec(values))
}

// The request, or one of its values where it is of another class.
fn of_class(
    alloc: Global,
    ask: Ask,
    kind: &Text,
    rel: u32,
    inputs: &Places,
) -> Result<Ask, NoMemory>
    ensures { IfOk result (λ same. same ≡ record { kind = kind.now; request = record { rel = rel; positions = inputs.now; values = ask.request.values } }) }
{
    if is_of_class(&ask, kind, rel, inputs) {
        return Ok(ask);
    }
    let Ask { request, .. } = ask;
    let Request { values, .. } = request;
    new_ask(alloc, kind, rel, inputs, values)
}

fn is_of_class(ask: &Ask, kind: &Text, rel: u32, inputs: &Places) -> bool
    ensures { IsTrue result → ask.now ≡ record { kind = kind.now; request = record { rel = rel; positions = inputs.now; values = ask.now.request.values } } }
{
    ask.request.rel == rel && ask.kind.same(kind) && ask.request.positions.same(inputs)
}

fn new_ask(
    alloc: Global,
    kind: &Text,
    rel: u32,
    inputs: &Places,
    values: Row,
) -> Result<Ask, NoMemory>
    ensures { IfOk result (λ ask. ask ≡ record { kind = kind.now; request = record { rel = rel; positions = inputs.now; values = values } }) }
{
    let positions = inputs.copy(alloc)?;
    let kind = kind.copy(alloc)?;
    Ok(Ask {
        kind,
        request: Request {
            rel,
            positions,
            values,
        },
    })
}
