// Tokens to the parts of selects, or the first token that the table of places does not list.
ghost use Rattle.std.specs.Prelude.{◌≡◌, ◌++◌, ◌∷◌, [], IfOk, IfErr, length};
ghost use Rattle.std.specs.List.{AllByRecursion};
ghost use Rattle.pq_text.specs.Spans.{IsSpan};
ghost use Rattle.sql_select.specs.Words.{pieces_of};
ghost use Rattle.sql_select.specs.Grammar.{IsText};
ghost use Rattle.sql_select.specs.Spanning.{SelectStands};
ghost use Rattle.sql_select.specs.Reading.{empty, added, started, kept, entered, ended, read, IsReading, LeavesAtMost, IsFaultOf};
ghost use Rattle.sql_select.specs.declared.state.State.TheVariants as state;
ghost use Rattle.sql_select.specs.declared.reading.WalkFault.TheVariants as fault;

use crate::piece::RawSelect;
use crate::state::{Done, State, ending, step};
use crate::words::piece_of;
use lists::Seq;
use pq_text::Token;
use std::alloc::{AllocError, Global};

/// Why tokens are no query: so many tokens are left where the first stands that goes on with none.
#[derive(Clone, Copy)]
pub enum WalkFault {
    NoMemory,
    At { left: usize },
}

/// What was read so far: the selects that are finished, and the parts of the one that is being read.
#[derive(Drop)]
pub struct Walk {
    pub finished: Seq<RawSelect>,
    pub raw: RawSelect,
}

fn no_parts(alloc: Global) -> RawSelect
    ensures { result ≡ empty }
{
    RawSelect {
        items: Seq::new(alloc),
        froms: Seq::new(alloc),
        conditions: Seq::new(alloc),
    }
}

fn keep(raw: RawSelect, done: Done) -> Result<RawSelect, AllocError>
    ensures { IfOk result (λ new. new ≡ added done raw) }
{
    let mut raw = raw;
    match done {
        Done::Nothing => {}
        Done::Item(item) => raw.items.push(item)?,
        Done::From(from) => raw.froms.push(from)?,
        Done::Condition(condition) => raw.conditions.push(condition)?,
    }
    Ok(raw)
}

// The selects with one more.
fn closed(finished: Seq<RawSelect>, raw: RawSelect) -> Result<Seq<RawSelect>, WalkFault>
    ensures new { IfOk result (λ new. new ≡ finished ++ raw ∷ []) }
    ensures memory { IfErr result (λ f. f ≡ fault.NoMemory) }
{
    let mut finished = finished;
    match finished.push(raw) {
        Ok(()) => Ok(finished),
        Err(_) => Err(WalkFault::NoMemory),
    }
}

// Where a select is to begin, the one before is finished.
fn enter(alloc: Global, walk: Walk, state: State) -> Result<Walk, WalkFault>
    ensures new { IfOk result (λ new. new ≡ entered state walk) }
    ensures memory { IfErr result (λ f. f ≡ fault.NoMemory) }
{
    match state {
        State::Start => {
            let Walk { finished, raw } = walk;
            let finished = closed(finished, raw)?;
            let raw = no_parts(alloc);
            Ok(Walk { finished, raw })
        }
        _ => Ok(walk),
    }
}

// One step more: what it finished is kept, and the next state is entered.
fn go_on(alloc: Global, walk: Walk, state: State, done: Done) -> Result<Walk, WalkFault>
    ensures new { IfOk result (λ new. new ≡ entered state (kept done walk)) }
    ensures memory { IfErr result (λ f. f ≡ fault.NoMemory) }
{
    let Walk { finished, raw } = walk;
    match keep(raw, done) {
        Ok(raw) => enter(alloc, Walk { finished, raw }, state),
        Err(_) => {
            drop(finished);
            Err(WalkFault::NoMemory)
        }
    }
}

// What is read where the text ends.
fn finish(walk: Walk, done: Option<Done>) -> Result<Seq<RawSelect>, WalkFault>
    ensures reading { IsReading result (ended done walk) }
    ensures left { IfErr result (LeavesAtMost 0) }
{
    let Walk { finished, raw } = walk;
    let Some(done) = done else {
        drop(raw);
        drop(finished);
        return Err(WalkFault::At { left: 0 });
    };
    match keep(raw, done) {
        Ok(raw) => closed(finished, raw),
        Err(_) => {
            drop(finished);
            Err(WalkFault::NoMemory)
        }
    }
}

fn read_tokens(alloc: Global, text: &str, tokens: &[Token]) -> Result<Seq<RawSelect>, WalkFault>
    requires { AllByRecursion (IsSpan text.now) tokens.now }
    ensures reading { IsReading result (read state.Start started (pieces_of text.now tokens.now)) }
    ensures left { IfErr result (LeavesAtMost (length tokens.now)) }
{
    let mut walk = Walk {
        finished: Seq::new(alloc),
        raw: no_parts(alloc),
    };
    let mut state = State::Start;
    let mut left = tokens;
    while let [token, rest @ ..] = left {
        let Some((next, done)) = step(state, piece_of(text, *token)) else {
            drop(walk);
            return Err(WalkFault::At { left: left.len() });
        };
        match go_on(alloc, walk, next, done) {
            Ok(new) => walk = new,
            Err(fault) => return Err(fault),
        }
        state = next;
        left = rest;
    }
    finish(walk, ending(state))
}

/// The parts of the selects that the tokens are.
pub fn read_parts(alloc: Global, text: &str, tokens: &[Token]) -> Result<Seq<RawSelect>, WalkFault>
    requires { AllByRecursion (IsSpan text.now) tokens.now }
    ensures reads { IfOk result (λ raws. IsText raws (pieces_of text.now tokens.now)) }
    ensures stand { IfOk result (AllByRecursion (SelectStands text.now)) }
    ensures fault { IfErr result (IsFaultOf text.now tokens.now) }
    ensures left { IfErr result (LeavesAtMost (length tokens.now)) }
{
    read_tokens(alloc, text, tokens)
}
