// The next requests of a round, a piece at a time.
ghost use Rattle.std.specs.Prelude.{◌≡◌, ◌⊎◌, ◌++◌, ◌-◌, ◌<◌, ◌≤◌, [], Contains, IfOk, OnOk, IsSome, false, drop, length, map};
ghost use Rattle.crawl_rounds.specs.Rounds.{Class};
ghost use Rattle.crawl_rounds.specs.Lent.{lent_class};
ghost use Rattle.middleware.specs.PlanSources.{line_for};
ghost use Rattle.crawl.specs.Pieces.{block_with, blocks_of, class_blocks, left_in, left_of, left_now, unless};

use crate::beginnings::{beginning, count_ends, end_at};
use crate::cursor::Cursor;
use crate::progress::Progress;
use crate::spare_asks::Asks;
use access_schema::Schema;
use lists::{NoMemory, Places, Row, Text};
use middleware::line_of;
use std::alloc::Global;

/// How many requests are made before they are asked.
const PIECE: usize = 8192;

/// Takes the next requests of the round behind a crawl that has come so far, in the place of the last ones, and moves
/// the cursor behind them. All known values are given, or none where the new ones are enough.
pub fn next_piece(
    alloc: Global,
    schema: &Schema,
    classes: &[(u32, &Places)],
    all: &[(Text, bool)],
    progress: &Progress,
    asks: &mut Asks,
    cursor: &mut Cursor,
) -> Result<(), NoMemory>
    requires lines { (class : Class) → Contains (map lent_class classes.now) class → IsSome (line_for class.0 schema.now.sources) }
    ensures parts { OnOk result (asks.new.list.items ++ left_now schema.now all.now progress.now (map lent_class classes.now) cursor.new
        ≡ left_now schema.now all.now progress.now (map lent_class classes.now) cursor.old) }
    ensures goes_on { OnOk result ((length classes.now ≤ cursor.new.class) ⊎ (0 < length asks.new.list.items)) }
    ensures later { OnOk result (cursor.old.class ≤ cursor.new.class) }
{
    asks.begin();
    add_piece(
        alloc,
        schema,
        classes,
        progress.rounds == 0,
        all,
        progress.known.fresh(),
        asks,
        cursor,
    )?;
    asks.end();
    Ok(())
}

// Adds requests, class by class, until there are enough.
fn add_piece(
    alloc: Global,
    schema: &Schema,
    classes: &[(u32, &Places)],
    first: bool,
    all: &[(Text, bool)],
    fresh: &[Text],
    asks: &mut Asks,
    cursor: &mut Cursor,
) -> Result<(), NoMemory>
    requires lines { (class : Class) → Contains (map lent_class classes.now) class → IsSome (line_for class.0 schema.now.sources) }
    ensures parts { OnOk result (asks.new.list.items ++ left_of schema.now first all.now fresh.now (map lent_class classes.now) cursor.new
        ≡ asks.old.list.items ++ left_of schema.now first all.now fresh.now (map lent_class classes.now) cursor.old) }
    ensures goes_on { OnOk result ((length classes.now ≤ cursor.new.class) ⊎ (0 < length asks.new.list.items)) }
    ensures later { OnOk result (cursor.old.class ≤ cursor.new.class) }
{
    while cursor.class < classes.len() {
        let class = &classes[cursor.class];
        if !add_class(
            alloc, schema, class.0, class.1, first, all, fresh, asks, cursor,
        )? {
            return Ok(());
        }
        *cursor = Cursor::at_class(cursor.class + 1);
    }
    Ok(())
}

// Adds requests of a class until there are enough. Says whether there are no more of the class.
fn add_class(
    alloc: Global,
    schema: &Schema,
    rel: u32,
    inputs: &Places,
    first: bool,
    all: &[(Text, bool)],
    fresh: &[Text],
    asks: &mut Asks,
    cursor: &mut Cursor,
) -> Result<bool, NoMemory>
    requires line { IsSome (line_for rel schema.now.sources) }
    ensures class { OnOk result (cursor.new.class ≡ cursor.old.class) }
    ensures parts { IfOk result (λ through. asks.new.list.items ++ unless through
        (left_in (class_blocks schema.now first all.now fresh.now (rel, inputs.now)) cursor.new.row cursor.new.value)
        ≡ asks.old.list.items
        ++ left_in (class_blocks schema.now first all.now fresh.now (rel, inputs.now)) cursor.old.row cursor.old.value) }
    ensures some { IfOk result (λ through. through ≡ false → 0 < length asks.new.list.items) }
{
    let kind = &line_of(schema, rel).kind;
    if inputs.len() == 0 {
        if first && cursor.row == 0 && cursor.value == 0 {
            asks.add(alloc, kind, rel, inputs, Row::new(alloc))?;
        }
        return Ok(true);
    }
    add_rows(alloc, kind, rel, inputs, first, all, fresh, asks, cursor)
}

// Adds requests of a class with inputs until there are enough. Says whether there are no more of the class.
fn add_rows(
    alloc: Global,
    kind: &Text,
    rel: u32,
    inputs: &Places,
    first: bool,
    all: &[(Text, bool)],
    fresh: &[Text],
    asks: &mut Asks,
    cursor: &mut Cursor,
) -> Result<bool, NoMemory>
    requires some { 0 < length inputs.now }
    ensures class { OnOk result (cursor.new.class ≡ cursor.old.class) }
    ensures parts { IfOk result (λ through. asks.new.list.items ++ unless through (left_in
        (blocks_of kind.now (rel, inputs.now) first all.now fresh.now (length inputs.now - 1)) cursor.new.row cursor.new.value)
        ≡ asks.old.list.items ++ left_in
        (blocks_of kind.now (rel, inputs.now) first all.now fresh.now (length inputs.now - 1)) cursor.old.row cursor.old.value) }
    ensures some { IfOk result (λ through. through ≡ false → 0 < length asks.new.list.items) }
{
    let count = inputs.len() - 1;
    loop {
        let Some(begin) = beginning(alloc, first, all, count, cursor.row)? else {
            return Ok(true);
        };
        cursor.value = add_block(
            alloc,
            kind,
            rel,
            inputs,
            all,
            fresh,
            &begin,
            cursor.value,
            asks,
        )?;
        if asks.list.len() >= PIECE {
            return Ok(false);
        }
        let Some(next) = cursor.row.checked_add(1) else {
            return Err(NoMemory);
        };
        cursor.row = next;
        cursor.value = 0;
    }
}

// Adds requests whose rows begin so, from the last value of this number on, until there are enough. Gives the number
// from which on there are more.
fn add_block(
    alloc: Global,
    kind: &Text,
    rel: u32,
    inputs: &Places,
    all: &[(Text, bool)],
    fresh: &[Text],
    begin: &(Row, bool),
    from: usize,
    asks: &mut Asks,
) -> Result<usize, NoMemory>
    ensures parts { IfOk result (λ next. asks.new.list.items ++ drop next (block_with kind.now (rel, inputs.now) all.now fresh.now begin.now)
        ≡ asks.old.list.items ++ drop from (block_with kind.now (rel, inputs.now) all.now fresh.now begin.now)) }
    ensures through { IfOk result (λ next. length asks.new.list.items < PIECE
        → drop next (block_with kind.now (rel, inputs.now) all.now fresh.now begin.now) ≡ []) }
{
    let count = count_ends(all, fresh, begin.1);
    for number in from..count {
        let end = end_at(all, fresh, begin.1, number);
        asks.add_longer(alloc, kind, rel, inputs, &begin.0, end)?;
        if asks.list.len() >= PIECE {
            return Ok(number + 1);
        }
    }
    Ok(count)
}
