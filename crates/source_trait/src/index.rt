// An index of a relation's rows on positions.
ghost use Rattle.std.specs.Prelude.{◌≡◌, ◌<◌, ◌≤◌, ◌%◌, ◌+◌, ℕ, [], length, map, max, IfOk, option_copied, slice_index};
ghost use Rattle.std.specs.List.{AllByRecursion, filter};
ghost use Rattle.source_trait.specs.Asking.{agrees};
ghost use Rattle.source_trait.specs.Index.{AreChains, AreChainsBelow, HaveHeads, Indexes, chains_of, codes_of, index_in, key_hash, row_hash};

use crate::crowded::{Crowded, twin};
use crate::matching::with_matching;
use lists::{Places, Text, mix};
use row_text::{LentRow, PackedRows};
use std::alloc::{AllocError, Global};

// How many rows an answer has room for at first.
const FEW_ROWS: usize = 4;

/// An index of the rows of a relation on positions: chains of the rows whose values there hash to one code, or where many rows
/// have this code, of those with the same values.
#[derive(Drop)]
pub struct Index {
    pub rel: u32,
    pub positions: Places,
    /// How many codes there are: as many as rows, and at least one.
    pub count: usize,
    pub crowded: Crowded,
    /// The number of the first row of each chain, or the number of rows.
    pub heads: Vec<usize>,
    /// The number of the row behind each row in its chain, or the number of rows.
    pub next: Vec<usize>,
}

impl Index {
    /// The index of these rows, in time that grows with n log n of their number n.
    pub(crate) fn build(
        alloc: Global,
        rel: u32,
        positions: &[u32],
        rows: &PackedRows,
    ) -> Result<Index, AllocError>
        ensures indexes { IfOk result (λ index. Indexes index rows.now) }
        ensures rel { IfOk result (λ index. index.rel ≡ rel) }
        ensures positions { IfOk result (λ index. index.positions ≡ positions.now) }
    {
        let count = rows.len().max(1);
        let codes = codes(alloc, positions, rows, count)?;
        let crowded = Crowded::build(alloc, positions, rows, codes.as_slice(), count)?;
        let (heads, next) = row_chains(alloc, positions, rows, codes, count, &crowded)?;
        Ok(Index {
            rel,
            positions: Places::from_vec(Vec::from_slice(alloc, positions)?),
            count,
            crowded,
            heads,
            next,
        })
    }

    /// The rows that have the values at the positions of the index, in order.
    pub(crate) fn rows_with(
        &self,
        alloc: Global,
        rows: &PackedRows,
        values: &[Text],
    ) -> Result<PackedRows, AllocError>
        requires { Indexes self.now rows.now }
        ensures { IfOk result (λ found. found ≡ filter (agrees self.now.positions values.now) rows.now) }
    {
        let positions = self.positions.as_slice();
        let heads = self.heads.as_slice();
        let next = self.next.as_slice();
        let code = (key_hash(positions, values) % self.count as u64) as usize;
        let chain = self
            .crowded
            .chain_of_values(alloc, positions, values, code)?;
        let mut number = heads[chain];
        let room = room_from(alloc, rows, number)?;
        let mut found = room;
        while number < rows.len() {
            found = with_matching(found, &rows.at(number), positions, values)?;
            number = next[number];
        }
        Ok(found)
    }
}

/// The index of a relation on positions.
pub(crate) fn find_index<'a>(indexes: &'a [Index], rel: u32, positions: &[u32]) -> Option<&'a Index>
    ensures { option_copied result ≡ index_in indexes.now rel positions.now }
{
    let mut left = indexes;
    while let [index, rest @ ..] = left {
        if index.rel == rel && index.positions.as_slice() == positions {
            return Some(index);
        }
        left = rest;
    }
    None
}

// No rows, with room for a few where there is a first one. So most answers grow no buffer, and an empty one takes no memory.
fn room_from(alloc: Global, rows: &PackedRows, first: usize) -> Result<PackedRows, AllocError>
    ensures { IfOk result (λ room. room ≡ []) }
{
    if first < rows.len() {
        return rows.room_for(alloc, FEW_ROWS);
    }
    Ok(PackedRows::new(alloc))
}

// The code of each row.
fn codes(
    alloc: Global,
    positions: &[u32],
    rows: &PackedRows,
    count: usize,
) -> Result<Vec<usize>, AllocError>
    requires { 0 < count }
    ensures { IfOk result (λ codes. codes.items ≡ codes_of positions.now count rows.now) }
{
    let mut codes = Vec::with_capacity(alloc, rows.len())?;
    for number in 0..rows.len() {
        let code = row_hash(&rows.at(number), positions) % count as u64;
        codes.push(code as usize)?;
    }
    Ok(codes)
}

// The chains of the rows with these codes, of which some are crowded.
fn row_chains(
    alloc: Global,
    positions: &[u32],
    rows: &PackedRows,
    codes: Vec<usize>,
    count: usize,
    crowded: &Crowded,
) -> Result<(Vec<usize>, Vec<usize>), AllocError>
    requires count { count ≡ max (length rows.now) 1 }
    requires codes { codes.items ≡ codes_of positions.now count rows.now }
    requires below { AreChainsBelow (length rows.now + length rows.now) crowded.now.chains }
    ensures heads { IfOk result (λ made. HaveHeads count crowded.now made.0.items) }
    ensures chains { IfOk result (λ made. AreChains (chains_of positions.now count crowded.now rows.now) made.0.items made.1.items) }
{
    let chain_count = crowded.chain_count(codes.as_slice(), count);
    let chosen = chosen(alloc, positions, rows, codes, count, crowded)?;
    chains(alloc, chosen, chain_count)
}

// The chain of each row.
fn chosen(
    alloc: Global,
    positions: &[u32],
    rows: &PackedRows,
    codes: Vec<usize>,
    count: usize,
    crowded: &Crowded,
) -> Result<Vec<usize>, AllocError>
    requires { codes.items ≡ codes_of positions.now count rows.now }
    ensures { IfOk result (λ chains. chains.items ≡ chains_of positions.now count crowded.now rows.now) }
{
    if crowded.codes.is_empty() {
        return Ok(codes);
    }
    chosen_of(alloc, positions, rows, codes.as_slice(), count, crowded)
}

fn chosen_of(
    alloc: Global,
    positions: &[u32],
    rows: &PackedRows,
    codes: &[usize],
    count: usize,
    crowded: &Crowded,
) -> Result<Vec<usize>, AllocError>
    requires { codes.now ≡ codes_of positions.now count rows.now }
    ensures { IfOk result (λ chains. chains.items ≡ chains_of positions.now count crowded.now rows.now) }
{
    let mut last = vec![in alloc; codes.len(); crowded.codes.len()]?;
    let mut chains = Vec::with_capacity(alloc, codes.len())?;
    for number in 0..codes.len() {
        let twin = twin(positions, rows, codes, &mut last, number);
        if twin < number {
            let same = chains[twin];
            chains.push(same)?;
            continue;
        }
        let code = codes[number];
        let chain = crowded.chain_of_row(alloc, positions, &rows.at(number), code)?;
        chains.push(chain)?;
    }
    Ok(chains)
}

// The chains of the codes, by their heads and by what stands behind each place, which takes the place of its code.
fn chains(
    alloc: Global,
    codes: Vec<usize>,
    count: usize,
) -> Result<(Vec<usize>, Vec<usize>), AllocError>
    requires { AllByRecursion (λ code. code < count) codes.items }
    ensures heads { IfOk result (λ made. length made.0.items ≡ count) }
    ensures chains { IfOk result (λ made. AreChains codes.items made.0.items made.1.items) }
{
    let mut heads = vec![in alloc; codes.len(); count]?;
    let mut next = codes;
    let mut number = next.len();
    while number > 0 {
        number -= 1;
        let code = next[number];
        next[number] = heads[code];
        heads[code] = number;
    }
    Ok((heads, next))
}

// The hash of a row's values at the positions.
fn row_hash(row: &LentRow<'_>, positions: &[u32]) -> u64
    ensures { result ≡ row_hash 0 positions.now row.now }
{
    let mut hash: u64 = 0;
    let mut places = positions;
    while let [place, rest @ ..] = places {
        if let Some(value) = row.value(*place as usize) {
            hash = mix(hash, value.as_bytes());
        }
        places = rest;
    }
    hash
}

// The hash of values that are asked for.
fn key_hash(positions: &[u32], values: &[Text]) -> u64
    ensures { result ≡ key_hash 0 positions.now values.now }
{
    let mut hash: u64 = 0;
    let mut places = positions;
    let mut wanted = values;
    while let [_, places_left @ ..] = places {
        let [value, values_left @ ..] = wanted else {
            return hash;
        };
        hash = mix(hash, value.as_bytes());
        places = places_left;
        wanted = values_left;
    }
    hash
}
