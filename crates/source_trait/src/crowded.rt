// Codes that many rows share, whose values have chains of their own.
ghost use Rattle.std.specs.Prelude.{◌≡◌, ◌<◌, ◌+◌, ℕ, [], List, IfOk, IsTrue, false, length, max, slice_get, slice_index_or, take, unwrap_or};
ghost use Rattle.std.specs.BTreeMap.{get};
ghost use Rattle.row_text.specs.RowText.{row_cmp};
ghost use Rattle.source_trait.specs.Index.{AreChainsBelow, IsTwin, chain_of, row_values};

use lists::{Copies, Row, Text};
use row_text::{LentRow, PackedRows};
use std::alloc::{AllocError, Global};
use std::collections::BTreeMap;

// The most rows of one code whose chain is followed from row to row.
const MOST: u8 = 32;

/// The codes that many rows share. Values with such a code have a chain of their own, whose number an ordered tree finds, so
/// no choice of values makes a look-up slow.
#[derive(Drop)]
pub struct Crowded {
    /// Whether each code is one; empty where none is.
    pub codes: Vec<bool>,
    /// The number of the chain of values.
    pub chains: BTreeMap<Row, usize>,
}

impl Crowded {
    /// Those of the codes of these rows. The numbers of the chains stand behind those of the codes.
    pub(crate) fn build(
        alloc: Global,
        positions: &[u32],
        rows: &PackedRows,
        codes: &[usize],
        count: usize,
    ) -> Result<Crowded, AllocError>
        requires { length codes.now ≡ length rows.now }
        ensures { IfOk result (λ crowded. AreChainsBelow (length rows.now + length rows.now) crowded.chains) }
    {
        let crowded = crowded_codes(alloc, codes, count)?;
        let chains = own_chains(alloc, positions, rows, codes, crowded.as_slice())?;
        Ok(Crowded {
            codes: crowded,
            chains,
        })
    }

    /// The chain of the rows with this code, or where it is crowded of those with the row's values. Takes memory in this case alone.
    pub(crate) fn chain_of_row(
        &self,
        alloc: Global,
        positions: &[u32],
        row: &LentRow<'_>,
        code: usize,
    ) -> Result<usize, AllocError>
        ensures { IfOk result (λ chain. chain ≡ chain_of self.now code (row_values positions.now row.now)) }
    {
        if !is_crowded(self.codes.as_slice(), code) {
            return Ok(code);
        }
        let values = values_at(alloc, positions, row)?;
        Ok(self.chain(code, &values))
    }

    /// The chain of the rows with this code, or where it is crowded of those with the first values, one a position.
    pub(crate) fn chain_of_values(
        &self,
        alloc: Global,
        positions: &[u32],
        values: &[Text],
        code: usize,
    ) -> Result<usize, AllocError>
        ensures { IfOk result (λ chain. chain ≡ chain_of self.now code (take (length positions.now) values.now)) }
    {
        if !is_crowded(self.codes.as_slice(), code) {
            return Ok(code);
        }
        let values = first_values(alloc, values, positions.len())?;
        Ok(self.chain(code, &values))
    }

    /// How many chains there are at most, over these codes of rows, of so many codes.
    pub(crate) fn chain_count(&self, codes: &[usize], count: usize) -> usize
        requires count { count ≡ max (length codes.now) 1 }
        requires below { AreChainsBelow (length codes.now + length codes.now) self.now.chains }
        ensures { (code : ℕ) (values : List (List ℕ)) → code < count → chain_of self.now code values < result }
    {
        if self.codes.is_empty() {
            count
        } else {
            count + codes.len()
        }
    }

    // The chain of the values, which have a crowded code; that of the code where no row has them.
    fn chain(&self, code: usize, values: &Row) -> usize
        ensures { result ≡ unwrap_or (get row_cmp self.now.chains values.now) code }
    {
        match self.chains.get(values) {
            Some(chain) => *chain,
            None => code,
        }
    }
}

// Whether the code is one of the crowded ones.
fn is_crowded(crowded: &[bool], code: usize) -> bool
    ensures { result ≡ slice_index_or crowded.now code false }
{
    match crowded.get(code) {
        Some(crowded) => *crowded,
        None => false,
    }
}

// Whether more than the most rows have each code; no codes where this is so of none.
fn crowded_codes(alloc: Global, codes: &[usize], count: usize) -> Result<Vec<bool>, AllocError> {
    let mut rows: Vec<u8> = vec![in alloc; 0; count]?;
    let mut any = false;
    for code in codes {
        any = is_one_more(&mut rows, *code) || any;
    }
    if !any {
        return Ok(Vec::new(alloc));
    }
    rows.iter().map(|rows| *rows > MOST).collect(alloc)
}

// Counts a row of the code, up to one more than the most; whether there is this one more.
fn is_one_more(rows: &mut Vec<u8>, code: usize) -> bool {
    if code >= rows.len() || rows[code] > MOST {
        return false;
    }
    rows[code] += 1;
    rows[code] > MOST
}

// A number for each list of values with a crowded code, behind the numbers of the codes.
fn own_chains(
    alloc: Global,
    positions: &[u32],
    rows: &PackedRows,
    codes: &[usize],
    crowded: &[bool],
) -> Result<BTreeMap<Row, usize>, AllocError>
    requires { length codes.now ≡ length rows.now }
    ensures { IfOk result (λ chains. AreChainsBelow (length rows.now + length rows.now) chains) }
{
    let mut chains = BTreeMap::new(alloc);
    if crowded.is_empty() {
        return Ok(chains);
    }
    let mut last = vec![in alloc; codes.len(); crowded.len()]?;
    for number in 0..codes.len() {
        if is_crowded(crowded, codes[number])
            && twin(positions, rows, codes, &mut last, number) == number
        {
            let values = values_at(alloc, positions, &rows.at(number))?;
            note(&mut chains, values, codes.len() + number)?;
        }
    }
    Ok(chains)
}

/// The last row before this one with its code, if it has the same values; else the row's own number. `last` has the number of the last
/// row of each code, which this one becomes.
pub(crate) fn twin(
    positions: &[u32],
    rows: &PackedRows,
    codes: &[usize],
    last: &mut Vec<usize>,
    number: usize,
) -> usize
    requires long { length codes.now ≡ length rows.now }
    requires within { number < length codes.now }
    ensures { IsTwin positions.now codes.now rows.now number result }
{
    let code = codes[number];
    if code >= last.len() {
        return number;
    }
    let before = last[code];
    last[code] = number;
    if before < number
        && codes[before] == code
        && have_same_values(positions, &rows.at(before), &rows.at(number))
    {
        return before;
    }
    number
}

// Whether the rows have the same values at the positions.
fn have_same_values(positions: &[u32], row: &LentRow<'_>, other: &LentRow<'_>) -> bool
    ensures { IsTrue result → row_values positions.now row.now ≡ row_values positions.now other.now }
{
    for position in positions {
        if value_at(row, *position) != value_at(other, *position) {
            return false;
        }
    }
    true
}

// Notes the chain of the values, if they have none.
fn note(chains: &mut BTreeMap<Row, usize>, values: Row, chain: usize) -> Result<(), AllocError>
    ensures { (bound : ℕ) → chain < bound → AreChainsBelow bound chains.old → AreChainsBelow bound chains.new }
{
    if !chains.contains_key(&values) {
        chains.insert(values, chain)?;
    }
    Ok(())
}

// Copies of a row's values at the positions; the empty text where there is none.
fn values_at(alloc: Global, positions: &[u32], row: &LentRow<'_>) -> Result<Row, AllocError>
    ensures { IfOk result (λ values. values ≡ row_values positions.now row.now) }
{
    let mut values = Vec::with_capacity(alloc, positions.len())?;
    for position in positions {
        values.push(Text::from_str(alloc, value_at(row, *position))?)?;
    }
    Ok(Row::from_vec(values))
}

fn value_at<'a>(row: &LentRow<'a>, position: u32) -> &'a str
    ensures { result.now ≡ unwrap_or (slice_get row.now position) [] }
{
    match row.value(position as usize) {
        Some(value) => value,
        None => "",
    }
}

/// Copies of as many of the values, from the first on.
pub(crate) fn first_values(alloc: Global, values: &[Text], count: usize) -> Result<Row, AllocError>
    ensures { IfOk result (λ first. first ≡ take count values.now) }
{
    let mut first = Vec::with_capacity(alloc, count)?;
    for number in 0..count.min(values.len()) {
        first.push(values[number].copy(alloc)?)?;
    }
    Ok(Row::from_vec(first))
}
