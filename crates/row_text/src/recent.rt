// Rows that came lately, by which most doubles are told as they come.
ghost use Rattle.std.specs.Prelude.{Contains, IsTrue, map};

use crate::packed::PackedRows;
use lists::{NoMemory, mix};
use std::alloc::Global;

// The most hashes that are told apart.
const MOST: usize = 65536;

/// Where, in rows that become more, the last row of each hash stands.
///
/// It tells most doubles before they are kept and sorted: a row is compared with one other alone, however many there are.
#[derive(Drop)]
pub struct Recent {
    places: Vec<usize>,
}

impl Recent {
    /// For about so many rows; it takes at most 512 KiB.
    pub fn new(alloc: Global, rows: usize) -> Result<Recent, NoMemory> {
        let places = vec![in alloc; 0; rows.clamp(1, MOST)]?;
        Ok(Recent { places })
    }

    /// Whether the row is the last of its hash among the rows. If not, it is to be their next one.
    pub fn has(&mut self, rows: &PackedRows, row: &[&str]) -> bool
        ensures { IsTrue result → Contains rows.now (map (λ s. s.now) row.now) }
    {
        let hashes = self.places.len();
        if hashes == 0 {
            return false;
        }
        let hash = (hash_of(row) % hashes as u64) as usize;
        if stands_at(rows, self.places[hash], row) {
            return true;
        }
        self.places[hash] = rows.len();
        false
    }
}

// Whether the row of this number is that of these texts.
fn stands_at(rows: &PackedRows, number: usize, row: &[&str]) -> bool
    ensures { IsTrue result → Contains rows.now (map (λ s. s.now) row.now) }
{
    number < rows.len() && rows.at(number).is(row)
}

// A hash of the values and of where they end.
fn hash_of(row: &[&str]) -> u64 {
    let mut hash: u64 = 0;
    for value in row {
        hash = mix(hash, value.as_bytes()).wrapping_mul(31);
    }
    hash
}
