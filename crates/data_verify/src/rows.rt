// The rows of a match, atom by atom.
ghost use Rattle.std.specs.Prelude.{◌≡◌, ℕ, List, length, map, IfOk};
ghost use Rattle.homomorphism.specs.Texts.{text_at};
ghost use Rattle.data_verify.specs.Breaking.{row_under, facts_under};

use crate::broken::Facts;
use homomorphism::row_under;
use lists::{Copies, NoMemory, Row, Rows, Seq};
use meaning::types::{Atom, Fact, Val};
use std::alloc::Global;

/// The row of each atom under the values.
pub fn rows_under(alloc: Global, atoms: &[Atom], values: &[Val]) -> Result<Rows, NoMemory>
    ensures { IfOk result (λ rows. rows ≡ map (row_under (text_at values.now)) atoms.now) }
{
    let mut rows = Vec::with_capacity(alloc, atoms.len())?;
    for atom in atoms {
        rows.push(row_under(alloc, atom.terms.as_slice(), values)?)?;
    }
    Ok(Seq::from_vec(rows))
}

/// The facts of the atoms with these rows.
pub fn facts_with(alloc: Global, atoms: &[Atom], rows: &[Row]) -> Result<Facts, NoMemory>
    requires { length rows.now ≡ length atoms.now }
    ensures { IfOk result (λ facts. (a : ℕ → List ℕ) → rows.now ≡ map (row_under a) atoms.now → facts ≡ facts_under a atoms.now) }
{
    let mut facts = Vec::with_capacity(alloc, atoms.len())?;
    for (place, atom) in atoms.iter().enumerate() {
        facts.push(Fact {
            rel: atom.rel,
            row: rows[place].copy(alloc)?,
        })?;
    }
    Ok(Seq::from_vec(facts))
}
