// Keys that rows give, their codes, and whether two are the same.
ghost use Rattle.std.specs.Prelude.{◌≡◌, ◌↔◌, IsTrue, IfOk};
ghost use Rattle.data_verify.specs.Keys.{key_of, key_code};

use crate::fitting::reading;
use lists::{NoMemory, Row, Seq, Text, mix};
use meaning::types::Term;
use std::alloc::Global;

/// The values that the row gives the variables, copied.
pub fn key(alloc: Global, terms: &[Term], variables: &[u32], row: &[Text]) -> Result<Row, NoMemory>
    ensures { IfOk result (λ key. key ≡ key_of terms.now variables.now row.now) }
{
    let mut values = Vec::with_capacity(alloc, variables.len())?;
    for variable in variables {
        values.push(Text::from_str(alloc, reading(terms, row, *variable))?)?;
    }
    Ok(Seq::from_vec(values))
}

/// The code of the row's key. Takes no memory.
pub fn key_code(terms: &[Term], variables: &[u32], row: &[Text]) -> u64
    ensures { result ≡ key_code (key_of terms.now variables.now row.now) }
{
    let mut code = 14695981039346656037;
    for variable in variables {
        let value = reading(terms, row, *variable);
        code = mix(mix(code, value.as_bytes()), &[255]);
    }
    code
}

/// Whether two rows, each read by its terms, have the same key. Takes no memory.
pub fn same_key(
    variables: &[u32],
    terms: &[Term],
    row: &[Text],
    other_terms: &[Term],
    other: &[Text],
) -> bool
    ensures { IsTrue result ↔ (key_of terms.now variables.now row.now ≡ key_of other_terms.now variables.now other.now) }
{
    for variable in variables {
        if reading(terms, row, *variable) != reading(other_terms, other, *variable) {
            return false;
        }
    }
    true
}
