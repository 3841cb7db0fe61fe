// Rows of terms under values.
ghost use Rattle.std.specs.Prelude.{◌≡◌, IfOk};
ghost use Rattle.meaning.specs.Matching.{value_of, itself};
ghost use Rattle.homomorphism.specs.Texts.{text_at, row_of};

use lists::{Copies, NoMemory, Row, Seq, Text};
use meaning::types::{Term, Val};
use std::alloc::Global;

/// The row of the terms, where a constant is itself and a variable has the text of its value. A label has the empty
/// text, and so has a variable without a value.
pub fn row_under(alloc: Global, terms: &[Term], values: &[Val]) -> Result<Row, NoMemory>
    ensures { IfOk result (λ row. row ≡ row_of terms.now values.now) }
{
    let mut row = Vec::with_capacity(alloc, terms.len())?;
    for term in terms {
        row.push(text_of(alloc, term, values)?)?;
    }
    Ok(Seq::from_vec(row))
}

/// The text of the term under the values.
fn text_of(alloc: Global, term: &Term, values: &[Val]) -> Result<Text, NoMemory>
    ensures { IfOk result (λ text. text ≡ value_of itself (text_at values.now) term.now) }
{
    match term {
        Term::Const(text) => text.copy(alloc),
        Term::Var(variable) => match values.get(*variable as usize) {
            Some(Val::Const(text)) => text.copy(alloc),
            _ => Text::from_str(alloc, ""),
        },
    }
}
