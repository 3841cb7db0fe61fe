// An answer that is itself what the partial rows grow to.
ghost use Rattle.std.specs.Prelude.{◌≡◌, ◌∷◌, [], IsTrue};
ghost use Rattle.source_trait.specs.Asking.{HaveArity};
ghost use Rattle.middleware.specs.WholeAnswer.{AreNew, GrowsToAnswer};

use crate::answers::Answers;
use meaning::types::Place;
use row_text::PackedRows;

/// Whether the only partial row has no column yet, and each row of the only answer has one value for each place, which all make new
/// columns.
pub fn grows_to_answer(places: &[Place], answers: &Answers, rows: &PackedRows) -> bool
    ensures { IsTrue result → GrowsToAnswer places.now answers.now rows.now }
{
    let Some(answer) = answers.lone() else {
        return false;
    };
    if !is_first(rows) {
        return false;
    }
    if !are_new(places) {
        return false;
    }
    have_arity(answer, places.len())
}

/// Whether the only row has no column.
pub fn is_first(rows: &PackedRows) -> bool
    ensures { IsTrue result → rows.now ≡ [] ∷ [] }
{
    if rows.len() != 1 {
        return false;
    }
    have_arity(rows, 0)
}

fn are_new(places: &[Place]) -> bool
    ensures { IsTrue result → AreNew places.now }
{
    let mut left = places;
    while let [place, rest @ ..] = left {
        match place {
            Place::New => {}
            Place::Const(_) => return false,
            Place::Col(_) => return false,
        }
        left = rest;
    }
    true
}

/// Whether each of the rows has so many values.
pub fn have_arity(rows: &PackedRows, arity: usize) -> bool
    ensures { IsTrue result → HaveArity arity rows.now }
{
    for number in 0..rows.len() {
        if rows.at(number).len() != arity {
            return false;
        }
    }
    true
}
