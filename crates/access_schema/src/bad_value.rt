// The values of a fact at integer columns.
ghost use Rattle.std.specs.Prelude.{◌≡◌, ◌≤◌, ◌<◌, ℕ, Some, length, slice_get, IsTrue, false, IfNone, IfSome};
ghost use Rattle.meaning.specs.declared.types.Sort.TheVariants.{Int};
ghost use Rattle.meaning.specs.Values.{Value};
ghost use Rattle.meaning.specs.Integers.{IsInteger};
ghost use Rattle.access_schema.specs.BadValues.{IsOtherIn};

use crate::limits::MOST_COLUMNS;
use crate::schema::Schema;
use lists::Text;
use meaning::is_integer;
use meaning::types::{Fact, Sort};

impl Schema {
    ghost use Rattle.std.specs.Prelude.{MatchOption};
    ghost use Rattle.meaning.specs.Matching.{itself};
    ghost use Rattle.meaning.specs.Instances.{FitsRelation};
    ghost use Rattle.meaning.specs.Sorts.{AreSorted};
    ghost use Rattle.access_schema.specs.Meaning.{meaning_of};
    ghost use Rattle.access_schema.specs.BadValues.{IsFirstOther};

    /// The first integer column at which the fact has another value; none comes exactly where there is no such column.
    /// Takes no memory.
    pub fn bad_value(&self, fact: &Fact) -> Option<u32>
        requires { FitsRelation (meaning_of self.now) fact.now.rel fact.now.row }
        ensures { MatchOption result (AreSorted itself (meaning_of self.now) fact.now.rel fact.now.row) (IsFirstOther (meaning_of self.now) fact.now) }
    {
        let relation = &self.relations.as_slice()[fact.rel as usize];
        first_other(relation.sorts.as_slice(), fact.row.as_slice())
    }
}

fn first_other(sorts: &[Sort], row: &[Text]) -> Option<u32>
    requires few { length sorts.now ≤ MOST_COLUMNS }
    requires long { length row.now ≡ length sorts.now }
    ensures none { IfNone result ((place : ℕ) (value : Value) → slice_get sorts.now place ≡ Some Int → slice_get row.now place ≡ Some value → IsInteger value) }
    ensures other { IfSome result (IsOtherIn sorts.now row.now) }
    ensures first { IfSome result (λ place. (lower : ℕ) → lower < place → IsOtherIn sorts.now row.now lower → ⊥) }
{
    for place in 0..sorts.len() {
        if is_other(sorts[place], &row[place]) {
            return Some(place as u32);
        }
    }
    None
}

fn is_other(sort: Sort, value: &Text) -> bool
    ensures other { IsTrue result → (sort ≡ Int) × (IsInteger value.now → ⊥) }
    ensures same { result ≡ false → sort ≡ Int → IsInteger value.now }
{
    match sort {
        Sort::Int => !is_integer(value.as_bytes()),
        Sort::Text => false,
    }
}
