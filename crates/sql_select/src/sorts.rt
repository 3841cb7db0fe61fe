// The sorts of the columns that conditions compare.
ghost use Rattle.std.specs.Prelude.{◌≡◌, ◌<◌, ◌↔◌, IsTrue, MatchOption, Some, length, slice_get};
ghost use Rattle.meaning.specs.Conjunctive.{IsIntegerColumn, IsIntegerSide, ConditionIsSorted, SelectIsSorted};
ghost use Rattle.meaning.specs.Sorts.{HoldsIntegers};
ghost use Rattle.meaning.specs.declared.types.Sort.TheVariants.{Int};
ghost use Rattle.access_schema.specs.Meaning.{meaning_of};
ghost use Rattle.sql_select.specs.Sorts.{SelectsAreSorted, IsFirstWithout, IsFirstUnsorted, HaveAllConditions};
ghost use Rattle.sql_select.specs.Sorts.{operand_start, condition_starts};

use crate::piece::{RawOperand, RawSelect};
use access_schema::Schema;
use meaning::is_integer;
use meaning::types::{Condition, Operand, Relation, Select, Sort};

fn is_int_at(relation: &Relation, place: u32) -> bool
    ensures { IsTrue result ↔ (slice_get relation.now.sorts place ≡ Some Int) }
{
    match relation.sorts.get(place as usize) {
        Some(sort) => matches!(sort, Sort::Int),
        None => false,
    }
}

fn holds_integers(schema: &Schema, rel: u32, place: u32) -> bool
    ensures { IsTrue result ↔ HoldsIntegers (meaning_of schema.now) rel place }
{
    match schema.relations.get(rel as usize) {
        Some(relation) => is_int_at(relation, place),
        None => false,
    }
}

fn is_integer_column(schema: &Schema, select: &Select, operand: &Operand) -> bool
    ensures { IsTrue result ↔ IsIntegerColumn (meaning_of schema.now) select.now operand.now }
{
    match operand {
        Operand::Column { from, column } => match select.froms.get(*from as usize) {
            Some(rel) => holds_integers(schema, *rel, *column),
            None => false,
        },
        Operand::Literal(_) => false,
    }
}

// Whether the operand may stand beside an integer column.
fn is_integer_side(schema: &Schema, select: &Select, operand: &Operand) -> bool
    ensures { IsTrue result ↔ IsIntegerSide (meaning_of schema.now) select.now operand.now }
{
    match operand {
        Operand::Column { .. } => is_integer_column(schema, select, operand),
        Operand::Literal(text) => is_integer(text.as_bytes()),
    }
}

fn fits_beside(schema: &Schema, select: &Select, operand: &Operand, other: &Operand) -> bool
    ensures { IsTrue result ↔ (IsIntegerColumn (meaning_of schema.now) select.now operand.now
        → IsIntegerSide (meaning_of schema.now) select.now other.now) }
{
    !is_integer_column(schema, select, operand) || is_integer_side(schema, select, other)
}

fn is_sorted(schema: &Schema, select: &Select, condition: &Condition) -> bool
    ensures { IsTrue result ↔ ConditionIsSorted (meaning_of schema.now) select.now condition.now }
{
    fits_beside(schema, select, &condition.left, &condition.right)
        && fits_beside(schema, select, &condition.right, &condition.left)
}

// The place of the first condition that is not sorted.
fn unsorted_place(schema: &Schema, select: &Select) -> Option<usize>
    ensures { MatchOption result (SelectIsSorted (meaning_of schema.now) select.now)
        (IsFirstWithout (ConditionIsSorted (meaning_of schema.now) select.now) select.now.conditions) }
{
    for (place, condition) in select.conditions.as_slice().iter().enumerate() {
        if !is_sorted(schema, select, condition) {
            return Some(place);
        }
    }
    None
}

fn operand_start(operand: RawOperand) -> u32
    ensures { result ≡ operand_start operand }
{
    match operand {
        RawOperand::Plain(name) => name.start,
        RawOperand::Prefixed(prefix, _) => prefix.start,
        RawOperand::Value(value) => value.start,
    }
}

// Where the condition at the place begins.
fn condition_start(raw: &RawSelect, place: usize) -> u32
    requires { place < length raw.now.conditions }
    ensures { slice_get (condition_starts raw.now) place ≡ Some result }
{
    operand_start(raw.conditions.as_slice()[place].left)
}

/// Where the first condition that is not sorted begins, in the first select that has one. Takes no memory.
pub fn unsorted_offset(schema: &Schema, raws: &[RawSelect], selects: &[Select]) -> Option<u32>
    requires { HaveAllConditions raws.now selects.now }
    ensures { MatchOption result (SelectsAreSorted (meaning_of schema.now) selects.now)
        (IsFirstUnsorted (meaning_of schema.now) raws.now selects.now) }
{
    for (number, select) in selects.iter().enumerate() {
        if let Some(place) = unsorted_place(schema, select) {
            return Some(condition_start(&raws[number], place));
        }
    }
    None
}
