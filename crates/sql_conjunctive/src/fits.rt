// Whether a select is one over a schema.
ghost use Rattle.std.specs.Prelude.{◌≡◌, ◌↔◌, ◌<◌, IsTrue, All, length, slice_get};
ghost use Rattle.meaning.specs.Instances.{FitsRelation, IsInstance};
ghost use Rattle.meaning.specs.Conjunctive.{OperandFits, SelectFits};
ghost use Rattle.access_schema.specs.Meaning.{meaning_of};
ghost use Rattle.sql_conjunctive.specs.Fits.{ConditionFits, IsColumn};
ghost use Rattle.sql_conjunctive.specs.Rows.{FitsWithFew};

use crate::limits::MOST_FROMS;
use access_schema::Schema;
use meaning::types::{Condition, Fact, Instance, Operand, Relations, Select, Statement};

/// Whether the select is one over the schema: each FROM item is a relation, and each column is one of its FROM item's
/// relation. Takes no memory.
pub fn select_fits(select: &Select, schema: &Schema) -> bool
    ensures { IsTrue result ↔ SelectFits (meaning_of schema.now) select.now }
{
    are_relations(schema, select) && conditions_fit(schema, select) && items_fit(schema, select)
}

/// Whether the statement is one over the schema: each of its selects is, and has at most `MOST_FROMS` FROM items. Takes no
/// memory.
pub fn statement_fits(statement: &Statement, schema: &Schema) -> bool
    ensures { IsTrue result ↔ All (FitsWithFew (meaning_of schema.now)) statement.now.selects }
{
    let selects = statement.selects.as_slice();
    selects.iter().all(|select| fits_with_few(schema, select))
}

fn fits_with_few(schema: &Schema, select: &Select) -> bool
    ensures { IsTrue result ↔ FitsWithFew (meaning_of schema.now) select.now }
{
    select_fits(select, schema) && select.froms.len() <= MOST_FROMS
}

/// Whether the facts are an instance of the schema: each has a relation of the schema and a value for each of its columns.
/// Takes no memory.
pub fn is_instance(instance: &Instance, schema: &Schema) -> bool
    ensures { IsTrue result ↔ IsInstance (meaning_of schema.now) instance.now }
{
    facts_fit(instance, schema)
}

fn facts_fit(instance: &Instance, schema: &Schema) -> bool
    ensures { IsTrue result ↔ All (λ fact. FitsRelation (meaning_of schema.now) fact.rel fact.row) instance.now }
{
    let facts = instance.as_slice();
    facts.iter().all(|fact| fact_fits(schema, fact))
}

fn fact_fits(schema: &Schema, fact: &Fact) -> bool
    ensures { IsTrue result ↔ FitsRelation (meaning_of schema.now) fact.now.rel fact.now.row }
{
    match schema.relations.get(fact.rel as usize) {
        Some(relation) => fact.row.len() == relation.columns.len(),
        None => false,
    }
}

fn are_relations(schema: &Schema, select: &Select) -> bool
    ensures { IsTrue result ↔ All (λ rel. rel < length schema.now.relations) select.now.froms }
{
    let froms = select.froms.as_slice();
    froms
        .iter()
        .all(|rel| (*rel as usize) < schema.relations.len())
}

fn conditions_fit(schema: &Schema, select: &Select) -> bool
    ensures { IsTrue result ↔ All (ConditionFits (meaning_of schema.now) select.now) select.now.conditions }
{
    let conditions = select.conditions.as_slice();
    conditions
        .iter()
        .all(|condition| condition_fits(schema, select, condition))
}

fn items_fit(schema: &Schema, select: &Select) -> bool
    ensures { IsTrue result ↔ All (OperandFits (meaning_of schema.now) select.now) select.now.items }
{
    let items = select.items.as_slice();
    items.iter().all(|item| operand_fits(schema, select, item))
}

fn condition_fits(schema: &Schema, select: &Select, condition: &Condition) -> bool
    ensures { IsTrue result ↔ ConditionFits (meaning_of schema.now) select.now condition.now }
{
    operand_fits(schema, select, &condition.left) && operand_fits(schema, select, &condition.right)
}

fn operand_fits(schema: &Schema, select: &Select, operand: &Operand) -> bool
    ensures { IsTrue result ↔ OperandFits (meaning_of schema.now) select.now operand.now }
{
    match operand {
        Operand::Literal(_) => true,
        Operand::Column { from, column } => match select.froms.get(*from as usize) {
            Some(rel) => is_column(&schema.relations, *rel, *column),
            None => false,
        },
    }
}

fn is_column(relations: &Relations, rel: u32, column: u32) -> bool
    ensures { IsTrue result ↔ IsColumn relations.now rel column }
{
    match relations.get(rel as usize) {
        Some(relation) => (column as usize) < relation.columns.len(),
        None => false,
    }
}
