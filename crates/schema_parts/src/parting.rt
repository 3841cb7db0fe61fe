// Schemas with some of the rules of another.
ghost use Rattle.std.specs.Prelude.{◌≡◌, length, IfOk};
ghost use Rattle.access_schema.specs.Meaning.{meaning_of};
ghost use Rattle.schema_parts.specs.Parts.{with_rules, marked};

use access_schema::Schema;
use lists::{Copies, NoMemory, Seq};
use meaning::types::{Method, Methods, Relation, Relations, Rule, Rules};
use std::alloc::Global;

/// The schema with those of its rules beside which a mark is set, and without its source lines.
pub fn with_some_rules(alloc: Global, schema: &Schema, marks: &[bool]) -> Result<Schema, NoMemory>
    requires { length marks.now ≡ length schema.now.rules }
    ensures { IfOk result (λ part. meaning_of part ≡ with_rules (meaning_of schema.now) (marked schema.now.rules marks.now)) }
{
    Ok(Schema {
        relations: copied_relations(alloc, schema.relations.as_slice())?,
        methods: copied_methods(alloc, schema.methods.as_slice())?,
        rules: marked_rules(alloc, schema.rules.as_slice(), marks)?,
        constants: schema.constants.copy(alloc)?,
        sources: Seq::new(alloc),
    })
}

fn copied_relations(alloc: Global, relations: &[Relation]) -> Result<Relations, NoMemory>
    ensures { IfOk result (λ copies. copies ≡ relations.now) }
{
    let mut copies = Seq::new(alloc);
    for relation in relations {
        copies.push(Relation {
            name: relation.name.copy(alloc)?,
            columns: relation.columns.copy(alloc)?,
            sorts: relation.sorts.copy(alloc)?,
        })?;
    }
    Ok(copies)
}

fn copied_methods(alloc: Global, methods: &[Method]) -> Result<Methods, NoMemory>
    ensures { IfOk result (λ copies. copies ≡ methods.now) }
{
    let mut copies = Seq::new(alloc);
    for method in methods {
        copies.push(Method {
            name: method.name.copy(alloc)?,
            rel: method.rel,
            inputs: method.inputs.copy(alloc)?,
            cost: method.cost,
        })?;
    }
    Ok(copies)
}

/// Copies of the rules beside which a mark is set, in order.
fn marked_rules(alloc: Global, rules: &[Rule], marks: &[bool]) -> Result<Rules, NoMemory>
    ensures { IfOk result (λ kept. kept ≡ marked rules.now marks.now) }
{
    let mut kept = Seq::new(alloc);
    let mut left = rules;
    let mut open = marks;
    while let ([rule, rest @ ..], [mark, later @ ..]) = (left, open) {
        if *mark {
            kept.push(Rule {
                line: rule.line,
                body: rule.body.copy(alloc)?,
                head: rule.head.copy(alloc)?,
            })?;
        }
        left = rest;
        open = later;
    }
    Ok(kept)
}
