// Methods by their names, and relations and their source lines by number.
ghost use Rattle.std.specs.Prelude.{◌≡◌, IfSome, IfNone, IsSome, Some, option_copied, slice_get};
ghost use Rattle.meaning.specs.declared.types.Method.{Method};
ghost use Rattle.meaning.specs.Plans.{IsMethod};
ghost use Rattle.access_schema.specs.Meaning.{meaning_of};
ghost use Rattle.middleware.specs.PlanSources.{line_for};

use access_schema::{Method, Relation, Schema, SourceLine};
use lists::Text;

/// The schema's method of that name.
pub fn find_method<'a>(schema: &'a Schema, name: &Text) -> Option<&'a Method>
    ensures there { IfSome result (λ method. IsMethod (meaning_of schema.now) name.now method.now) }
    ensures absent { IfNone result ((method : Method) → IsMethod (meaning_of schema.now) name.now method → ⊥) }
{
    match schema.method(name) {
        Some(number) => schema.methods.get(number as usize),
        None => None,
    }
}

/// The method of a name that the schema has.
pub fn method_of<'a>(schema: &'a Schema, name: &Text) -> &'a Method
    requires { (method : Method) × IsMethod (meaning_of schema.now) name.now method }
    ensures { IsMethod (meaning_of schema.now) name.now result.now }
{
    match find_method(schema, name) {
        Some(method) => method,
        None => unreachable!(),
    }
}

/// The relation of a number that the schema has.
pub fn relation_of(schema: &Schema, rel: u32) -> &Relation
    requires { IsSome (slice_get schema.now.relations rel) }
    ensures { slice_get schema.now.relations rel ≡ Some result.now }
{
    match schema.relations.get(rel as usize) {
        Some(relation) => relation,
        None => unreachable!(),
    }
}

/// The source line of a relation that has one.
pub fn line_of(schema: &Schema, rel: u32) -> &SourceLine
    requires { IsSome (line_for rel schema.now.sources) }
    ensures { line_for rel schema.now.sources ≡ Some result.now }
{
    match find_line(schema.sources.as_slice(), rel) {
        Some(line) => line,
        None => unreachable!(),
    }
}

/// The source line of a relation, if it has one.
pub fn find_line(lines: &[SourceLine], rel: u32) -> Option<&SourceLine>
    ensures { option_copied result ≡ line_for rel lines.now }
{
    let mut left = lines;
    while let [line, rest @ ..] = left {
        if line.rel == rel {
            return Some(line);
        }
        left = rest;
    }
    None
}
