// Whether the names and the sorts of parts are there.
ghost use Rattle.std.specs.Prelude.{◌≡◌, ◌↔◌, [], IsTrue};
ghost use Rattle.access_schema.specs.Faults.{IsNamed, AreNamed, HasSorts, HaveSorts};

use crate::part::Part;
use lists::Text;

/// Whether no name of a relation, a column, a method or a kind is empty, as `Schema::build` requires. Takes no memory.
pub fn are_named(parts: &[Part]) -> bool
    ensures { IsTrue result ↔ AreNamed parts.now }
{
    for part in parts {
        if !is_named(part) {
            return false;
        }
    }
    true
}

fn is_named(part: &Part) -> bool
    ensures { IsTrue result ↔ IsNamed part.now }
{
    match part {
        Part::Relation { name, columns, .. } => {
            !is_empty(name) && !columns.as_slice().iter().any(is_empty)
        }
        Part::Method { name, .. } => !is_empty(name),
        Part::Source { kind, .. } => !is_empty(kind),
        _ => true,
    }
}

fn is_empty(text: &Text) -> bool
    ensures { IsTrue result ↔ (text.now ≡ []) }
{
    text.as_bytes().is_empty()
}

/// Whether each relation has as many sorts as columns, as `Schema::build` requires. Takes no memory.
pub fn have_sorts(parts: &[Part]) -> bool
    ensures { IsTrue result ↔ HaveSorts parts.now }
{
    for part in parts {
        if !has_sorts(part) {
            return false;
        }
    }
    true
}

fn has_sorts(part: &Part) -> bool
    ensures { IsTrue result ↔ HasSorts part.now }
{
    match part {
        Part::Relation { columns, sorts, .. } => sorts.len() == columns.len(),
        _ => true,
    }
}
