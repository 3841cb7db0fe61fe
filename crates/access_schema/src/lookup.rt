// Relations by their names.
ghost use Rattle.std.specs.Prelude.{◌≡◌, ◌≤◌, length, option_copied};
ghost use Rattle.std.specs.List.{find};
ghost use Rattle.access_schema.specs.Content.{is_named, is_declared, number_of, columns_of, sorts_of};

use lists::Text;
use meaning::types::{Relation, Sort};

/// Whether a relation has that name.
pub fn is_declared(relations: &[Relation], name: &Text) -> bool
    ensures { result ≡ is_declared relations.now name.now }
{
    relations.iter().any(|relation| relation.name == *name)
}

/// The number of the first relation of that name, or the number of relations where there is none.
pub fn number_of(relations: &[Relation], name: &Text) -> usize
    ensures number { result ≡ number_of relations.now name.now }
    ensures within { result ≤ length relations.now }
{
    let mut number = 0;
    let mut left = relations;
    while let [relation, rest @ ..] = left {
        if relation.name == *name {
            return number;
        }
        number += 1;
        left = rest;
    }
    number
}

/// The first relation of that name.
fn find<'a>(relations: &'a [Relation], name: &Text) -> Option<&'a Relation>
    ensures { option_copied result ≡ find (is_named name.now) relations.now }
{
    let mut left = relations;
    while let [relation, rest @ ..] = left {
        if relation.name == *name {
            return Some(relation);
        }
        left = rest;
    }
    None
}

/// The columns of the first relation of that name, and none where there is no such relation.
pub fn columns_of<'a>(relations: &'a [Relation], name: &Text) -> &'a [Text]
    ensures { result.now ≡ columns_of relations.now name.now }
{
    match find(relations, name) {
        Some(relation) => relation.columns.as_slice(),
        None => &[],
    }
}

/// The sorts of the columns of the first relation of that name, and none where there is no such relation.
pub fn sorts_of<'a>(relations: &'a [Relation], name: &Text) -> &'a [Sort]
    ensures { result.now ≡ sorts_of relations.now name.now }
{
    match find(relations, name) {
        Some(relation) => relation.sorts.as_slice(),
        None => &[],
    }
}
