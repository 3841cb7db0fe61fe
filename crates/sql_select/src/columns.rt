// Places of names, and the column that a name without a prefix stands for.
ghost use Rattle.std.specs.Prelude.{◌≡◌, ◌<◌, ◌≤◌, ◌^◌, ◌+◌, length, slice_get, IfSome};
ghost use Rattle.access_schema.specs.Names.{relation_names};
ghost use Rattle.sql_select.specs.Names.{from_names};
ghost use Rattle.sql_select.specs.Resolving.{AreNarrow, place_from, place_in, place_at, joined, found_in};
ghost use Rattle.sql_select.specs.declared.columns.Found.TheVariants as found;

use crate::named::NamedFrom;
use lists::Text;
use meaning::types::Relation;

/// What a name without a prefix stands for: nothing, one column, or columns of several FROM items.
#[derive(Clone, Copy)]
pub enum Found {
    Nothing,
    One { from: u32, column: u32 },
    Many,
}

/// The number of the relation of this name.
pub fn relation_place(relations: &[Relation], name: &Text) -> Option<u32>
    requires { length relations.now < 2 ^ 32 }
    ensures { result ≡ place_from 0 (relation_names relations.now) name.now }
{
    let mut number: u32 = 0;
    let mut left = relations;
    while let [relation, rest @ ..] = left {
        if relation.name == *name {
            return Some(number);
        }
        number += 1;
        left = rest;
    }
    None
}

/// The number of the FROM item of this name.
pub fn from_place(froms: &[NamedFrom], name: &Text) -> Option<u32>
    requires { length froms.now < 2 ^ 32 }
    ensures { result ≡ place_from 0 (from_names froms.now) name.now }
{
    let mut number: u32 = 0;
    let mut left = froms;
    while let [from, rest @ ..] = left {
        if from.item.text == *name {
            return Some(number);
        }
        number += 1;
        left = rest;
    }
    None
}

fn column_place(columns: &[Text], name: &Text) -> Option<u32>
    requires { length columns.now < 2 ^ 32 }
    ensures { result ≡ place_from 0 columns.now name.now }
{
    let mut number: u32 = 0;
    let mut left = columns;
    while let [column, rest @ ..] = left {
        if *column == *name {
            return Some(number);
        }
        number += 1;
        left = rest;
    }
    None
}

// The place of the column of this name in the relation of this number.
fn place_in(relations: &[Relation], rel: u32, name: &Text) -> Option<u32>
    requires { AreNarrow relations.now }
    ensures { result ≡ place_in (slice_get relations.now rel) name.now }
{
    match relations.get(rel as usize) {
        Some(relation) => column_place(relation.columns.as_slice(), name),
        None => None,
    }
}

/// The place of the column of this name in the FROM item of this number.
pub fn place_at(relations: &[Relation], rels: &[u32], from: u32, name: &Text) -> Option<u32>
    requires { AreNarrow relations.now }
    ensures { result ≡ place_at relations.now (slice_get rels.now from) name.now }
{
    match rels.get(from as usize) {
        Some(&rel) => place_in(relations, rel, name),
        None => None,
    }
}

fn join(found: Found, from: u32, place: Option<u32>) -> Found
    ensures { result ≡ joined found from place }
{
    match place {
        None => found,
        Some(column) => match found {
            Found::Nothing => Found::One { from, column },
            Found::One { .. } | Found::Many => Found::Many,
        },
    }
}

/// What a name without a prefix stands for among the FROM items of these relations.
pub fn found_column(relations: &[Relation], rels: &[u32], name: &Text) -> Found
    requires few { length rels.now < 2 ^ 32 }
    requires narrow { AreNarrow relations.now }
    ensures { result ≡ found_in relations.now 0 found.Nothing rels.now name.now }
{
    let mut found = Found::Nothing;
    let mut from: u32 = 0;
    let mut left = rels;
    while let [rel, rest @ ..] = left {
        found = join(found, from, place_in(relations, *rel, name));
        from += 1;
        left = rest;
    }
    found
}
