// The faults that a part shows by itself, or beside the parts before it.
ghost use Rattle.std.specs.Prelude.{◌≡◌, IfOk};
ghost use Rattle.std.specs.List.{list_any};
ghost use Rattle.access_schema.specs.Faults.{is_relation, is_method, is_rule, is_relation_named, is_method_named, is_source_of, repeats_name, is_unknown, uses_unknown, is_misfit, has_wrong_arity, lacks, has_unknown_column};

use crate::lookup::{columns_of, is_declared};
use crate::names::{is_among, repeats};
use crate::part::{NamedAtom, Part};
use lists::Text;
use meaning::types::Relation;
use std::alloc::{AllocError, Global};

/// Whether the part is a relation.
pub fn is_relation(part: &Part) -> bool
    ensures { result ≡ is_relation part.now }
{
    match part {
        Part::Relation { .. } => true,
        _ => false,
    }
}

/// Whether the part is a method.
pub fn is_method(part: &Part) -> bool
    ensures { result ≡ is_method part.now }
{
    match part {
        Part::Method { .. } => true,
        _ => false,
    }
}

/// Whether the part is a rule or a foreign key.
pub fn is_rule(part: &Part) -> bool
    ensures { result ≡ is_rule part.now }
{
    match part {
        Part::Rule { .. } => true,
        Part::ForeignKey { .. } => true,
        _ => false,
    }
}

fn is_relation_named(name: &Text, part: &Part) -> bool
    ensures { result ≡ is_relation_named name.now part.now }
{
    match part {
        Part::Relation { name: other, .. } => *other == *name,
        _ => false,
    }
}

fn is_method_named(name: &Text, part: &Part) -> bool
    ensures { result ≡ is_method_named name.now part.now }
{
    match part {
        Part::Method { name: other, .. } => *other == *name,
        _ => false,
    }
}

fn is_source_of(name: &Text, part: &Part) -> bool
    ensures { result ≡ is_source_of name.now part.now }
{
    match part {
        Part::Source { relation, .. } => *relation == *name,
        _ => false,
    }
}

fn has_relation_named(parts: &[Part], name: &Text) -> bool
    ensures { result ≡ list_any (is_relation_named name.now) parts.now }
{
    parts.iter().any(|part| is_relation_named(name, part))
}

fn has_method_named(parts: &[Part], name: &Text) -> bool
    ensures { result ≡ list_any (is_method_named name.now) parts.now }
{
    parts.iter().any(|part| is_method_named(name, part))
}

fn has_source_of(parts: &[Part], name: &Text) -> bool
    ensures { result ≡ list_any (is_source_of name.now) parts.now }
{
    parts.iter().any(|part| is_source_of(name, part))
}

/// Whether an earlier part has the name of this one, or a column stands twice in one list.
pub fn repeats_name(alloc: Global, earlier: &[Part], part: &Part) -> Result<bool, AllocError>
    ensures { IfOk result (λ twice. twice ≡ repeats_name earlier.now part.now) }
{
    match part {
        Part::Relation { name, columns, .. } => {
            Ok(has_relation_named(earlier, name) || repeats(alloc, columns.as_slice())?)
        }
        Part::Method { name, inputs, .. } => {
            Ok(has_method_named(earlier, name) || repeats(alloc, inputs.as_slice())?)
        }
        Part::ForeignKey {
            columns,
            target_columns,
            ..
        } => Ok(repeats(alloc, columns.as_slice())? || repeats(alloc, target_columns.as_slice())?),
        Part::Source { relation, .. } => Ok(has_source_of(earlier, relation)),
        Part::Rule { .. } => Ok(false),
        Part::Constant { .. } => Ok(false),
    }
}

fn is_unknown(relations: &[Relation], name: &Text) -> bool
    ensures { result ≡ is_unknown relations.now name.now }
{
    !is_declared(relations, name)
}

fn has_unknown_atom(relations: &[Relation], atoms: &[NamedAtom]) -> bool
    ensures { result ≡ list_any (λ atom. is_unknown relations.now atom.relation) atoms.now }
{
    atoms
        .iter()
        .any(|atom| is_unknown(relations, &atom.relation))
}

/// Whether the part uses a relation name that no part declares.
pub fn uses_unknown(relations: &[Relation], part: &Part) -> bool
    ensures { result ≡ uses_unknown relations.now part.now }
{
    match part {
        Part::Relation { .. } => false,
        Part::Method { relation, .. } => is_unknown(relations, relation),
        Part::Rule { body, head, .. } => {
            has_unknown_atom(relations, body.as_slice())
                || has_unknown_atom(relations, head.as_slice())
        }
        Part::ForeignKey {
            relation,
            target,
            ..
        } => { is_unknown(relations, relation) || is_unknown(relations, target) }
        Part::Constant { .. } => false,
        Part::Source { relation, .. } => is_unknown(relations, relation),
    }
}

fn is_misfit(relations: &[Relation], atom: &NamedAtom) -> bool
    ensures { result ≡ is_misfit relations.now atom.now }
{
    atom.terms.len() != columns_of(relations, &atom.relation).len()
}

fn has_misfit(relations: &[Relation], atoms: &[NamedAtom]) -> bool
    ensures { result ≡ list_any (is_misfit relations.now) atoms.now }
{
    atoms.iter().any(|atom| is_misfit(relations, atom))
}

/// Whether an atom has another number of terms than its relation has columns, or the lists of a foreign key differ in length.
pub fn has_wrong_arity(relations: &[Relation], part: &Part) -> bool
    ensures { result ≡ has_wrong_arity relations.now part.now }
{
    match part {
        Part::Rule { body, head, .. } => {
            has_misfit(relations, body.as_slice()) || has_misfit(relations, head.as_slice())
        }
        Part::ForeignKey {
            columns,
            target_columns,
            ..
        } => columns.len() != target_columns.len(),
        _ => false,
    }
}

fn lacks(relations: &[Relation], relation: &Text, names: &[Text]) -> bool
    ensures { result ≡ lacks relations.now relation.now names.now }
{
    let columns = columns_of(relations, relation);
    names.iter().any(|name| !is_among(columns, name))
}

/// Whether a column name of the part is not one of its relation.
pub fn has_unknown_column(relations: &[Relation], part: &Part) -> bool
    ensures { result ≡ has_unknown_column relations.now part.now }
{
    match part {
        Part::Method {
            relation,
            inputs,
            ..
        } => lacks(relations, relation, inputs.as_slice()),
        Part::ForeignKey {
            relation,
            columns,
            target,
            target_columns,
            ..
        } => {
            lacks(relations, relation, columns.as_slice())
                || lacks(relations, target, target_columns.as_slice())
        }
        _ => false,
    }
}
