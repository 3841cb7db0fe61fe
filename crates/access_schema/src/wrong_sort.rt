// Whether a part has a variable, a constant or a pair of columns of the wrong sort.
ghost use Rattle.std.specs.Prelude.{◌≡◌, ◌↔◌, ◌⊎◌, ◌++◌, ℕ, List, Contains, filter_map, option_copied, IfOk, OnOk, IsTrue};
ghost use Rattle.std.specs.List.{zip, list_any};
ghost use Rattle.meaning.specs.Integers.{IsInteger};
ghost use Rattle.access_schema.specs.Lists.{is_among, once_after, each_once};
ghost use Rattle.access_schema.specs.SortFaults.{sorted_terms, HasTwoSorts, HasOtherConstant, sort_at, are_two, pairs_two_sorts, HasWrongSort, text_at};

use crate::collect::{Wanted, text_of};
use crate::lookup::{columns_of, sorts_of};
use crate::names::{add_once, is_among, place_of};
use crate::part::{NamedAtom, NamedTerm, Part};
use lists::Text;
use meaning::is_integer;
use meaning::types::{Relation, Sort};
use std::alloc::{AllocError, Global};

fn text_at<'a>(wanted: Wanted, sort: Sort, term: &'a NamedTerm, own: Sort) -> Option<&'a Text>
    ensures { option_copied result ≡ text_at wanted sort (term.now, own) }
{
    match (sort, own) {
        (Sort::Int, Sort::Int) => text_of(wanted, term),
        (Sort::Text, Sort::Text) => text_of(wanted, term),
        _ => None,
    }
}

/// Adds the wanted texts of the terms at columns of that sort to the known ones.
fn add_terms(
    alloc: Global,
    known: &mut Vec<Text>,
    wanted: Wanted,
    sort: Sort,
    terms: &[NamedTerm],
    sorts: &[Sort],
) -> Result<(), AllocError>
    ensures { OnOk result (known.new.items ≡ once_after known.old.items (filter_map (text_at wanted sort) (zip terms.now sorts.now))) }
{
    let mut left = terms;
    let mut own = sorts;
    while let [term, rest @ ..] = left {
        let [column, after @ ..] = own else {
            return Ok(());
        };
        if let Some(text) = text_at(wanted, sort, term, *column) {
            add_once(alloc, known, text)?;
        }
        left = rest;
        own = after;
    }
    Ok(())
}

/// Adds the wanted texts of the atoms at columns of that sort to the known ones.
fn add_atoms(
    alloc: Global,
    known: &mut Vec<Text>,
    wanted: Wanted,
    sort: Sort,
    relations: &[Relation],
    atoms: &[NamedAtom],
) -> Result<(), AllocError>
    ensures { OnOk result (known.new.items ≡ once_after known.old.items (filter_map (text_at wanted sort) (sorted_terms relations.now atoms.now))) }
{
    let mut left = atoms;
    while let [atom, rest @ ..] = left {
        let sorts = sorts_of(relations, &atom.relation);
        add_terms(alloc, known, wanted, sort, atom.terms.as_slice(), sorts)?;
        left = rest;
    }
    Ok(())
}

/// The wanted texts of a rule at columns of that sort, each once.
#[tactic(auto, using(crate::proofs::Collected::once_sorted))]
fn texts_at(
    alloc: Global,
    wanted: Wanted,
    sort: Sort,
    relations: &[Relation],
    body: &[NamedAtom],
    head: &[NamedAtom],
) -> Result<Vec<Text>, AllocError>
    ensures { IfOk result (λ texts. texts.items ≡ each_once (filter_map (text_at wanted sort) (sorted_terms relations.now (body.now ++ head.now)))) }
{
    let mut known = Vec::new(alloc);
    add_atoms(alloc, &mut known, wanted, sort, relations, body)?;
    add_atoms(alloc, &mut known, wanted, sort, relations, head)?;
    Ok(known)
}

/// Whether a variable of the rule stands at columns of both sorts.
fn has_two_sorts(
    alloc: Global,
    relations: &[Relation],
    body: &[NamedAtom],
    head: &[NamedAtom],
) -> Result<bool, AllocError>
    ensures { IfOk result (λ two. IsTrue two ↔ HasTwoSorts (sorted_terms relations.now (body.now ++ head.now))) }
{
    let integers = texts_at(alloc, Wanted::Variables, Sort::Int, relations, body, head)?;
    let texts = texts_at(alloc, Wanted::Variables, Sort::Text, relations, body, head)?;
    Ok(share(integers.as_slice(), texts.as_slice()))
}

/// Whether a text of the one list is among the other.
fn share(ones: &[Text], others: &[Text]) -> bool
    ensures { result ≡ list_any (is_among others.now) ones.now }
{
    ones.iter().any(|text| is_among(others, text))
}

/// Whether a constant of the rule at an integer column is no integer.
fn has_other_constant(
    alloc: Global,
    relations: &[Relation],
    body: &[NamedAtom],
    head: &[NamedAtom],
) -> Result<bool, AllocError>
    ensures { IfOk result (λ other. IsTrue other ↔ HasOtherConstant (sorted_terms relations.now (body.now ++ head.now))) }
{
    let constants = texts_at(alloc, Wanted::Constants, Sort::Int, relations, body, head)?;
    Ok(has_other(constants.as_slice()))
}

/// Whether one of the texts is no integer.
fn has_other(texts: &[Text]) -> bool
    ensures { IsTrue result ↔ ((c : List ℕ) × Contains texts.now c × (IsInteger c → ⊥)) }
{
    for text in texts {
        if !is_integer(text.as_bytes()) {
            return true;
        }
    }
    false
}

fn sort_at(relations: &[Relation], name: &Text, column: &Text) -> Option<Sort>
    ensures { result ≡ sort_at relations.now name.now column.now }
{
    let place = place_of(columns_of(relations, name), column);
    sorts_of(relations, name).get(place).copied()
}

fn are_two(one: Option<Sort>, other: Option<Sort>) -> bool
    ensures { result ≡ are_two one other }
{
    match (one, other) {
        (Some(Sort::Int), Some(Sort::Text)) => true,
        (Some(Sort::Text), Some(Sort::Int)) => true,
        _ => false,
    }
}

/// Whether a column of a foreign key and the one that it is paired with have two sorts.
fn pairs_two_sorts(
    relations: &[Relation],
    relation: &Text,
    columns: &[Text],
    target: &Text,
    target_columns: &[Text],
) -> bool
    ensures { result ≡ pairs_two_sorts relations.now relation.now columns.now target.now target_columns.now }
{
    let mut left = columns;
    let mut others = target_columns;
    while let [column, rest @ ..] = left {
        let [other, after @ ..] = others else {
            return false;
        };
        if are_two(
            sort_at(relations, relation, column),
            sort_at(relations, target, other),
        ) {
            return true;
        }
        left = rest;
        others = after;
    }
    false
}

/// Whether a variable or a constant of the rule stands at a column of the wrong sort.
fn rule_has_wrong_sort(
    alloc: Global,
    relations: &[Relation],
    body: &[NamedAtom],
    head: &[NamedAtom],
) -> Result<bool, AllocError>
    ensures { IfOk result (λ wrong. IsTrue wrong ↔ (HasTwoSorts (sorted_terms relations.now (body.now ++ head.now)) ⊎ HasOtherConstant (sorted_terms relations.now (body.now ++ head.now)))) }
{
    if has_two_sorts(alloc, relations, body, head)? {
        return Ok(true);
    }
    has_other_constant(alloc, relations, body, head)
}

/// Whether a variable or a constant of a rule stands at a column of the wrong sort, or a foreign key pairs columns of two sorts.
pub fn has_wrong_sort(
    alloc: Global,
    relations: &[Relation],
    part: &Part,
) -> Result<bool, AllocError>
    ensures { IfOk result (λ wrong. IsTrue wrong ↔ HasWrongSort relations.now part.now) }
{
    match part {
        Part::Rule { body, head, .. } => {
            rule_has_wrong_sort(alloc, relations, body.as_slice(), head.as_slice())
        }
        Part::ForeignKey {
            relation,
            columns,
            target,
            target_columns,
            ..
        } => Ok(pairs_two_sorts(
            relations,
            relation,
            columns.as_slice(),
            target,
            target_columns.as_slice(),
        )),
        _ => Ok(false),
    }
}
