// Rules and foreign keys as numbered rules, and the constants of a schema.
ghost use Rattle.std.specs.Prelude.{◌≡◌, ◌≤◌, ◌+◌, ◌*◌, ◌∷◌, [], true, length, map, flat_map, slice_index_or, IfOk, OnOk};
ghost use Rattle.std.specs.List.{range_with_len};
ghost use Rattle.meaning.specs.declared.types.Term.TheVariants as term;
ghost use Rattle.access_schema.specs.Lists.{is_among, place_of, once_after};
ghost use Rattle.access_schema.specs.Content.{key_number, next_number, key_terms, key_rule, rule_of, rules_of, declared_constants, rule_constants, constants_of};
ghost use Rattle.access_schema.specs.Fits.{IsWithin, AreWithin, AreSmall};

use crate::collect::{Wanted, add_rule};
use crate::content::numbered_rule;
use crate::limits::{MOST_COLUMNS, MOST_CONSTANTS};
use crate::lookup::{columns_of, number_of};
use crate::names::{add_once, is_among, place_of};
use crate::part::Part;
use lists::{Seq, Text, Texts};
use meaning::types::{Atom, Atoms, Relation, Rule, Rules, Term, Terms};
use std::alloc::{AllocError, Global};

#[tactic(auto, using(crate::proofs::Numbering::variables_push))]
fn distinct_terms(alloc: Global, count: usize) -> Result<Terms, AllocError>
    requires { count ≤ MOST_COLUMNS }
    ensures { IfOk result (λ terms. terms ≡ map term.Var (range_with_len 0 count)) }
{
    let mut terms = Vec::new(alloc);
    for number in 0..count {
        terms.push(Term::Var(number as u32))?;
    }
    Ok(Seq::from_vec(terms))
}

/// The variable of the column that matches a target column.
#[tactic(auto, using(crate::proofs::Numbering::place_among))]
fn matching_variable(
    own: &[Text],
    columns: &[Text],
    target_columns: &[Text],
    column: &Text,
) -> usize
    requires lists { length columns.now ≡ length target_columns.now }
    requires among { is_among target_columns.now column.now ≡ true }
    ensures place { result ≡ place_of own.now (slice_index_or columns.now (place_of target_columns.now column.now) []) }
    ensures within { result ≤ length own.now }
{
    let place = place_of(target_columns, column);
    place_of(own, &columns[place])
}

fn key_number(
    own: &[Text],
    columns: &[Text],
    target_columns: &[Text],
    next: usize,
    column: &Text,
) -> usize
    requires lists { length columns.now ≡ length target_columns.now }
    requires own { length own.now ≤ next }
    ensures number { result ≡ key_number own.now columns.now target_columns.now next column.now }
    ensures within { result ≤ next }
{
    if is_among(target_columns, column) {
        matching_variable(own, columns, target_columns, column)
    } else {
        next
    }
}

fn next_number(target_columns: &[Text], next: usize, column: &Text) -> usize
    requires { next ≤ 2 * MOST_COLUMNS }
    ensures number { result ≡ next_number target_columns.now next column.now }
    ensures above { next ≤ result }
    ensures within { result ≤ next + 1 }
{
    if is_among(target_columns, column) {
        next
    } else {
        next + 1
    }
}

fn key_terms(
    alloc: Global,
    own: &[Text],
    columns: &[Text],
    target_columns: &[Text],
    target: &[Text],
) -> Result<Terms, AllocError>
    requires lists { length columns.now ≡ length target_columns.now }
    requires own { length own.now ≤ MOST_COLUMNS }
    requires target { length target.now ≤ MOST_COLUMNS }
    ensures { IfOk result (λ terms. terms ≡ key_terms own.now columns.now target_columns.now (length own.now) target.now) }
{
    let mut terms = Vec::new(alloc);
    let mut next = own.len();
    let mut left = target;
    while let [column, rest @ ..] = left {
        terms.push(Term::Var(key_number(own, columns, target_columns, next, column) as u32))?;
        next = next_number(target_columns, next, column);
        left = rest;
    }
    Ok(Seq::from_vec(terms))
}

fn one_atom(alloc: Global, rel: u32, terms: Terms) -> Result<Atoms, AllocError>
    ensures { IfOk result (λ atoms. atoms ≡ record { rel = rel; terms = terms } ∷ []) }
{
    let mut atoms = Seq::new(alloc);
    atoms.push(Atom { rel, terms })?;
    Ok(atoms)
}

/// A foreign key as a rule.
fn key_rule(
    alloc: Global,
    relations: &[Relation],
    line: u32,
    relation: &Text,
    columns: &[Text],
    target: &Text,
    target_columns: &[Text],
) -> Result<Rule, AllocError>
    requires small { AreSmall relations.now }
    requires lists { length columns.now ≡ length target_columns.now }
    ensures { IfOk result (λ rule. rule ≡ key_rule relations.now line relation.now columns.now target.now target_columns.now) }
{
    let own = columns_of(relations, relation);
    let body = distinct_terms(alloc, own.len())?;
    let head = key_terms(
        alloc,
        own,
        columns,
        target_columns,
        columns_of(relations, target),
    )?;
    Ok(Rule {
        line,
        body: one_atom(alloc, number_of(relations, relation) as u32, body)?,
        head: one_atom(alloc, number_of(relations, target) as u32, head)?,
    })
}

fn rule_of(alloc: Global, relations: &[Relation], part: &Part) -> Result<Option<Rule>, AllocError>
    requires small { AreSmall relations.now }
    requires within { IsWithin part.now }
    ensures { IfOk result (λ rule. rule ≡ rule_of relations.now part.now) }
{
    match part {
        Part::Rule { line, body, head } => {
            Ok(Some(numbered_rule(alloc, relations, *line, body.as_slice(), head.as_slice())?))
        }
        Part::ForeignKey {
            line,
            relation,
            columns,
            target,
            target_columns,
        } => Ok(Some(key_rule(
            alloc,
            relations,
            *line,
            relation,
            columns.as_slice(),
            target,
            target_columns.as_slice(),
        )?)),
        _ => Ok(None),
    }
}

/// The rules and the foreign keys, in order.
pub fn rules_of(alloc: Global, relations: &[Relation], parts: &[Part]) -> Result<Rules, AllocError>
    requires small { AreSmall relations.now }
    requires within { AreWithin parts.now }
    ensures { IfOk result (λ rules. rules ≡ rules_of relations.now parts.now) }
{
    let mut rules = Vec::new(alloc);
    let mut left = parts;
    while let [part, rest @ ..] = left {
        if let Some(rule) = rule_of(alloc, relations, part)? {
            rules.push(rule)?;
        }
        left = rest;
    }
    Ok(Seq::from_vec(rules))
}

fn add_declared(alloc: Global, known: &mut Vec<Text>, parts: &[Part]) -> Result<(), AllocError>
    ensures { OnOk result (known.new.items ≡ once_after known.old.items (flat_map declared_constants parts.now)) }
{
    let mut left = parts;
    while let [part, rest @ ..] = left {
        if let Part::Constant { text } = part {
            add_once(alloc, known, text)?;
        }
        left = rest;
    }
    Ok(())
}

fn add_of_rule(alloc: Global, known: &mut Vec<Text>, part: &Part) -> Result<(), AllocError>
    requires { length (once_after known.old.items (rule_constants part.now)) ≤ MOST_CONSTANTS }
    ensures { OnOk result (known.new.items ≡ once_after known.old.items (rule_constants part.now)) }
{
    if let Part::Rule { body, head, .. } = part {
        let _fits = add_rule(
            alloc,
            known,
            Wanted::Constants,
            MOST_CONSTANTS,
            body.as_slice(),
            head.as_slice(),
        )?;
    }
    Ok(())
}

#[tactic(auto, using(crate::proofs::Numbering::once_first, crate::proofs::Collected::once_on))]
fn add_of_rules(alloc: Global, known: &mut Vec<Text>, parts: &[Part]) -> Result<(), AllocError>
    requires { length (once_after known.old.items (flat_map rule_constants parts.now)) ≤ MOST_CONSTANTS }
    ensures { OnOk result (known.new.items ≡ once_after known.old.items (flat_map rule_constants parts.now)) }
{
    let mut left = parts;
    while let [part, rest @ ..] = left {
        add_of_rule(alloc, known, part)?;
        left = rest;
    }
    Ok(())
}

/// Each constant once: first those of the constant parts, then those of the rules.
#[tactic(auto, using(crate::proofs::Collected::once_on))]
pub fn constants_of(alloc: Global, parts: &[Part]) -> Result<Texts, AllocError>
    requires { length (constants_of parts.now) ≤ MOST_CONSTANTS }
    ensures { IfOk result (λ constants. constants ≡ constants_of parts.now) }
{
    let mut known = Vec::new(alloc);
    add_declared(alloc, &mut known, parts)?;
    add_of_rules(alloc, &mut known, parts)?;
    Ok(Seq::from_vec(known))
}
