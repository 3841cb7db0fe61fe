// What parts declare, with numbers in place of names.
ghost use Rattle.std.specs.Prelude.{◌≡◌, ◌≤◌, ◌++◌, length, map, IfOk};
ghost use Rattle.access_schema.specs.Content.{relations_of, methods_of, places_from, columns_of, sources_of, term_of, atom_of, numbered_rule, variables_of};
ghost use Rattle.access_schema.specs.Fits.{AreWithin, AreSmall};

use crate::collect::{Wanted, add_rule};
use crate::limits::{MOST_COLUMNS, MOST_RELATIONS, MOST_VARIABLES};
use crate::lookup::{columns_of, number_of};
use crate::names::{is_among, place_of};
use crate::part::{NamedAtom, NamedTerm, Part};
use crate::schema::{SourceLine, SourceLines};
use lists::{Copies, Places, Seq, Text};
use meaning::types::{Atom, Atoms, Method, Methods, Relation, Relations, Rule, Term, Terms};
use std::alloc::{AllocError, Global};

/// The declared relations, in order.
pub fn relations_of(alloc: Global, parts: &[Part]) -> Result<Relations, AllocError>
    ensures { IfOk result (λ relations. relations ≡ relations_of parts.now) }
{
    let mut relations = Vec::new(alloc);
    let mut left = parts;
    while let [part, rest @ ..] = left {
        if let Part::Relation {
            name,
            columns,
            sorts,
        } = part
        {
            relations.push(Relation {
                name: name.copy(alloc)?,
                columns: columns.copy(alloc)?,
                sorts: sorts.copy(alloc)?,
            })?;
        }
        left = rest;
    }
    Ok(Seq::from_vec(relations))
}

fn places_of(alloc: Global, names: &[Text], columns: &[Text]) -> Result<Places, AllocError>
    requires { length columns.now ≤ MOST_COLUMNS }
    ensures { IfOk result (λ places. places ≡ places_from 0 names.now columns.now) }
{
    let mut places = Vec::new(alloc);
    let mut place = 0;
    let mut left = columns;
    while let [column, rest @ ..] = left {
        if is_among(names, column) {
            places.push(place)?;
        }
        place += 1;
        left = rest;
    }
    Ok(Seq::from_vec(places))
}

/// The declared methods, in order.
pub fn methods_of(
    alloc: Global,
    relations: &[Relation],
    parts: &[Part],
) -> Result<Methods, AllocError>
    requires small { AreSmall relations.now }
    requires within { AreWithin parts.now }
    ensures { IfOk result (λ methods. methods ≡ methods_of relations.now parts.now) }
{
    let mut methods = Vec::new(alloc);
    let mut left = parts;
    while let [part, rest @ ..] = left {
        if let Part::Method {
            name,
            relation,
            inputs,
            cost,
        } = part
        {
            methods.push(Method {
                name: name.copy(alloc)?,
                rel: number_of(relations, relation) as u32,
                inputs: places_of(alloc, inputs.as_slice(), columns_of(relations, relation))?,
                cost: *cost as u32,
            })?;
        }
        left = rest;
    }
    Ok(Seq::from_vec(methods))
}

/// The source lines, in order.
pub fn sources_of(
    alloc: Global,
    relations: &[Relation],
    parts: &[Part],
) -> Result<SourceLines, AllocError>
    requires { length relations.now ≤ MOST_RELATIONS }
    ensures { IfOk result (λ sources. sources ≡ sources_of relations.now parts.now) }
{
    let mut sources = Vec::new(alloc);
    let mut left = parts;
    while let [part, rest @ ..] = left {
        if let Part::Source {
            relation,
            kind,
            locator,
        } = part
        {
            sources.push(SourceLine {
                rel: number_of(relations, relation) as u32,
                kind: kind.copy(alloc)?,
                locator: locator.copy(alloc)?,
            })?;
        }
        left = rest;
    }
    Ok(Seq::from_vec(sources))
}

fn terms_of(alloc: Global, variables: &[Text], terms: &[NamedTerm]) -> Result<Terms, AllocError>
    requires { length variables.now ≤ MOST_VARIABLES }
    ensures { IfOk result (λ made. made ≡ map (term_of variables.now) terms.now) }
{
    let mut made = Vec::with_capacity(alloc, terms.len())?;
    for term in terms {
        made.push(term_of(alloc, variables, term)?)?;
    }
    Ok(Seq::from_vec(made))
}

fn term_of(alloc: Global, variables: &[Text], term: &NamedTerm) -> Result<Term, AllocError>
    requires { length variables.now ≤ MOST_VARIABLES }
    ensures { IfOk result (λ made. made ≡ term_of variables.now term.now) }
{
    match term {
        NamedTerm::Var(name) => Ok(Term::Var(place_of(variables, name) as u32)),
        NamedTerm::Const(text) => Ok(Term::Const(text.copy(alloc)?)),
    }
}

fn atoms_of(
    alloc: Global,
    relations: &[Relation],
    variables: &[Text],
    atoms: &[NamedAtom],
) -> Result<Atoms, AllocError>
    requires relations { length relations.now ≤ MOST_RELATIONS }
    requires variables { length variables.now ≤ MOST_VARIABLES }
    ensures { IfOk result (λ made. made ≡ map (atom_of relations.now variables.now) atoms.now) }
{
    let mut made = Vec::with_capacity(alloc, atoms.len())?;
    for atom in atoms {
        made.push(Atom {
            rel: number_of(relations, &atom.relation) as u32,
            terms: terms_of(alloc, variables, atom.terms.as_slice())?,
        })?;
    }
    Ok(Seq::from_vec(made))
}

/// A rule with its relations and variables numbered.
pub fn numbered_rule(
    alloc: Global,
    relations: &[Relation],
    line: u32,
    body: &[NamedAtom],
    head: &[NamedAtom],
) -> Result<Rule, AllocError>
    requires relations { length relations.now ≤ MOST_RELATIONS }
    requires variables { length (variables_of (body.now ++ head.now)) ≤ MOST_VARIABLES }
    ensures { IfOk result (λ rule. rule ≡ numbered_rule relations.now line body.now head.now) }
{
    let variables = variables_of(alloc, body, head)?;
    Ok(Rule {
        line,
        body: atoms_of(alloc, relations, variables.as_slice(), body)?,
        head: atoms_of(alloc, relations, variables.as_slice(), head)?,
    })
}

fn variables_of(
    alloc: Global,
    body: &[NamedAtom],
    head: &[NamedAtom],
) -> Result<Vec<Text>, AllocError>
    requires { length (variables_of (body.now ++ head.now)) ≤ MOST_VARIABLES }
    ensures { IfOk result (λ variables. variables.items ≡ variables_of (body.now ++ head.now)) }
{
    let mut known = Vec::new(alloc);
    let _fits = add_rule(
        alloc,
        &mut known,
        Wanted::Variables,
        MOST_VARIABLES,
        body,
        head,
    )?;
    Ok(known)
}
