// Schemas from lines of words.
use access_schema::{
    NamedAtom, NamedAtoms, NamedTerm, NamedTerms, Part, Parts, Schema, are_named, have_sorts,
};
use lists::{NoMemory, Seq, Text, Texts};
use meaning::types::{Sort, Sorts};
use std::alloc::Global;

/// Employees behind a lookup by number, and a directory that has each of them.
pub(crate) const STAFF: [[&str; 4]; 5] = [
    ["relation", "profinfo", "", "eid onum lname"],
    ["relation", "udirect", "", "eid lname"],
    ["method", "prof_by_eid", "profinfo", "eid"],
    ["method", "all_direct", "udirect", ""],
    ["key", "profinfo", "udirect", "eid lname"],
];

/// Orders, which are listed, each of a customer that has an account, which has a branch.
pub(crate) const ACCOUNTS: [[&str; 4]; 7] = [
    ["relation", "orders", "", "number customer"],
    ["relation", "account", "", "customer balance"],
    ["relation", "branch", "", "balance city"],
    ["method", "all_orders", "orders", ""],
    ["method", "account_of", "account", "customer"],
    ["key", "orders", "account", "customer"],
    ["key", "account", "branch", "balance"],
];

/// A relation that is asked as a whole, and by its first column.
pub(crate) const TWO_WAYS: [[&str; 4]; 3] = [
    ["relation", "r", "", "a b"],
    ["method", "by_a", "r", "a"],
    ["method", "all_r", "r", ""],
];

/// The relations of a tree of sixteen levels.
pub(crate) const LEVELS: [&str; 16] = [
    "e0", "e1", "e2", "e3", "e4", "e5", "e6", "e7", "e8", "e9", "e10", "e11", "e12", "e13", "e14",
    "e15",
];

/// The words of a line, with one blank between two.
pub(crate) fn words(alloc: Global, line: &str) -> Result<Texts, NoMemory> {
    let mut made = Seq::new(alloc);
    for word in line.split(' ') {
        if !word.is_empty() {
            made.push(Text::from_str(alloc, word)?)?;
        }
    }
    Ok(made)
}

/// The sorts of so many columns of texts.
fn text_sorts(alloc: Global, count: usize) -> Result<Sorts, NoMemory> {
    let mut sorts = Seq::new(alloc);
    for _ in 0..count {
        sorts.push(Sort::Text)?;
    }
    Ok(sorts)
}

pub(crate) fn relation(alloc: Global, name: &str, columns: &str) -> Result<Part, NoMemory> {
    let columns = words(alloc, columns)?;
    let sorts = text_sorts(alloc, columns.len())?;
    Ok(Part::Relation {
        name: Text::from_str(alloc, name)?,
        columns,
        sorts,
    })
}

pub(crate) fn method(
    alloc: Global,
    name: &str,
    relation: &str,
    inputs: &str,
) -> Result<Part, NoMemory> {
    let inputs = words(alloc, inputs)?;
    let relation = Text::from_str(alloc, relation)?;
    Ok(Part::Method {
        name: Text::from_str(alloc, name)?,
        relation,
        inputs,
        cost: 1,
    })
}

/// The columns of the relation stand in the same columns of the other.
pub(crate) fn key(alloc: Global, from: &str, to: &str, columns: &str) -> Result<Part, NoMemory> {
    let target_columns = words(alloc, columns)?;
    let columns = words(alloc, columns)?;
    let target = Text::from_str(alloc, to)?;
    Ok(Part::ForeignKey {
        line: 1,
        relation: Text::from_str(alloc, from)?,
        target,
        target_columns,
        columns,
    })
}

/// A part from its kind, its name, the relation that it is of, and its columns. A key has its relation in place of a name.
fn part(alloc: Global, said: &[&str; 4]) -> Result<Part, NoMemory> {
    let [kind, name, of, columns] = said;
    match *kind {
        "relation" => relation(alloc, name, columns),
        "method" => method(alloc, name, of, columns),
        _ => key(alloc, name, of, columns),
    }
}

pub(crate) fn built(alloc: Global, parts: Parts) -> Result<Schema, NoMemory> {
    if parts.len() > 100 || !are_named(parts.as_slice()) || !have_sorts(parts.as_slice()) {
        return Err(NoMemory);
    }
    match Schema::build(alloc, parts) {
        Ok(schema) => Ok(schema),
        Err(_) => Err(NoMemory),
    }
}

pub(crate) fn schema(alloc: Global, list: &[[&str; 4]]) -> Result<Schema, NoMemory> {
    let mut parts = Seq::new(alloc);
    for said in list {
        parts.push(part(alloc, said)?)?;
    }
    built(alloc, parts)
}

fn named_terms(alloc: Global, names: &str) -> Result<NamedTerms, NoMemory> {
    let mut terms = Seq::new(alloc);
    for name in names.split(' ') {
        terms.push(NamedTerm::Var(Text::from_str(alloc, name)?))?;
    }
    Ok(terms)
}

fn named_atom(alloc: Global, relation: &str, names: &str) -> Result<NamedAtom, NoMemory> {
    let terms = named_terms(alloc, names)?;
    Ok(NamedAtom {
        relation: Text::from_str(alloc, relation)?,
        terms,
    })
}

/// Atoms of the relation, with these variables.
fn named_atoms(alloc: Global, relation: &str, all: &[&str]) -> Result<NamedAtoms, NoMemory> {
    let mut atoms = Seq::new(alloc);
    for names in all {
        atoms.push(named_atom(alloc, relation, names)?)?;
    }
    Ok(atoms)
}

/// The rule that each pair of the first relation goes on in two pairs of the second.
fn fork(alloc: Global, from: &str, to: &str) -> Result<Part, NoMemory> {
    let body = named_atoms(alloc, from, &["x y"])?;
    let head = named_atoms(alloc, to, &["y z", "y w"])?;
    Ok(Part::Rule {
        line: 1,
        body,
        head,
    })
}

/// The relations in order, each of pairs that go on in two pairs of the next.
pub(crate) fn tree(alloc: Global, names: &[&str]) -> Result<Schema, NoMemory> {
    let mut parts = Seq::new(alloc);
    let mut last = "";
    for name in names {
        parts.push(relation(alloc, name, "a b")?)?;
        if !last.is_empty() {
            parts.push(fork(alloc, last, name)?)?;
        }
        last = name;
    }
    built(alloc, parts)
}
