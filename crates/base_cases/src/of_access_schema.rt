// Parts whose names are there or not.
use access_schema::{Part, Parts, Sort, Sorts, are_named};
use lists::{NoMemory, Text, Texts};
use std::alloc::Global;
use std::test::Fail;

fn texts(alloc: Global, all: &[&str]) -> Result<Texts, NoMemory> {
    let mut made = Texts::new(alloc);
    for text in all {
        made.push(Text::from_str(alloc, text)?)?;
    }
    Ok(made)
}

/// A relation of texts.
fn relation(alloc: Global, name: &str, columns: &[&str]) -> Result<Part, NoMemory> {
    let mut sorts = Sorts::new(alloc);
    for _ in columns {
        sorts.push(Sort::Text)?;
    }
    let columns = texts(alloc, columns)?;
    Ok(Part::Relation {
        name: Text::from_str(alloc, name)?,
        columns,
        sorts,
    })
}

fn method(alloc: Global, name: &str, inputs: &[&str]) -> Result<Part, NoMemory> {
    let inputs = texts(alloc, inputs)?;
    Ok(Part::Method {
        name: Text::from_str(alloc, name)?,
        relation: Text::from_str(alloc, "")?,
        inputs,
        cost: 0,
    })
}

fn key(alloc: Global, name: &str, columns: &[&str]) -> Result<Part, NoMemory> {
    let columns = texts(alloc, columns)?;
    Ok(Part::ForeignKey {
        line: 1,
        relation: Text::from_str(alloc, name)?,
        target: Text::from_str(alloc, "")?,
        target_columns: Texts::new(alloc),
        columns,
    })
}

fn source(alloc: Global, kind: &str) -> Result<Part, NoMemory> {
    Ok(Part::Source {
        relation: Text::from_str(alloc, "")?,
        kind: Text::from_str(alloc, kind)?,
        locator: Text::from_str(alloc, "x.csv")?,
    })
}

/// A part by its kind, its name or the kind of its source, and its columns or inputs.
fn part(alloc: Global, kind: &str, name: &str, columns: &[&str]) -> Result<Part, NoMemory> {
    match kind {
        "relation" => relation(alloc, name, columns),
        "method" => method(alloc, name, columns),
        "key" => key(alloc, name, columns),
        "source" => source(alloc, name),
        _ => Ok(Part::Constant {
            text: Text::from_str(alloc, name)?,
        }),
    }
}

/// Whether the part has all names that it has to have.
fn has_names(alloc: Global, kind: &str, name: &str, columns: &[&str]) -> Result<bool, NoMemory> {
    let mut parts = Parts::new(alloc);
    parts.push(part(alloc, kind, name, columns)?)?;
    Ok(are_named(parts.as_slice()))
}

/// Parts, each with whether it has its names.
const NAMED: [(&str, &str, &[&str], bool); 10] = [
    ("relation", "r", &["a"], true),
    ("relation", "s", &[], true),
    ("method", "m", &[""], true),
    ("key", "", &[""], true),
    ("constant", "", &[], true),
    ("source", "csv", &[], true),
    ("relation", "", &["a"], false),
    ("relation", "r", &["a", ""], false),
    ("method", "", &[], false),
    ("source", "", &[], false),
];

#[test]
fn names_are_there_or_not(rt: HostRuntime) -> Result<(), Fail> {
    for (kind, name, columns, wanted) in &NAMED {
        let has = has_names(rt.alloc(), kind, name, columns)?;
        assert_eq!(rt; has, *wanted, "{kind}");
    }
    Ok(())
}
