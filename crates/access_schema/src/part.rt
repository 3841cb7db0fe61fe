// The parts of a schema, with names in place of numbers.

use lists::{Seq, Text, Texts};
use meaning::types::Sorts;

pub type NamedTerms = Seq<NamedTerm>;

pub type NamedAtoms = Seq<NamedAtom>;

pub type Parts = Seq<Part>;

/// A variable by its name, or a constant.
#[derive(Drop)]
pub enum NamedTerm {
    Var(Text),
    Const(Text),
}

/// A relation by its name, with one term for each column.
#[derive(Drop)]
pub struct NamedAtom {
    pub relation: Text,
    pub terms: NamedTerms,
}

/// One declaration of a schema. A line counts from 1 and is that of the text. A relation has a sort for each of its columns.
#[derive(Drop)]
pub enum Part {
    Relation {
        name: Text,
        columns: Texts,
        sorts: Sorts,
    },
    Method {
        name: Text,
        relation: Text,
        inputs: Texts,
        cost: u64,
    },
    Rule {
        line: u32,
        body: NamedAtoms,
        head: NamedAtoms,
    },
    ForeignKey {
        line: u32,
        relation: Text,
        columns: Texts,
        target: Text,
        target_columns: Texts,
    },
    Constant {
        text: Text,
    },
    Source {
        relation: Text,
        kind: Text,
        locator: Text,
    },
}
