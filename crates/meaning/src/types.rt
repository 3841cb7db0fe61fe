// Plain data: what schemas, queries, plans and labelled states are made of.

use lists::{Places, Row, Seq, Text, Texts};

pub type Terms = Seq<Term>;

pub type Atoms = Seq<Atom>;

pub type Rules = Seq<Rule>;

/// The facts of an instance, of which only membership counts.
pub type Instance = Seq<Fact>;

pub type Sorts = Seq<Sort>;

pub type Relations = Seq<Relation>;

pub type Methods = Seq<Method>;

pub type Operands = Seq<Operand>;

pub type Conditions = Seq<Condition>;

pub type Selects = Seq<Select>;

pub type PlaceList = Seq<Place>;

pub type Outs = Seq<Out>;

pub type Steps = Seq<Step>;

pub type Branches = Seq<Branch>;

pub type Vals = Seq<Val>;

pub type Grounds = Seq<Ground>;

pub type Triggers = Seq<Trigger>;

pub type Firings = Seq<Firing>;

pub type Requests = Seq<Request>;

pub type Queries = Seq<Query>;

/// A variable, by its number, or a constant.
#[derive(Drop)]
pub enum Term {
    Var(u32),
    Const(Text),
}

/// A relation, by its number, with a term for each column.
#[derive(Drop)]
pub struct Atom {
    pub rel: u32,
    pub terms: Terms,
}

/// A rule, with the line of the schema text that it stands on: where the body's atoms are facts, so are the head's.
#[derive(Drop)]
pub struct Rule {
    pub line: u32,
    pub body: Atoms,
    pub head: Atoms,
}

/// A way to ask a relation: rows that have given values at the input columns.
#[derive(Drop)]
pub struct Method {
    pub name: Text,
    pub rel: u32,
    pub inputs: Places,
    pub cost: u32,
}

/// What the values of a column are: any texts, or integers of 64 bits.
#[derive(Clone, Copy, Debug, PartialEq, Eq)]
pub enum Sort {
    Text,
    Int,
}

/// A relation, its columns, and the sort of each column.
#[derive(Drop)]
pub struct Relation {
    pub name: Text,
    pub columns: Texts,
    pub sorts: Sorts,
}

/// What the definitions read of a schema: all but its source lines.
#[derive(Drop)]
pub struct SchemaParts {
    pub relations: Relations,
    pub methods: Methods,
    pub rules: Rules,
    pub constants: Texts,
}

/// A relation, by its number, with a row.
#[derive(Drop)]
pub struct Fact {
    pub rel: u32,
    pub row: Row,
}

/// A conjunctive query: atoms, the terms of the head, and how many variables the atoms have.
#[derive(Drop)]
pub struct Query {
    pub atoms: Atoms,
    pub head: Terms,
    pub variables: u32,
}

/// A column of a FROM item, both by number, or a literal.
#[derive(Drop)]
pub enum Operand {
    Column { from: u32, column: u32 },
    Literal(Text),
}

/// Two operands that have to be equal.
#[derive(Drop)]
pub struct Condition {
    pub left: Operand,
    pub right: Operand,
}

/// A select: the relations of its FROM items, its conditions, its items, and the names of the items.
#[derive(Drop)]
pub struct Select {
    pub froms: Places,
    pub conditions: Conditions,
    pub items: Operands,
    pub names: Texts,
}

/// Selects, whose answers are taken together.
#[derive(Drop)]
pub struct Statement {
    pub selects: Selects,
}

/// A place of an access step: a constant, a column that exists, or the next new column.
#[derive(Drop)]
pub enum Place {
    Const(Text),
    Col(u32),
    New,
}

/// A place of an output: a constant, or a column.
#[derive(Drop)]
pub enum Out {
    Const(Text),
    Col(u32),
}

/// An access by the method of this name, with a place for each column of its relation.
#[derive(Drop)]
pub struct Step {
    pub method: Text,
    pub places: PlaceList,
}

/// Access steps, each joined with the columns made so far, and the output.
#[derive(Drop)]
pub struct Branch {
    pub steps: Steps,
    pub output: Outs,
}

/// Branches, whose rows are taken together; each row has `width` values.
#[derive(Drop)]
pub struct Plan {
    pub width: u32,
    pub branches: Branches,
}

/// One question to a source: the rows of a relation that have these values at these positions.
#[derive(Drop)]
pub struct Request {
    pub rel: u32,
    pub positions: Places,
    pub values: Row,
}

/// A value that is known, or a label that stands for one that is not.
#[derive(PartialEq, Eq, PartialOrd, Ord, Drop)]
pub enum Val {
    Const(Text),
    Label(u32),
}

/// A relation with a row of labelled values.
#[derive(PartialEq, Eq, PartialOrd, Ord, Drop)]
pub struct Ground {
    pub rel: u32,
    pub vals: Vals,
}

/// A rule, by its number, with the values of its body's variables and the first of its new labels.
#[derive(Drop)]
pub struct Trigger {
    pub rule: u32,
    pub values: Vals,
    pub fresh: u32,
}

/// A firing of a base rule or of a copy rule, or an exposure of a base fact by a method.
#[derive(Drop)]
pub enum Firing {
    Base(Trigger),
    Copy(Trigger),
    Expose { method: u32, fact: Ground },
}
