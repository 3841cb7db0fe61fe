// The parts of a select with their names spelled out, and what can be wrong with a name.
use lists::{Seq, Text};

/// A name, and the byte at which its token begins.
#[derive(Drop)]
pub struct Name {
    pub text: Text,
    pub offset: u32,
}

/// A column without a prefix, one with the name of its FROM item, or a literal.
#[derive(Drop)]
pub enum NamedOperand {
    Plain(Name),
    Prefixed(Name, Name),
    Literal(Text),
}

/// An operand that is selected, and the name of its column in the answer.
#[derive(Drop)]
pub struct NamedItem {
    pub operand: NamedOperand,
    pub name: Text,
}

/// A relation that is selected from, and the item's name, which is the relation's where no second one is given.
#[derive(Drop)]
pub struct NamedFrom {
    pub relation: Name,
    pub item: Name,
}

/// Two operands that have to be equal.
#[derive(Drop)]
pub struct NamedCondition {
    pub left: NamedOperand,
    pub right: NamedOperand,
}

/// The parts of a select with their names spelled out.
#[derive(Drop)]
pub struct NamedSelect {
    pub items: Seq<NamedItem>,
    pub froms: Seq<NamedFrom>,
    pub conditions: Seq<NamedCondition>,
}

/// A name that stands for nothing, or for several things. An offset counts bytes from 0.
#[derive(Clone, Copy)]
pub enum NameFault {
    Unknown { offset: u32 },
    Ambiguous { offset: u32 },
}
