// Tokens as the grammar sees them, and the parts that they make.
use lists::Seq;
use pq_text::Token;

/// A token as the grammar sees it: a name and a value keep their token. `Other` is what no place of a query lists.
#[derive(Clone, Copy)]
pub enum Piece {
    Name(Token),
    Value(Token),
    Select,
    Distinct,
    From,
    Where,
    And,
    As,
    Union,
    Comma,
    Dot,
    Equals,
    Semicolon,
    Other,
}

/// A column, with the name of its FROM item or without, or a literal.
#[derive(Clone, Copy)]
pub enum RawOperand {
    Plain(Token),
    Prefixed(Token, Token),
    Value(Token),
}

/// A second name, given alone or after `as`.
#[derive(Clone, Copy)]
pub enum Alias {
    Missing,
    Alone(Token),
    After(Token),
}

/// An operand that is selected.
#[derive(Clone, Copy)]
pub struct RawItem {
    pub operand: RawOperand,
    pub alias: Alias,
}

/// A relation that is selected from.
#[derive(Clone, Copy)]
pub struct RawFrom {
    pub relation: Token,
    pub alias: Alias,
}

/// Two operands that have to be equal.
#[derive(Clone, Copy)]
pub struct RawCondition {
    pub left: RawOperand,
    pub right: RawOperand,
}

/// The parts of a select as they are written, with their names not looked up yet.
#[derive(Drop)]
pub struct RawSelect {
    pub items: Seq<RawItem>,
    pub froms: Seq<RawFrom>,
    pub conditions: Seq<RawCondition>,
}
