// The table of places, and one step of it. A state is a place with what has been read of the part that stands there.
ghost use Rattle.std.specs.Prelude.{◌≡◌, IsTrue};
ghost use Rattle.sql_select.specs.declared.state.State.TheVariants as place;
ghost use Rattle.sql_select.specs.Steps.{to, step_of, ending_of, after_item, after_operand, after_from, after_left, after_condition};

use crate::piece::{Alias, Piece, RawCondition, RawFrom, RawItem, RawOperand};
use pq_text::Token;

#[derive(Clone, Copy)]
pub enum State {
    Start,
    Selected,
    Item,
    ItemName(Token),
    ItemDot(Token),
    ItemOperand(RawOperand),
    ItemAs(RawOperand),
    ItemEnd(RawItem),
    From,
    FromName(Token),
    FromAs(Token),
    FromEnd(RawFrom),
    Left,
    LeftName(Token),
    LeftDot(Token),
    LeftEnd(RawOperand),
    Right(RawOperand),
    RightName(RawOperand, Token),
    RightDot(RawOperand, Token),
    RightEnd(RawCondition),
    End,
}

/// What a step finished.
#[derive(Clone, Copy)]
pub enum Done {
    Nothing,
    Item(RawItem),
    From(RawFrom),
    Condition(RawCondition),
}

/// The state after the next piece, and None where the place does not list it.
pub fn step(state: State, piece: Piece) -> Option<(State, Done)>
    ensures { result ≡ step_of state piece }
{
    match state {
        State::Start => at_start(piece),
        State::Selected => at_selected(piece),
        State::Item => at_item(piece),
        State::ItemName(name) => at_item_name(name, piece),
        State::ItemDot(prefix) => at_item_dot(prefix, piece),
        State::ItemOperand(operand) => after_operand(operand, piece),
        State::ItemAs(operand) => at_item_as(operand, piece),
        State::ItemEnd(item) => after_item(item, piece),
        State::From => at_from(piece),
        State::FromName(relation) => at_from_name(relation, piece),
        State::FromAs(relation) => at_from_as(relation, piece),
        State::FromEnd(from) => after_from(from, piece),
        State::Left => at_left(piece),
        State::LeftName(name) => at_left_name(name, piece),
        State::LeftDot(prefix) => at_left_dot(prefix, piece),
        State::LeftEnd(left) => after_left(left, piece),
        State::Right(left) => at_right(left, piece),
        State::RightName(left, name) => at_right_name(left, name, piece),
        State::RightDot(left, prefix) => at_right_dot(left, prefix, piece),
        State::RightEnd(condition) => after_condition(condition, piece),
        State::End => None,
    }
}

fn at_start(piece: Piece) -> Option<(State, Done)>
    ensures { result ≡ step_of place.Start piece }
{
    match piece {
        Piece::Select => to(State::Selected),
        _ => None,
    }
}

fn at_selected(piece: Piece) -> Option<(State, Done)>
    ensures { result ≡ step_of place.Selected piece }
{
    match piece {
        Piece::Distinct => to(State::Item),
        _ => None,
    }
}

fn at_item(piece: Piece) -> Option<(State, Done)>
    ensures { result ≡ step_of place.Item piece }
{
    match piece {
        Piece::Name(token) => to(State::ItemName(token)),
        Piece::Value(token) => to(State::ItemOperand(RawOperand::Value(token))),
        _ => None,
    }
}

fn at_item_name(name: Token, piece: Piece) -> Option<(State, Done)>
    ensures { result ≡ step_of (place.ItemName name) piece }
{
    match piece {
        Piece::Dot => to(State::ItemDot(name)),
        _ => after_operand(RawOperand::Plain(name), piece),
    }
}

fn at_item_dot(prefix: Token, piece: Piece) -> Option<(State, Done)>
    ensures { result ≡ step_of (place.ItemDot prefix) piece }
{
    match piece {
        Piece::Name(token) => to(State::ItemOperand(RawOperand::Prefixed(prefix, token))),
        _ => None,
    }
}

fn at_item_as(operand: RawOperand, piece: Piece) -> Option<(State, Done)>
    ensures { result ≡ step_of (place.ItemAs operand) piece }
{
    match piece {
        Piece::Name(token) => {
            let alias = Alias::After(token);
            to(State::ItemEnd(RawItem { operand, alias }))
        }
        _ => None,
    }
}

fn at_from(piece: Piece) -> Option<(State, Done)>
    ensures { result ≡ step_of place.From piece }
{
    match piece {
        Piece::Name(token) => to(State::FromName(token)),
        _ => None,
    }
}

fn at_from_name(relation: Token, piece: Piece) -> Option<(State, Done)>
    ensures { result ≡ step_of (place.FromName relation) piece }
{
    match piece {
        Piece::As => to(State::FromAs(relation)),
        Piece::Name(token) => {
            let alias = Alias::Alone(token);
            to(State::FromEnd(RawFrom { relation, alias }))
        }
        _ => {
            let alias = Alias::Missing;
            after_from(RawFrom { relation, alias }, piece)
        }
    }
}

fn at_from_as(relation: Token, piece: Piece) -> Option<(State, Done)>
    ensures { result ≡ step_of (place.FromAs relation) piece }
{
    match piece {
        Piece::Name(token) => {
            let alias = Alias::After(token);
            to(State::FromEnd(RawFrom { relation, alias }))
        }
        _ => None,
    }
}

fn at_left(piece: Piece) -> Option<(State, Done)>
    ensures { result ≡ step_of place.Left piece }
{
    match piece {
        Piece::Name(token) => to(State::LeftName(token)),
        Piece::Value(token) => to(State::LeftEnd(RawOperand::Value(token))),
        _ => None,
    }
}

fn at_left_name(name: Token, piece: Piece) -> Option<(State, Done)>
    ensures { result ≡ step_of (place.LeftName name) piece }
{
    match piece {
        Piece::Dot => to(State::LeftDot(name)),
        _ => after_left(RawOperand::Plain(name), piece),
    }
}

fn at_left_dot(prefix: Token, piece: Piece) -> Option<(State, Done)>
    ensures { result ≡ step_of (place.LeftDot prefix) piece }
{
    match piece {
        Piece::Name(token) => to(State::LeftEnd(RawOperand::Prefixed(prefix, token))),
        _ => None,
    }
}

fn at_right(left: RawOperand, piece: Piece) -> Option<(State, Done)>
    ensures { result ≡ step_of (place.Right left) piece }
{
    match piece {
        Piece::Name(token) => to(State::RightName(left, token)),
        Piece::Value(token) => {
            let right = RawOperand::Value(token);
            to(State::RightEnd(RawCondition { left, right }))
        }
        _ => None,
    }
}

fn at_right_name(left: RawOperand, name: Token, piece: Piece) -> Option<(State, Done)>
    ensures { result ≡ step_of (place.RightName left name) piece }
{
    match piece {
        Piece::Dot => to(State::RightDot(left, name)),
        _ => {
            let right = RawOperand::Plain(name);
            after_condition(RawCondition { left, right }, piece)
        }
    }
}

fn at_right_dot(left: RawOperand, prefix: Token, piece: Piece) -> Option<(State, Done)>
    ensures { result ≡ step_of (place.RightDot left prefix) piece }
{
    match piece {
        Piece::Name(token) => {
            let right = RawOperand::Prefixed(prefix, token);
            to(State::RightEnd(RawCondition { left, right }))
        }
        _ => None,
    }
}

fn after_item(item: RawItem, piece: Piece) -> Option<(State, Done)>
    ensures { result ≡ after_item item piece }
{
    match piece {
        Piece::Comma => Some((State::Item, Done::Item(item))),
        Piece::From => Some((State::From, Done::Item(item))),
        _ => None,
    }
}

fn after_operand(operand: RawOperand, piece: Piece) -> Option<(State, Done)>
    ensures { result ≡ after_operand operand piece }
{
    match piece {
        Piece::As => to(State::ItemAs(operand)),
        Piece::Name(token) => {
            let alias = Alias::Alone(token);
            to(State::ItemEnd(RawItem { operand, alias }))
        }
        _ => {
            let alias = Alias::Missing;
            after_item(RawItem { operand, alias }, piece)
        }
    }
}

fn after_from(from: RawFrom, piece: Piece) -> Option<(State, Done)>
    ensures { result ≡ after_from from piece }
{
    match piece {
        Piece::Comma => Some((State::From, Done::From(from))),
        Piece::Where => Some((State::Left, Done::From(from))),
        Piece::Union => Some((State::Start, Done::From(from))),
        Piece::Semicolon => Some((State::End, Done::From(from))),
        _ => None,
    }
}

fn after_left(left: RawOperand, piece: Piece) -> Option<(State, Done)>
    ensures { result ≡ after_left left piece }
{
    match piece {
        Piece::Equals => to(State::Right(left)),
        _ => None,
    }
}

fn after_condition(condition: RawCondition, piece: Piece) -> Option<(State, Done)>
    ensures { result ≡ after_condition condition piece }
{
    match piece {
        Piece::And => Some((State::Left, Done::Condition(condition))),
        Piece::Union => Some((State::Start, Done::Condition(condition))),
        Piece::Semicolon => Some((State::End, Done::Condition(condition))),
        _ => None,
    }
}

// The next state, where the piece finishes nothing.
fn to(state: State) -> Option<(State, Done)>
    ensures { result ≡ to state }
{
    Some((state, Done::Nothing))
}

/// What ends with the text at this place, and None where the place does not list the end.
pub fn ending(state: State) -> Option<Done>
    ensures { result ≡ ending_of state }
{
    match state {
        State::FromName(relation) => {
            let alias = Alias::Missing;
            Some(Done::From(RawFrom { relation, alias }))
        }
        State::FromEnd(from) => Some(Done::From(from)),
        State::RightName(left, name) => {
            let right = RawOperand::Plain(name);
            Some(Done::Condition(RawCondition { left, right }))
        }
        State::RightEnd(condition) => Some(Done::Condition(condition)),
        State::End => Some(Done::Nothing),
        _ => None,
    }
}
