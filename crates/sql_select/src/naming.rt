// Tokens to the names and values that they stand for.
ghost use Rattle.std.specs.Prelude.{◌≡◌, ◌≤◌, ◌++◌, IfOk, map, length, codes};
ghost use Rattle.std.specs.Fmt.{decimal};
ghost use Rattle.std.specs.List.{AllByRecursion};
ghost use Rattle.pq_text.specs.Spans.{IsSpan};
ghost use Rattle.sql_select.specs.Spanning.{OperandStands, AliasStands, ItemStands, FromStands, ConditionStands, SelectStands};
ghost use Rattle.sql_select.specs.Naming.{spelled, name_of, named_operand, alias_or, named_from, operand_name, item_name, named_item, named_items, named_condition, named_select};

use crate::limits::MOST_ITEMS;
use crate::named::{Name, NamedCondition, NamedFrom, NamedItem, NamedOperand, NamedSelect};
use crate::piece::{Alias, RawCondition, RawFrom, RawItem, RawOperand, RawSelect};
use lists::{Seq, Text};
use pq_text::{Token, lexeme_of};
use std::alloc::{AllocError, Global};

fn spelled(alloc: Global, text: &str, token: Token) -> Result<Text, AllocError>
    requires { IsSpan text.now token }
    ensures { IfOk result (λ name. name ≡ spelled text.now token) }
{
    let lexeme = lexeme_of(alloc, text, token)?;
    Ok(lexeme.text)
}

fn name_of(alloc: Global, text: &str, token: Token) -> Result<Name, AllocError>
    requires { IsSpan text.now token }
    ensures { IfOk result (λ name. name ≡ name_of text.now token) }
{
    Ok(Name {
        text: spelled(alloc, text, token)?,
        offset: token.start,
    })
}

fn named_operand(alloc: Global, text: &str, operand: RawOperand) -> Result<NamedOperand, AllocError>
    requires { OperandStands text.now operand }
    ensures { IfOk result (λ o. o ≡ named_operand text.now operand) }
{
    match operand {
        RawOperand::Plain(name) => Ok(NamedOperand::Plain(name_of(alloc, text, name)?)),
        RawOperand::Prefixed(prefix, name) => {
            let prefix = name_of(alloc, text, prefix)?;
            Ok(NamedOperand::Prefixed(prefix, name_of(alloc, text, name)?))
        }
        RawOperand::Value(value) => Ok(NamedOperand::Literal(spelled(alloc, text, value)?)),
    }
}

fn alias_or(token: Token, alias: Alias) -> Token
    ensures { result ≡ alias_or token alias }
{
    match alias {
        Alias::Missing => token,
        Alias::Alone(name) | Alias::After(name) => name,
    }
}

fn named_from(alloc: Global, text: &str, from: RawFrom) -> Result<NamedFrom, AllocError>
    requires { FromStands text.now from }
    ensures { IfOk result (λ f. f ≡ named_from text.now from) }
{
    let relation = name_of(alloc, text, from.relation)?;
    let item = name_of(alloc, text, alias_or(from.relation, from.alias))?;
    Ok(NamedFrom { relation, item })
}

// The name of a literal: `column` and its place.
fn column_name(alloc: Global, place: u64) -> Result<Text, AllocError>
    ensures { IfOk result (λ name. name ≡ codes "column" ++ decimal place) }
{
    Text::from_string(format!(in alloc; "column{place}")?)
}

fn operand_name(
    alloc: Global,
    text: &str,
    place: u64,
    operand: RawOperand,
) -> Result<Text, AllocError>
    requires { OperandStands text.now operand }
    ensures { IfOk result (λ name. name ≡ operand_name text.now place operand) }
{
    match operand {
        RawOperand::Plain(name) => spelled(alloc, text, name),
        RawOperand::Prefixed(_, name) => spelled(alloc, text, name),
        RawOperand::Value(_) => column_name(alloc, place),
    }
}

fn item_name(
    alloc: Global,
    text: &str,
    place: u64,
    operand: RawOperand,
    alias: Alias,
) -> Result<Text, AllocError>
    requires operand { OperandStands text.now operand }
    requires alias { AliasStands text.now alias }
    ensures { IfOk result (λ name. name ≡ item_name text.now place operand alias) }
{
    match alias {
        Alias::Missing => operand_name(alloc, text, place, operand),
        Alias::Alone(name) => spelled(alloc, text, name),
        Alias::After(name) => spelled(alloc, text, name),
    }
}

fn named_item(alloc: Global, text: &str, place: u64, item: RawItem) -> Result<NamedItem, AllocError>
    requires { ItemStands text.now item }
    ensures { IfOk result (λ i. i ≡ named_item text.now place item) }
{
    let operand = named_operand(alloc, text, item.operand)?;
    let name = item_name(alloc, text, place, item.operand, item.alias)?;
    Ok(NamedItem { operand, name })
}

fn named_items(alloc: Global, text: &str, items: &[RawItem]) -> Result<Seq<NamedItem>, AllocError>
    requires stand { AllByRecursion (ItemStands text.now) items.now }
    requires few { length items.now ≤ MOST_ITEMS }
    ensures { IfOk result (λ list. list ≡ named_items text.now 1 items.now) }
{
    let mut list = Seq::new(alloc);
    let mut left = items;
    while let [item, rest @ ..] = left {
        let place = list.len() as u64 + 1;
        list.push(named_item(alloc, text, place, *item)?)?;
        left = rest;
    }
    Ok(list)
}

fn named_froms(alloc: Global, text: &str, froms: &[RawFrom]) -> Result<Seq<NamedFrom>, AllocError>
    requires { AllByRecursion (FromStands text.now) froms.now }
    ensures { IfOk result (λ list. list ≡ map (named_from text.now) froms.now) }
{
    let mut list = Seq::new(alloc);
    let mut left = froms;
    while let [from, rest @ ..] = left {
        list.push(named_from(alloc, text, *from)?)?;
        left = rest;
    }
    Ok(list)
}

fn named_condition(
    alloc: Global,
    text: &str,
    condition: RawCondition,
) -> Result<NamedCondition, AllocError>
    requires { ConditionStands text.now condition }
    ensures { IfOk result (λ c. c ≡ named_condition text.now condition) }
{
    let left = named_operand(alloc, text, condition.left)?;
    let right = named_operand(alloc, text, condition.right)?;
    Ok(NamedCondition { left, right })
}

fn named_conditions(
    alloc: Global,
    text: &str,
    conditions: &[RawCondition],
) -> Result<Seq<NamedCondition>, AllocError>
    requires { AllByRecursion (ConditionStands text.now) conditions.now }
    ensures { IfOk result (λ list. list ≡ map (named_condition text.now) conditions.now) }
{
    let mut list = Seq::new(alloc);
    let mut left = conditions;
    while let [condition, rest @ ..] = left {
        list.push(named_condition(alloc, text, *condition)?)?;
        left = rest;
    }
    Ok(list)
}

/// The parts with their names spelled out.
pub fn named_select(alloc: Global, text: &str, raw: &RawSelect) -> Result<NamedSelect, AllocError>
    requires stand { SelectStands text.now raw.now }
    requires few { length raw.now.items ≤ MOST_ITEMS }
    ensures { IfOk result (λ parts. parts ≡ named_select text.now raw.now) }
{
    let items = named_items(alloc, text, raw.items.as_slice())?;
    let froms = named_froms(alloc, text, raw.froms.as_slice())?;
    let conditions = named_conditions(alloc, text, raw.conditions.as_slice())?;
    Ok(NamedSelect {
        items,
        froms,
        conditions,
    })
}
