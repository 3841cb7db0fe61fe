// Names to what they stand for, or the first fault of a name.
ghost use Rattle.std.specs.Prelude.{◌≡◌, ◌<◌, ◌^◌, ◌≤◌, None, [], length, IfOk, IfErr};
ghost use Rattle.access_schema.specs.Lists.{is_among};
ghost use Rattle.sql_select.specs.Names.{from_names, rank_of};
ghost use Rattle.sql_select.specs.Select.{item_names, sql_fault, resolved, Resolves, IsNamingFault};
ghost use Rattle.sql_select.specs.Names.{IsMeaning};
ghost use Rattle.sql_select.specs.Resolving.{AreNarrow, earlier, unless_there, unknown_relation, used_name, from_fault, rels_of, meant_of, plain_meant, prefixed_meant, column_meant, fault_in, column_fault, item_operands, condition_operands, meant_items, meant_conditions};

use crate::columns::{Found, found_column, from_place, place_at, relation_place};
use crate::fault::SqlFault;
use crate::named::{NameFault, NamedCondition, NamedFrom, NamedItem, NamedOperand, NamedSelect};
use lists::{Copies, Seq, Text, Texts};
use meaning::types::{Condition, Operand, Relation, Select};
use std::alloc::{AllocError, Global};

/// What an operand means, or the fault of its names.
#[derive(Drop)]
pub enum Meant {
    Operand(Operand),
    Fault(NameFault),
}

/// Operands or conditions without faults, and the first fault of the others.
#[derive(Drop)]
pub struct Resolved<T> {
    pub list: Seq<T>,
    pub fault: Option<NameFault>,
}

// Faults by their offsets, and an unknown name first where two have one offset.
fn rank_of(fault: NameFault) -> u64
    ensures { result ≡ rank_of fault }
{
    match fault {
        NameFault::Unknown { offset } => 2 * offset as u64,
        NameFault::Ambiguous { offset } => 2 * offset as u64 + 1,
    }
}

fn earlier(new: Option<NameFault>, first: Option<NameFault>) -> Option<NameFault>
    ensures { result ≡ earlier new first }
{
    match (new, first) {
        (None, _) => first,
        (Some(_), None) => new,
        (Some(one), Some(other)) => {
            if rank_of(other) <= rank_of(one) {
                first
            } else {
                new
            }
        }
    }
}

fn unknown_relation(relations: &[Relation], from: &NamedFrom) -> Option<NameFault>
    requires { length relations.now < 2 ^ 32 }
    ensures { result ≡ unknown_relation relations.now from.now }
{
    match relation_place(relations, &from.relation.text) {
        None => Some(NameFault::Unknown {
            offset: from.relation.offset,
        }),
        Some(_) => None,
    }
}

fn is_used(froms: &[NamedFrom], name: &Text) -> bool
    ensures { result ≡ is_among (from_names froms.now) name.now }
{
    let mut left = froms;
    while let [from, rest @ ..] = left {
        if from.item.text == *name {
            return true;
        }
        left = rest;
    }
    false
}

fn used_name(before: &[NamedFrom], from: &NamedFrom) -> Option<NameFault>
    ensures { result ≡ used_name before.now from.now }
{
    if is_used(before, &from.item.text) {
        return Some(NameFault::Ambiguous {
            offset: from.item.offset,
        });
    }
    None
}

/// The first fault of the FROM items: an unknown relation, or a name that an earlier item has.
pub fn first_from_fault(relations: &[Relation], froms: &[NamedFrom]) -> Option<NameFault>
    requires { length relations.now < 2 ^ 32 }
    ensures { result ≡ from_fault relations.now [] None froms.now }
{
    let mut first = None;
    for (place, from) in froms.iter().enumerate() {
        let unknown = unknown_relation(relations, from);
        let used = used_name(&froms[..place], from);
        first = earlier(used, earlier(unknown, first));
    }
    first
}

/// The relations of the FROM items, by number.
pub fn relation_numbers(
    alloc: Global,
    relations: &[Relation],
    froms: &[NamedFrom],
) -> Result<Seq<u32>, AllocError>
    requires { length relations.now < 2 ^ 32 }
    ensures numbers { IfOk result (λ rels. rels ≡ rels_of relations.now froms.now) }
    ensures few { IfOk result (λ rels. length rels ≤ length froms.now) }
{
    let mut rels = Seq::new(alloc);
    let mut left = froms;
    while let [from, rest @ ..] = left {
        if let Some(rel) = relation_place(relations, &from.relation.text) {
            rels.push(rel)?;
        }
        left = rest;
    }
    Ok(rels)
}

fn plain_meant(offset: u32, found: Found) -> Meant
    ensures { result ≡ plain_meant offset found }
{
    match found {
        Found::Nothing => Meant::Fault(NameFault::Unknown { offset }),
        Found::One { from, column } => Meant::Operand(Operand::Column { from, column }),
        Found::Many => Meant::Fault(NameFault::Ambiguous { offset }),
    }
}

fn column_meant(offset: u32, from: u32, place: Option<u32>) -> Meant
    ensures { result ≡ column_meant offset from place }
{
    match place {
        None => Meant::Fault(NameFault::Unknown { offset }),
        Some(column) => Meant::Operand(Operand::Column { from, column }),
    }
}

fn meant_of(
    alloc: Global,
    relations: &[Relation],
    rels: &[u32],
    froms: &[NamedFrom],
    operand: &NamedOperand,
) -> Result<Meant, AllocError>
    requires few { length froms.now < 2 ^ 32 }
    requires as_few { length rels.now < 2 ^ 32 }
    requires narrow { AreNarrow relations.now }
    ensures { IfOk result (λ meant. meant ≡ meant_of relations.now rels.now froms.now operand.now) }
{
    match operand {
        NamedOperand::Literal(value) => Ok(Meant::Operand(Operand::Literal(value.copy(alloc)?))),
        NamedOperand::Plain(name) => {
            let found = found_column(relations, rels, &name.text);
            Ok(plain_meant(name.offset, found))
        }
        NamedOperand::Prefixed(prefix, name) => match from_place(froms, &prefix.text) {
            None => Ok(Meant::Fault(NameFault::Unknown {
                offset: prefix.offset,
            })),
            Some(from) => {
                let place = place_at(relations, rels, from, &name.text);
                Ok(column_meant(name.offset, from, place))
            }
        },
    }
}

fn fault_in(meant: &Meant) -> Option<NameFault>
    ensures { result ≡ fault_in meant.now }
{
    match meant {
        Meant::Operand(_) => None,
        Meant::Fault(fault) => Some(*fault),
    }
}

/// The operands of the items, and the first of their faults.
pub fn resolve_items(
    alloc: Global,
    relations: &[Relation],
    rels: &[u32],
    froms: &[NamedFrom],
    items: &[NamedItem],
) -> Result<Resolved<Operand>, AllocError>
    requires few { length froms.now < 2 ^ 32 }
    requires as_few { length rels.now < 2 ^ 32 }
    requires narrow { AreNarrow relations.now }
    ensures list { IfOk result (λ r. r.list ≡ meant_items relations.now rels.now froms.now items.now) }
    ensures fault { IfOk result (λ r. r.fault ≡ column_fault relations.now rels.now froms.now None (item_operands items.now)) }
{
    let mut list = Seq::new(alloc);
    let mut fault = None;
    let mut left = items;
    while let [item, rest @ ..] = left {
        let meant = meant_of(alloc, relations, rels, froms, &item.operand)?;
        fault = earlier(fault_in(&meant), fault);
        if let Meant::Operand(operand) = meant {
            list.push(operand)?;
        }
        left = rest;
    }
    Ok(Resolved { list, fault })
}

/// The conditions, and the first fault of their operands and of those before.
pub fn resolve_conditions(
    alloc: Global,
    relations: &[Relation],
    rels: &[u32],
    froms: &[NamedFrom],
    first: Option<NameFault>,
    conditions: &[NamedCondition],
) -> Result<Resolved<Condition>, AllocError>
    requires few { length froms.now < 2 ^ 32 }
    requires as_few { length rels.now < 2 ^ 32 }
    requires narrow { AreNarrow relations.now }
    ensures list { IfOk result (λ r. r.list ≡ meant_conditions relations.now rels.now froms.now conditions.now) }
    ensures fault { IfOk result (λ r. r.fault ≡ column_fault relations.now rels.now froms.now first (condition_operands conditions.now)) }
{
    let mut list = Seq::new(alloc);
    let mut fault = first;
    let mut others = conditions;
    while let [condition, rest @ ..] = others {
        let left = meant_of(alloc, relations, rels, froms, &condition.left)?;
        let right = meant_of(alloc, relations, rels, froms, &condition.right)?;
        fault = earlier(fault_in(&right), earlier(fault_in(&left), fault));
        if let (Meant::Operand(left), Meant::Operand(right)) = (left, right) {
            list.push(Condition { left, right })?;
        }
        others = rest;
    }
    Ok(Resolved { list, fault })
}

fn item_names(alloc: Global, items: &[NamedItem]) -> Result<Texts, AllocError>
    ensures { IfOk result (λ names. names ≡ item_names items.now) }
{
    let mut names = Seq::new(alloc);
    let mut left = items;
    while let [item, rest @ ..] = left {
        names.push(item.name.copy(alloc)?)?;
        left = rest;
    }
    Ok(names)
}

fn sql_fault(fault: NameFault) -> SqlFault
    ensures { result ≡ sql_fault fault }
{
    match fault {
        NameFault::Unknown { offset } => SqlFault::UnknownName { offset },
        NameFault::Ambiguous { offset } => SqlFault::Ambiguous { offset },
    }
}

fn resolve(alloc: Global, relations: &[Relation], parts: &NamedSelect) -> Result<Select, SqlFault>
    requires relations { length relations.now < 2 ^ 32 }
    requires narrow { AreNarrow relations.now }
    requires froms { length parts.now.froms < 2 ^ 32 }
    ensures { Resolves result (resolved relations.now parts.now) }
{
    let froms = parts.froms.as_slice();
    if let Some(fault) = first_from_fault(relations, froms) {
        return Err(sql_fault(fault));
    }
    let rels = relation_numbers(alloc, relations, froms)?;
    let items = resolve_items(
        alloc,
        relations,
        rels.as_slice(),
        froms,
        parts.items.as_slice(),
    )?;
    let conditions = resolve_conditions(
        alloc,
        relations,
        rels.as_slice(),
        froms,
        items.fault,
        parts.conditions.as_slice(),
    )?;
    if let Some(fault) = conditions.fault {
        return Err(sql_fault(fault));
    }
    let names = item_names(alloc, parts.items.as_slice())?;
    Ok(Select {
        froms: rels,
        conditions: conditions.list,
        items: items.list,
        names,
    })
}

/// The select that the parts stand for over these relations, or the first fault of their names.
pub fn resolve_select(
    alloc: Global,
    relations: &[Relation],
    parts: &NamedSelect,
) -> Result<Select, SqlFault>
    requires relations { length relations.now < 2 ^ 32 }
    requires narrow { AreNarrow relations.now }
    requires froms { length parts.now.froms < 2 ^ 32 }
    ensures means { IfOk result (IsMeaning relations.now parts.now) }
    ensures fault { IfErr result (IsNamingFault relations.now parts.now) }
{
    resolve(alloc, relations, parts)
}
