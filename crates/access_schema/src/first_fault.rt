// The first faulty part with its least fault.
ghost use Rattle.std.specs.Prelude.{◌≡◌, ◌↔◌, ◌<◌, ◌^◌, ◌++◌, ◌∷◌, [], length, map, false, not, option_to_list, IfOk, IfSome, IfNone, IfErr, OnOk, IsTrue};
ghost use Rattle.access_schema.specs.Content.{relations_of, number_of};
ghost use Rattle.access_schema.specs.Faults.{is_rule, uses_unknown, has_many_constants, plain_fault, IsLeastFault, IsFaultless, IsCause, AreFaultless};
ghost use Rattle.access_schema.specs.Links.{link_of, AreBelow, LeadRound};
ghost use Rattle.access_schema.specs.Progress.{StandsFor};

use crate::fault::{BuildFault, SchemaFault};
use crate::lookup::number_of;
use crate::part::{NamedAtom, Part};
use crate::part_faults::{has_unknown_column, has_wrong_arity, repeats_name, uses_unknown};
use crate::part_limits::{add_constants, passed_limit};
use crate::recursion::{Link, leads_round};
use crate::wrong_sort::has_wrong_sort;
use lists::{Places, Seq, Text};
use meaning::types::Relation;
use std::alloc::{AllocError, Global};

/// The first fault that the part shows without the chains of the rules, given whether the constants pass their limit.
fn plain_fault(
    alloc: Global,
    relations: &[Relation],
    earlier: &[Part],
    part: &Part,
    many_constants: bool,
) -> Result<Option<SchemaFault>, AllocError>
    requires { many_constants ≡ has_many_constants earlier.now part.now }
    ensures { IfOk result (λ found. found ≡ plain_fault relations.now earlier.now part.now) }
{
    if repeats_name(alloc, earlier, part)? {
        return Ok(Some(SchemaFault::DuplicateName));
    }
    if uses_unknown(relations, part) {
        return Ok(Some(SchemaFault::UnknownRelation));
    }
    if has_wrong_arity(relations, part) {
        return Ok(Some(SchemaFault::WrongArity));
    }
    if has_unknown_column(relations, part) {
        return Ok(Some(SchemaFault::UnknownColumn));
    }
    match passed_limit(alloc, earlier, part, many_constants)? {
        Some(limit) => Ok(Some(SchemaFault::OverLimit(limit))),
        None => Ok(None),
    }
}

fn one_number(alloc: Global, relations: &[Relation], name: &Text) -> Result<Places, AllocError>
    requires { length relations.now < 2 ^ 32 }
    ensures { IfOk result (λ numbers. numbers ≡ number_of relations.now name.now ∷ []) }
{
    let mut numbers = Seq::new(alloc);
    numbers.push(number_of(relations, name) as u32)?;
    Ok(numbers)
}

fn numbers_of(
    alloc: Global,
    relations: &[Relation],
    atoms: &[NamedAtom],
) -> Result<Places, AllocError>
    requires { length relations.now < 2 ^ 32 }
    ensures { IfOk result (λ numbers. numbers ≡ map (λ atom. number_of relations.now atom.relation) atoms.now) }
{
    let mut numbers = Vec::with_capacity(alloc, atoms.len())?;
    for atom in atoms {
        numbers.push(number_of(relations, &atom.relation) as u32)?;
    }
    Ok(Seq::from_vec(numbers))
}

fn link_of(alloc: Global, relations: &[Relation], part: &Part) -> Result<Option<Link>, AllocError>
    requires { length relations.now < 2 ^ 32 }
    ensures { IfOk result (λ link. link ≡ link_of relations.now part.now) }
{
    match part {
        Part::Rule { body, head, .. } => Ok(Some(Link {
            body: numbers_of(alloc, relations, body.as_slice())?,
            head: numbers_of(alloc, relations, head.as_slice())?,
        })),
        Part::ForeignKey {
            relation,
            target,
            ..
        } => Ok(Some(Link {
            body: one_number(alloc, relations, relation)?,
            head: one_number(alloc, relations, target)?,
        })),
        _ => Ok(None),
    }
}

/// Adds the link of a rule or a foreign key, and says whether the links lead round now.
fn add_link(
    alloc: Global,
    relations: &[Relation],
    links: &mut Vec<Link>,
    part: &Part,
) -> Result<bool, AllocError>
    requires few { length relations.now < 2 ^ 32 }
    requires known { uses_unknown relations.now part.now ≡ false }
    requires below { AreBelow (length relations.now) links.old.items }
    requires straight { LeadRound links.old.items → ⊥ }
    ensures links { IfOk result (λ _. links.new.items ≡ links.old.items ++ option_to_list (link_of relations.now part.now)) }
    ensures below { IfOk result (λ _. AreBelow (length relations.now) links.new.items) }
    ensures round { IfOk result (λ round. IsTrue round ↔ LeadRound links.new.items) }
{
    let Some(link) = link_of(alloc, relations, part)? else {
        return Ok(false);
    };
    let round = leads_round(alloc, relations.len(), links.as_slice(), &link)?;
    links.push(link)?;
    Ok(round)
}

/// The least fault of the part after the earlier ones, for which the constants and the links stand.
fn check_part(
    alloc: Global,
    relations: &[Relation],
    earlier: &[Part],
    part: &Part,
    known: &mut Vec<Text>,
    links: &mut Vec<Link>,
) -> Result<Option<SchemaFault>, AllocError>
    requires few { length relations.now < 2 ^ 32 }
    requires stands { StandsFor relations.now earlier.now known.old.items links.old.items }
    ensures fault { IfOk result (λ found. IfSome found (IsLeastFault relations.now earlier.now part.now)) }
    ensures none { IfOk result (λ found. IfNone found (IsFaultless relations.now earlier.now part.now)) }
    ensures stands { IfOk result (λ found. IfNone found (StandsFor relations.now (earlier.now ++ part.now ∷ []) known.new.items links.new.items)) }
{
    let fits = add_constants(alloc, known, part)?;
    if let Some(fault) = plain_fault(alloc, relations, earlier, part, !fits)? {
        return Ok(Some(fault));
    }
    if add_link(alloc, relations, links, part)? {
        return Ok(Some(SchemaFault::Recursive));
    }
    if has_wrong_sort(alloc, relations, part)? {
        return Ok(Some(SchemaFault::WrongSort));
    }
    Ok(None)
}

/// The first faulty part with its least fault, where the relations are those of all parts.
pub fn first_fault(alloc: Global, relations: &[Relation], parts: &[Part]) -> Result<(), BuildFault>
    requires relations { relations.now ≡ relations_of parts.now }
    requires few { length parts.now < 2 ^ 32 }
    ensures ok { OnOk result (AreFaultless parts.now) }
    ensures fault { IfErr result (IsCause parts.now) }
{
    let mut known = Vec::new(alloc);
    let mut links = Vec::new(alloc);
    for index in 0..parts.len() {
        match check_part(
            alloc,
            relations,
            &parts[..index],
            &parts[index],
            &mut known,
            &mut links,
        )? {
            Some(fault) => {
                return Err(BuildFault::At {
                    index: index as u32,
                    fault,
                });
            }
            None => {}
        }
    }
    Ok(())
}
