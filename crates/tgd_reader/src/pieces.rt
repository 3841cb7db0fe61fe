// Words, names, values and lists of them, as they are printed one behind another.
ghost use Rattle.std.specs.Prelude.{◌≡◌, ◌++◌, ◌∷◌, List, ℕ, false, true, map, codes, OnOk, [], length, ◌<◌, slice_get, Some};
ghost use Rattle.std.specs.List.{AllByRecursion};
ghost use Rattle.pq_text.specs.Utf8.{KeepsUtf8};
ghost use Rattle.pq_text.specs.Pieces.{word_piece, mark_piece, name_piece, value_piece, number_piece, list_pieces, further_pieces, behind_blank};
ghost use Rattle.tgd_reader.specs.Printed.{column_of, with_sorts, column_pieces, columns_pieces, variable_name, named_term, named_atom, name_pieces, term_pieces, atom_pieces, listing_pieces};
ghost use Rattle.tgd_reader.specs.Printing.{Writes, IsPlaced};

use access_schema::{Atom, NoMemory, Relation, Term, Text};
use meaning::types::Sort;
use pq_text::{print_name, print_number, print_value};

// A blank where one is wanted.
fn blank(out: &mut Vec<u8>, spaced: bool) -> Result<(), NoMemory>
    ensures written { OnOk result (out.new.items ≡ out.old.items ++ behind_blank spaced []) }
    ensures utf8 { OnOk result (KeepsUtf8 out.old.items out.new.items) }
{
    if spaced {
        out.push(b' ')?;
    }
    Ok(())
}

pub fn word(out: &mut Vec<u8>, spaced: bool, text: &str) -> Result<(), NoMemory>
    ensures written { OnOk result (Writes out.old.items out.new.items (word_piece spaced text.now ∷ [])) }
    ensures utf8 { OnOk result (KeepsUtf8 out.old.items out.new.items) }
{
    blank(out, spaced)?;
    out.extend_from_slice(text.as_bytes())?;
    Ok(())
}

pub fn mark(out: &mut Vec<u8>, spaced: bool, text: &str) -> Result<(), NoMemory>
    ensures written { OnOk result (Writes out.old.items out.new.items (mark_piece spaced text.now ∷ [])) }
    ensures utf8 { OnOk result (KeepsUtf8 out.old.items out.new.items) }
{
    blank(out, spaced)?;
    out.extend_from_slice(text.as_bytes())?;
    Ok(())
}

pub fn name(out: &mut Vec<u8>, spaced: bool, text: &Text) -> Result<(), NoMemory>
    ensures written { OnOk result (Writes out.old.items out.new.items (name_piece spaced text.now ∷ [])) }
    ensures utf8 { OnOk result (KeepsUtf8 out.old.items out.new.items) }
{
    blank(out, spaced)?;
    print_name(out, text)
}

pub fn value(out: &mut Vec<u8>, spaced: bool, text: &Text) -> Result<(), NoMemory>
    ensures written { OnOk result (Writes out.old.items out.new.items (value_piece spaced text.now ∷ [])) }
    ensures utf8 { OnOk result (KeepsUtf8 out.old.items out.new.items) }
{
    blank(out, spaced)?;
    print_value(out, text)
}

/// Writes a number behind a blank.
pub fn number(out: &mut Vec<u8>, number: u32) -> Result<(), NoMemory>
    ensures written { OnOk result (Writes out.old.items out.new.items (number_piece true number ∷ [])) }
    ensures utf8 { OnOk result (KeepsUtf8 out.old.items out.new.items) }
{
    out.push(b' ')?;
    print_number(out, number as u64)
}

pub fn end_line(out: &mut Vec<u8>) -> Result<(), NoMemory>
    ensures written { OnOk result (out.new.items ≡ out.old.items ++ 10 ∷ []) }
    ensures utf8 { OnOk result (KeepsUtf8 out.old.items out.new.items) }
{
    out.push(b'\n')?;
    Ok(())
}

/// Writes a name and, in brackets, names with commas between them.
pub fn listing(out: &mut Vec<u8>, relation: &Text, columns: &[Text]) -> Result<(), NoMemory>
    ensures written { OnOk result (Writes out.old.items out.new.items (listing_pieces relation.now columns.now)) }
    ensures utf8 { OnOk result (KeepsUtf8 out.old.items out.new.items) }
{
    name(out, true, relation)?;
    mark(out, false, "(")?;
    names(out, columns)?;
    mark(out, false, ")")
}

/// Writes a name and, in brackets, columns with commas between them, each with its sort if it holds integers.
pub fn typed_listing(
    out: &mut Vec<u8>,
    relation: &Text,
    columns: &[Text],
    sorts: &[Sort],
) -> Result<(), NoMemory>
    ensures written { OnOk result (Writes out.old.items out.new.items (columns_pieces relation.now (with_sorts columns.now sorts.now))) }
    ensures utf8 { OnOk result (KeepsUtf8 out.old.items out.new.items) }
{
    name(out, true, relation)?;
    mark(out, false, "(")?;
    typed_columns(out, columns, sorts)?;
    mark(out, false, ")")
}

fn typed_columns(out: &mut Vec<u8>, columns: &[Text], sorts: &[Sort]) -> Result<(), NoMemory>
    ensures written { OnOk result (Writes out.old.items out.new.items (list_pieces column_pieces false (with_sorts columns.now sorts.now))) }
    ensures utf8 { OnOk result (KeepsUtf8 out.old.items out.new.items) }
{
    match (columns, sorts) {
        ([first, further @ ..], [sort, others @ ..]) => {
            column(out, false, first, *sort)?;
            further_columns(out, further, others)
        }
        _ => Ok(()),
    }
}

fn further_columns(out: &mut Vec<u8>, columns: &[Text], sorts: &[Sort]) -> Result<(), NoMemory>
    ensures written { OnOk result (Writes out.old.items out.new.items (further_pieces column_pieces (with_sorts columns.now sorts.now))) }
    ensures utf8 { OnOk result (KeepsUtf8 out.old.items out.new.items) }
{
    let mut left = columns;
    let mut others = sorts;
    while let ([first, after @ ..], [sort, behind @ ..]) = (left, others) {
        mark(out, false, ",")?;
        column(out, true, first, *sort)?;
        left = after;
        others = behind;
    }
    Ok(())
}

fn column(out: &mut Vec<u8>, spaced: bool, text: &Text, sort: Sort) -> Result<(), NoMemory>
    ensures written { OnOk result (Writes out.old.items out.new.items (column_pieces spaced (column_of text.now sort))) }
    ensures utf8 { OnOk result (KeepsUtf8 out.old.items out.new.items) }
{
    name(out, spaced, text)?;
    match sort {
        Sort::Int => word(out, true, "int"),
        Sort::Text => Ok(()),
    }
}

fn names(out: &mut Vec<u8>, list: &[Text]) -> Result<(), NoMemory>
    ensures written { OnOk result (Writes out.old.items out.new.items (list_pieces name_pieces false list.now)) }
    ensures utf8 { OnOk result (KeepsUtf8 out.old.items out.new.items) }
{
    match list {
        [] => Ok(()),
        [first, further @ ..] => {
            name(out, false, first)?;
            further_names(out, further)
        }
    }
}

fn further_names(out: &mut Vec<u8>, list: &[Text]) -> Result<(), NoMemory>
    ensures written { OnOk result (Writes out.old.items out.new.items (further_pieces name_pieces list.now)) }
    ensures utf8 { OnOk result (KeepsUtf8 out.old.items out.new.items) }
{
    let mut left = list;
    while let [first, after @ ..] = left {
        mark(out, false, ",")?;
        name(out, true, first)?;
        left = after;
    }
    Ok(())
}

// The variable with number k as xk.
fn variable(out: &mut Vec<u8>, spaced: bool, number: u32) -> Result<(), NoMemory>
    ensures written { OnOk result (Writes out.old.items out.new.items (name_piece spaced (variable_name number) ∷ [])) }
    ensures utf8 { OnOk result (KeepsUtf8 out.old.items out.new.items) }
{
    blank(out, spaced)?;
    out.push(b'x')?;
    print_number(out, number as u64)
}

fn term(out: &mut Vec<u8>, spaced: bool, term: &Term) -> Result<(), NoMemory>
    ensures written { OnOk result (Writes out.old.items out.new.items (term_pieces spaced (named_term term.now))) }
    ensures utf8 { OnOk result (KeepsUtf8 out.old.items out.new.items) }
{
    match term {
        Term::Var(number) => variable(out, spaced, *number),
        Term::Const(text) => value(out, spaced, text),
    }
}

fn terms(out: &mut Vec<u8>, list: &[Term]) -> Result<(), NoMemory>
    ensures written { OnOk result (Writes out.old.items out.new.items (list_pieces term_pieces false (map named_term list.now))) }
    ensures utf8 { OnOk result (KeepsUtf8 out.old.items out.new.items) }
{
    match list {
        [] => Ok(()),
        [first, further @ ..] => {
            term(out, false, first)?;
            further_terms(out, further)
        }
    }
}

fn further_terms(out: &mut Vec<u8>, list: &[Term]) -> Result<(), NoMemory>
    ensures written { OnOk result (Writes out.old.items out.new.items (further_pieces term_pieces (map named_term list.now))) }
    ensures utf8 { OnOk result (KeepsUtf8 out.old.items out.new.items) }
{
    let mut left = list;
    while let [first, after @ ..] = left {
        mark(out, false, ",")?;
        term(out, true, first)?;
        left = after;
    }
    Ok(())
}

fn atom(
    out: &mut Vec<u8>,
    spaced: bool,
    relations: &[Relation],
    atom: &Atom,
) -> Result<(), NoMemory>
    requires { IsPlaced relations.now atom.now }
    ensures written { OnOk result (Writes out.old.items out.new.items (atom_pieces spaced (named_atom relations.now atom.now))) }
    ensures utf8 { OnOk result (KeepsUtf8 out.old.items out.new.items) }
{
    name(out, spaced, &relation_at(relations, atom.rel).name)?;
    mark(out, false, "(")?;
    terms(out, atom.terms.as_slice())?;
    mark(out, false, ")")
}

/// Writes atoms with commas between them, the first behind a blank.
pub fn atoms(out: &mut Vec<u8>, relations: &[Relation], list: &[Atom]) -> Result<(), NoMemory>
    requires { AllByRecursion (IsPlaced relations.now) list.now }
    ensures written { OnOk result (Writes out.old.items out.new.items (list_pieces atom_pieces true (map (named_atom relations.now) list.now))) }
    ensures utf8 { OnOk result (KeepsUtf8 out.old.items out.new.items) }
{
    match list {
        [] => Ok(()),
        [first, further @ ..] => {
            atom(out, true, relations, first)?;
            further_atoms(out, relations, further)
        }
    }
}

fn further_atoms(out: &mut Vec<u8>, relations: &[Relation], list: &[Atom]) -> Result<(), NoMemory>
    requires { AllByRecursion (IsPlaced relations.now) list.now }
    ensures written { OnOk result (Writes out.old.items out.new.items (further_pieces atom_pieces (map (named_atom relations.now) list.now))) }
    ensures utf8 { OnOk result (KeepsUtf8 out.old.items out.new.items) }
{
    let mut left = list;
    while let [first, after @ ..] = left {
        mark(out, false, ",")?;
        atom(out, true, relations, first)?;
        left = after;
    }
    Ok(())
}

pub fn relation_at(relations: &[Relation], number: u32) -> &Relation
    requires { number < length relations.now }
    ensures { slice_get relations.now number ≡ Some result.now }
{
    &relations[number as usize]
}
