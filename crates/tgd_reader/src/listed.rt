// Columns, terms and atoms with a comma between two.
ghost use Rattle.std.specs.Prelude.{◌≡◌, [], length};
ghost use Rattle.pq_text.specs.Lexemes.{Gives, name_at, members};
ghost use Rattle.tgd_reader.specs.Reading.{listing_at, inputs_at, term_at, terms_at, atom_at, atoms_at};

use access_schema::{NamedAtom, NamedAtoms, NamedTerm, NamedTerms};
use lists::{Seq, Text, Texts};
use pq_text::{Cursor, Form, Misfit};
use std::alloc::Global;

/// A relation and some of its columns, by their names.
#[derive(Drop)]
pub struct Listing {
    pub relation: Text,
    pub columns: Texts,
}

// NAME ( NAME , .. )
#[tactic(auto, unfolding(crate::specs::Reading::listing_at))]
pub fn relation_columns(alloc: Global, cursor: &mut Cursor<'_>) -> Result<Listing, Misfit>
    ensures { Gives cursor.new result (listing_at cursor.old) }
{
    let relation = cursor.name(alloc)?;
    cursor.symbol(b"(")?;
    let columns = cursor.names(alloc)?;
    cursor.symbol(b")")?;
    Ok(Listing { relation, columns })
}

// The names or none, and the closing bracket.
pub fn inputs(alloc: Global, cursor: &mut Cursor<'_>) -> Result<Texts, Misfit>
    ensures { Gives cursor.new result (inputs_at cursor.old) }
{
    if cursor.accept(b")") {
        return Ok(Seq::new(alloc));
    }
    let inputs = cursor.names(alloc)?;
    cursor.symbol(b")")?;
    Ok(inputs)
}

fn term(alloc: Global, cursor: &mut Cursor<'_>) -> Result<NamedTerm, Misfit>
    ensures { Gives cursor.new result (term_at cursor.old) }
{
    if cursor.is_name() {
        Ok(NamedTerm::Var(cursor.name(alloc)?))
    } else {
        Ok(NamedTerm::Const(cursor.value(alloc)?))
    }
}

// The form of a term.
struct TermForm;

impl Form for TermForm {
    type Member = NamedTerm;

    ghost at = { λ form. term_at };

    fn take(&self, alloc: Global, cursor: &mut Cursor<'_>) -> Result<NamedTerm, Misfit> {
        term(alloc, cursor)
    }
}

fn terms(alloc: Global, cursor: &mut Cursor<'_>) -> Result<NamedTerms, Misfit>
    ensures { Gives cursor.new result (terms_at cursor.old) }
{
    cursor.members(alloc, &TermForm)
}

#[tactic(auto, unfolding(crate::specs::Reading::atom_at))]
fn atom(alloc: Global, cursor: &mut Cursor<'_>) -> Result<NamedAtom, Misfit>
    ensures { Gives cursor.new result (atom_at cursor.old) }
{
    let relation = cursor.name(alloc)?;
    cursor.symbol(b"(")?;
    let terms = terms(alloc, cursor)?;
    cursor.symbol(b")")?;
    Ok(NamedAtom { relation, terms })
}

// The form of an atom.
struct AtomForm;

impl Form for AtomForm {
    type Member = NamedAtom;

    ghost at = { λ form. atom_at };

    fn take(&self, alloc: Global, cursor: &mut Cursor<'_>) -> Result<NamedAtom, Misfit> {
        atom(alloc, cursor)
    }
}

// ATOM , ..
pub fn atoms(alloc: Global, cursor: &mut Cursor<'_>) -> Result<NamedAtoms, Misfit>
    ensures { Gives cursor.new result (atoms_at cursor.old) }
{
    cursor.members(alloc, &AtomForm)
}
