// Whether the constants of a query that stand at integer columns are integers.
ghost use Rattle.std.specs.Prelude.{◌≡◌, ◌↔◌, IsTrue, Some, slice_get};
ghost use Rattle.meaning.specs.declared.types.Sort.TheVariants.{Int};
ghost use Rattle.meaning.specs.declared.types.Term.TheVariants.{Const as Said};
ghost use Rattle.meaning.specs.Values.{Value};
ghost use Rattle.meaning.specs.Integers.{IsInteger};
ghost use Rattle.meaning.specs.Sorts.{HoldsIntegers, AreSorted, AtomsAreSorted};
ghost use Rattle.access_schema.specs.Meaning.{meaning_of};

use access_schema::Schema;
use meaning::is_integer;
use meaning::types::{Atom, Relation, Sort, Term};

/// Whether each constant of the atoms that stands at an integer column is an integer. Takes no memory.
pub fn are_sorted(schema: &Schema, atoms: &[Atom]) -> bool
    ensures { IsTrue result ↔ AtomsAreSorted (meaning_of schema.now) atoms.now }
{
    for atom in atoms {
        if !is_sorted(schema, atom) {
            return false;
        }
    }
    true
}

// The same of one atom.
fn is_sorted(schema: &Schema, atom: &Atom) -> bool
    ensures { IsTrue result ↔ AreSorted Said (meaning_of schema.now) atom.now.rel atom.now.terms }
{
    let terms = atom.terms.as_slice();
    for place in 0..terms.len() {
        if !may_stand(schema, atom.rel, place, &terms[place]) {
            return false;
        }
    }
    true
}

// Whether the term may stand at the place of the relation: at an integer column no constant but an integer may.
fn may_stand(schema: &Schema, rel: u32, place: usize, term: &Term) -> bool
    ensures { IsTrue result ↔ ((c : Value) → HoldsIntegers (meaning_of schema.now) rel place → term.now ≡ Said c
        → IsInteger c) }
{
    match term {
        Term::Const(text) => !holds_integers(schema, rel, place) || is_integer(text.as_bytes()),
        Term::Var(_) => true,
    }
}

fn holds_integers(schema: &Schema, rel: u32, place: usize) -> bool
    ensures { IsTrue result ↔ HoldsIntegers (meaning_of schema.now) rel place }
{
    match schema.relations.get(rel as usize) {
        Some(relation) => is_int_at(relation, place),
        None => false,
    }
}

fn is_int_at(relation: &Relation, place: usize) -> bool
    ensures { IsTrue result ↔ (slice_get relation.now.sorts place ≡ Some Int) }
{
    match relation.sorts.get(place) {
        Some(sort) => matches!(sort, Sort::Int),
        None => false,
    }
}
