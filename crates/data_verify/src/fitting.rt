// Facts that fit an atom, and the values that they give its variables.
ghost use Rattle.std.specs.Prelude.{◌≡◌, ◌↔◌, IsTrue};
ghost use Rattle.meaning.specs.declared.types.Term.TheVariants.{Var};
ghost use Rattle.data_verify.specs.Inclusion.{Fits, FitsAtom, StandsAt, FitsBefore};
ghost use Rattle.data_verify.specs.Keys.{reading};

use lists::{Exact, Text};
use meaning::types::{Atom, Fact, Term};

/// Whether the fact has the atom's relation and a row that fits its terms. Takes no memory.
pub fn fits_atom(atom: &Atom, fact: &Fact) -> bool
    ensures { IsTrue result ↔ FitsAtom atom.now fact.now }
{
    fact.rel == atom.rel && fits(atom.terms.as_slice(), fact.row.as_slice())
}

/// Whether values for the variables make the terms this row.
fn fits(terms: &[Term], row: &[Text]) -> bool
    ensures { IsTrue result ↔ Fits terms.now row.now }
{
    let mut left = terms;
    let mut values = row;
    while let [term, later @ ..] = left {
        let [value, others @ ..] = values else {
            return false;
        };
        if !fits_before(term, value, later, others) {
            return false;
        }
        left = later;
        values = others;
    }
    values.is_empty()
}

/// Whether the value is the term's constant, or stands at each place of its variable in the row of the later terms.
fn fits_before(term: &Term, value: &Text, later: &[Term], row: &[Text]) -> bool
    ensures { IsTrue result ↔ FitsBefore term.now value.now later.now row.now }
{
    match term {
        Term::Const(text) => text.same(value),
        Term::Var(variable) => stands_at(*variable, value, later, row),
    }
}

/// Whether the row has the value at each place of the variable.
fn stands_at(variable: u32, value: &Text, terms: &[Term], row: &[Text]) -> bool
    ensures { IsTrue result ↔ StandsAt variable value.now terms.now row.now }
{
    let mut left = terms;
    let mut values = row;
    while let [term, later @ ..] = left {
        let [other, others @ ..] = values else {
            return true;
        };
        if is_variable(term, variable) && !other.same(value) {
            return false;
        }
        left = later;
        values = others;
    }
    true
}

/// Whether the term is this variable.
pub fn is_variable(term: &Term, variable: u32) -> bool
    ensures { IsTrue result ↔ (term.now ≡ Var variable) }
{
    match term {
        Term::Var(number) => *number == variable,
        Term::Const(_) => false,
    }
}

/// The value that the row gives the variable, lent. Takes no memory.
pub fn reading<'a>(terms: &[Term], row: &'a [Text], variable: u32) -> &'a str
    ensures { result.now ≡ reading terms.now row.now variable }
{
    let mut left = terms;
    let mut values = row;
    while let [term, later @ ..] = left {
        let [value, others @ ..] = values else {
            break;
        };
        if is_variable(term, variable) {
            return value.as_str();
        }
        left = later;
        values = others;
    }
    ""
}
