// Queries from lines of words, and what their conditions ask.
ghost use Rattle.std.specs.Prelude.{◌≡◌, [], ◌∷◌, IfOk};
ghost use Rattle.meaning.specs.Triggers.{terms_bound};
ghost use Rattle.accessible_copy.specs.Goals.{IsCounted};

use homomorphism::variables_width;
use lists::{NoMemory, Seq, Text};
use meaning::types::{Atom, Queries, Query, Term, Terms, Val, Vals};
use std::alloc::Global;

/// Those who are called smith, by number and office.
pub(crate) const SMITHS: [(u32, &str); 1] = [(0, "x y smith")];

/// The pairs of the relation with the number 0.
pub(crate) const PAIRS: [(u32, &str); 1] = [(0, "x y")];

/// The pairs of the relation with the number 1.
pub(crate) const SECOND_PAIRS: [(u32, &str); 1] = [(1, "x y")];

/// A pair with a constant that is not known, and one with a constant that is.
pub(crate) const NEW_CONSTANT: [(u32, &str); 2] = [(0, "c x"), (0, "x k")];

/// A pair that begins with a constant, and another one.
pub(crate) const TWO_PAIRS: [(u32, &str); 2] = [(0, "k x"), (0, "x y")];

/// A term: `x` and `y` are the variables 0 and 1, and everything else is a constant.
fn term(alloc: Global, text: &str) -> Result<Term, NoMemory> {
    match text {
        "x" => Ok(Term::Var(0)),
        "y" => Ok(Term::Var(1)),
        _ => Ok(Term::Const(Text::from_str(alloc, text)?)),
    }
}

fn terms(alloc: Global, line: &str) -> Result<Terms, NoMemory> {
    let mut made = Seq::new(alloc);
    for word in line.split(' ') {
        made.push(term(alloc, word)?)?;
    }
    Ok(made)
}

/// The values of x and y that make these atoms facts.
pub(crate) fn query(alloc: Global, list: &[(u32, &str)]) -> Result<Query, NoMemory> {
    let mut atoms = Seq::new(alloc);
    for (rel, line) in list {
        let terms = terms(alloc, line)?;
        atoms.push(Atom { rel: *rel, terms })?;
    }
    let head = terms(alloc, "x y")?;
    Ok(Query {
        atoms,
        head,
        variables: 2,
    })
}

/// One more than the greatest variable of the terms.
fn terms_width(terms: &[Term]) -> usize
    ensures { result ≡ terms_bound terms.now }
{
    let mut width = 0;
    let mut left = terms;
    while let [term, rest @ ..] = left {
        if let Term::Var(variable) = term {
            width = width.max(*variable as usize + 1);
        }
        left = rest;
    }
    width
}

/// The query alone, if its variables are counted.
pub(crate) fn counted(alloc: Global, query: Query) -> Result<Queries, NoMemory>
    ensures only { IfOk result (λ queries. queries ≡ query ∷ []) }
    ensures counted { IfOk result (λ queries. IsCounted query) }
{
    let most = query.variables as usize;
    if variables_width(query.atoms.as_slice()) > most || terms_width(query.head.as_slice()) > most {
        return Err(NoMemory);
    }
    let mut queries = Seq::new(alloc);
    queries.push(query)?;
    Ok(queries)
}

pub(crate) fn pair(alloc: Global, labels: [u32; 2]) -> Result<Vals, NoMemory> {
    let mut made = Seq::new(alloc);
    for label in labels {
        made.push(Val::Label(label))?;
    }
    Ok(made)
}
