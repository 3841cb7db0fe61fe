// What remains of a rule behind its first atom, where the first variables have values.
ghost use Rattle.std.specs.Prelude.{◌≡◌, drop, length, map, IfOk};
ghost use Rattle.meaning.specs.Homomorphisms.{image};
ghost use Rattle.homomorphism.specs.Texts.{blank, text_at};
ghost use Rattle.data_verify.specs.Remaining.{remaining_term, remaining_atoms, remaining_rule};

use lists::{Copies, NoMemory, Seq, Text};
use meaning::types::{Atom, Atoms, Rule, Term, Terms, Val};
use std::alloc::Global;

/// The rule without its first atom, with these values for its first variables.
pub fn remaining_rule(alloc: Global, rule: &Rule, values: &[Val]) -> Result<Rule, NoMemory>
    ensures { IfOk result (λ rest. rest ≡ remaining_rule (length values.now) (text_at values.now) rule.now) }
{
    Ok(Rule {
        line: rule.line,
        body: remaining_atoms(alloc, behind_first(rule), values)?,
        head: remaining_atoms(alloc, rule.head.as_slice(), values)?,
    })
}

/// The atoms of the body behind the first, lent. Takes no memory.
pub fn behind_first(rule: &Rule) -> &[Atom]
    ensures { result.now ≡ drop 1 rule.now.body }
{
    match rule.body.as_slice() {
        [_, later @ ..] => later,
        none => none,
    }
}

/// The atoms with these values for the first variables.
fn remaining_atoms(alloc: Global, atoms: &[Atom], values: &[Val]) -> Result<Atoms, NoMemory>
    ensures { IfOk result (λ rest. rest ≡ remaining_atoms (length values.now) (text_at values.now) atoms.now) }
{
    let mut rest = Vec::with_capacity(alloc, atoms.len())?;
    for atom in atoms {
        rest.push(Atom {
            rel: atom.rel,
            terms: remaining_terms(alloc, atom.terms.as_slice(), values)?,
        })?;
    }
    Ok(Seq::from_vec(rest))
}

/// The terms with these values for the first variables.
fn remaining_terms(alloc: Global, terms: &[Term], values: &[Val]) -> Result<Terms, NoMemory>
    ensures { IfOk result (λ rest. rest ≡ map (remaining_term (length values.now) (text_at values.now)) terms.now) }
{
    let mut rest = Vec::with_capacity(alloc, terms.len())?;
    for term in terms {
        rest.push(remaining_term(alloc, term, values)?)?;
    }
    Ok(Seq::from_vec(rest))
}

/// The text of one of the first variables; a later variable gets a number less by their count.
fn remaining_term(alloc: Global, term: &Term, values: &[Val]) -> Result<Term, NoMemory>
    ensures { IfOk result (λ rest. rest ≡ remaining_term (length values.now) (text_at values.now) term.now) }
{
    match term {
        Term::Const(text) => Ok(Term::Const(text.copy(alloc)?)),
        Term::Var(variable) => {
            let number = *variable as usize;
            if number < values.len() {
                return Ok(Term::Const(text_of(alloc, &values[number])?));
            }
            Ok(Term::Var((number - values.len()) as u32))
        }
    }
}

/// The text of the value, and the empty text of a label.
fn text_of(alloc: Global, value: &Val) -> Result<Text, NoMemory>
    ensures { IfOk result (λ text. text ≡ image blank value.now) }
{
    match value {
        Val::Const(text) => text.copy(alloc),
        Val::Label(_) => Text::from_str(alloc, ""),
    }
}
