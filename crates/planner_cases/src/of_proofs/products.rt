// Rules whose atoms share no variable, of which the head names all: their matches are as many as the product.
use homomorphism::{Store, first_unmet, is_numbered};
use lists::{NoMemory, Seq};
use meaning::types::{Atom, Ground, Rule, Term, Val};
use std::alloc::Global;
use std::test::Fail;

/// How many relations the rule's body has.
const RELATIONS: u32 = 8;

/// Adds an atom of each relation, with a variable of its own.
fn add_atoms(alloc: Global, body: &mut Seq<Atom>) -> Result<(), NoMemory> {
    for number in 0..RELATIONS {
        let mut terms = Seq::new(alloc);
        terms.push(Term::Var(number))?;
        body.push(Atom { rel: number, terms })?;
    }
    Ok(())
}

/// The rule that wants a fact of all variables of its body: each part has so many atoms of one relation and one variable, and the
/// parts take turns.
fn product_rule(alloc: Global, times: u32) -> Result<Rule, NoMemory> {
    let mut body = Seq::new(alloc);
    for _ in 0..times {
        add_atoms(alloc, &mut body)?;
    }
    let mut all = Seq::new(alloc);
    for number in 0..RELATIONS {
        all.push(Term::Var(number))?;
    }
    let mut head = Seq::new(alloc);
    head.push(Atom {
        rel: RELATIONS,
        terms: all,
    })?;
    Ok(Rule {
        line: 0,
        body,
        head,
    })
}

/// Adds ten facts of the relation.
fn add_ten(alloc: Global, store: &mut Store, rel: u32) -> Result<(), NoMemory> {
    for label in 0..10 {
        let mut vals = Seq::new(alloc);
        vals.push(Val::Label(label))?;
        store.insert(alloc, Ground { rel, vals })?;
    }
    Ok(())
}

/// Whether the rule is not met by ten facts of each of so many relations.
fn is_unmet(alloc: Global, times: u32, relations: u32) -> Result<bool, NoMemory> {
    let rule = product_rule(alloc, times)?;
    let mut store = Store::new(alloc);
    for rel in 0..relations {
        add_ten(alloc, &mut store, rel)?;
    }
    if !is_numbered(&rule) {
        return Err(NoMemory);
    }
    Ok(first_unmet(alloc, &rule, &store)?.is_some())
}

// of 100,000,000 matches the first is found, and where one atom has no fact there is none
#[test]
fn the_first_match_of_a_product_is_found_at_once(rt: HostRuntime) -> Result<(), Fail> {
    assert!(rt; is_unmet(rt.alloc(), 1, RELATIONS)?);
    assert!(rt; !is_unmet(rt.alloc(), 1, RELATIONS - 1)?);
    Ok(())
}

// the same where the atoms of a part do not stand together
#[test]
fn parts_need_not_stand_together(rt: HostRuntime) -> Result<(), Fail> {
    assert!(rt; is_unmet(rt.alloc(), 2, RELATIONS)?);
    assert!(rt; !is_unmet(rt.alloc(), 2, RELATIONS - 1)?);
    Ok(())
}
