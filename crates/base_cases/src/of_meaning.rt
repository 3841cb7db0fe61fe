// Each copy answers with ample memory, and is the same value as far as that can be asked.
use lists::{Copies, Exact, NoMemory, Seq, Text};
use meaning::types::{
    Atom, Branch, Fact, Firing, Ground, Operand, Out, Place, Request, Step, Term, Trigger, Val,
};
use meaning::{columns_made, is_integer, is_of_relation};
use std::alloc::Global;
use std::test::Fail;

fn two<T: Drop>(alloc: Global, first: T, second: T) -> Result<Seq<T>, NoMemory> {
    let mut list = Seq::new(alloc);
    list.push(first)?;
    list.push(second)?;
    Ok(list)
}

fn text(alloc: Global) -> Result<Text, NoMemory> {
    Text::from_str(alloc, "smith")
}

/// Whether a copy is the same value.
fn is_copied<T: Copies + Exact + Drop>(alloc: Global, value: &T) -> Result<bool, NoMemory> {
    Ok(value.copy(alloc)?.same(value))
}

fn ground(alloc: Global) -> Result<Ground, NoMemory> {
    let vals = two(alloc, Val::Label(0), Val::Const(text(alloc)?))?;
    Ok(Ground { rel: 0, vals })
}

fn request(alloc: Global) -> Result<Request, NoMemory> {
    let positions = two(alloc, 0, 1)?;
    let values = two(alloc, text(alloc)?, text(alloc)?)?;
    Ok(Request {
        rel: 1,
        positions,
        values,
    })
}

fn fact(alloc: Global) -> Result<Fact, NoMemory> {
    let row = two(alloc, text(alloc)?, text(alloc)?)?;
    Ok(Fact { rel: 1, row })
}

#[test]
fn facts_and_requests_are_copied(rt: HostRuntime) -> Result<(), Fail> {
    let alloc = rt.alloc();
    assert!(rt; is_copied(alloc, &ground(alloc)?)?);
    assert!(rt; is_copied(alloc, &request(alloc)?)?);
    assert!(rt; is_copied(alloc, &fact(alloc)?)?);
    Ok(())
}

/// Whether a fact of the relation 1 is one of this relation.
fn is_of(alloc: Global, rel: u32) -> Result<bool, NoMemory> {
    Ok(is_of_relation(&fact(alloc)?, rel))
}

#[test]
fn a_fact_is_of_its_relation(rt: HostRuntime) -> Result<(), Fail> {
    assert!(rt; is_of(rt.alloc(), 1)?);
    assert!(rt; !is_of(rt.alloc(), 0)?);
    Ok(())
}

#[test]
fn an_integer_has_one_spelling(rt: HostRuntime) -> Result<(), Fail> {
    for (text, is) in [
        ("0", true),
        ("-5", true),
        ("10", true),
        ("9223372036854775807", true),
        ("-9223372036854775808", true),
        ("-0", false),
        ("+1", false),
        ("01", false),
        ("-01", false),
        (" 1", false),
        ("1 ", false),
        ("", false),
        ("-", false),
        ("--1", false),
        ("1-", false),
        ("9223372036854775808", false),
        ("-9223372036854775809", false),
        ("18446744073709551616", false),
        ("-18446744073709551616", false),
        ("99999999999999999999", false),
        ("1_0", false),
        ("1.0", false),
        ("x", false),
        ("١", false),
        ("1١", false),
    ] {
        assert_eq!(rt; is_integer(text.as_bytes()), is, "{text}");
    }
    Ok(())
}

fn trigger(alloc: Global) -> Result<Trigger, NoMemory> {
    let values = two(alloc, Val::Label(0), Val::Label(1))?;
    Ok(Trigger {
        rule: 3,
        values,
        fresh: 2,
    })
}

/// The kind of a firing, the number of its rule or method, and how many values it has.
fn counted(firing: &Firing) -> (u8, u32, usize) {
    match firing {
        Firing::Base(trigger) => (0, trigger.rule, trigger.values.len()),
        Firing::Copy(trigger) => (1, trigger.rule, trigger.values.len()),
        Firing::Expose { method, fact } => (2, *method, fact.vals.len()),
    }
}

fn copy_counted(alloc: Global, firing: Firing) -> Result<(u8, u32, usize), NoMemory> {
    Ok(counted(&firing.copy(alloc)?))
}

#[test]
fn firings_are_copied(rt: HostRuntime) -> Result<(), Fail> {
    let alloc = rt.alloc();
    assert_eq!(rt;
        copy_counted(alloc, Firing::Base(trigger(alloc)?))?,
        (0, 3, 2)
    );
    assert_eq!(rt;
        copy_counted(alloc, Firing::Copy(trigger(alloc)?))?,
        (1, 3, 2)
    );
    let fact = ground(alloc)?;
    assert_eq!(rt;
        copy_counted(alloc, Firing::Expose { method: 1, fact })?,
        (2, 1, 2)
    );
    Ok(())
}

fn step(alloc: Global) -> Result<Step, NoMemory> {
    let places = two(alloc, Place::New, Place::Const(text(alloc)?))?;
    Ok(Step {
        method: text(alloc)?,
        places,
    })
}

fn branch(alloc: Global) -> Result<Branch, NoMemory> {
    let steps = two(alloc, step(alloc)?, step(alloc)?)?;
    let output = two(alloc, Out::Col(0), Out::Const(text(alloc)?))?;
    Ok(Branch { steps, output })
}

/// How many steps and outputs a copied branch has.
fn branch_counted(alloc: Global) -> Result<(usize, usize), NoMemory> {
    let copy = branch(alloc)?.copy(alloc)?;
    Ok((copy.steps.len(), copy.output.len()))
}

fn terms_copied(alloc: Global) -> Result<bool, NoMemory> {
    let terms = two(alloc, Term::Var(0), Term::Const(text(alloc)?))?;
    let atom = Atom { rel: 1, terms };
    Ok(atom.copy(alloc)?.terms.same(&atom.terms))
}

fn operand_copied(alloc: Global) -> Result<bool, NoMemory> {
    let operand = Operand::Column { from: 0, column: 2 };
    Ok(matches!(operand.copy(alloc)?, Operand::Column { from: 0, column: 2 }))
}

#[test]
fn branches_atoms_and_operands_are_copied(rt: HostRuntime) -> Result<(), Fail> {
    assert_eq!(rt; branch_counted(rt.alloc())?, (2, 2));
    assert!(rt; terms_copied(rt.alloc())?);
    assert!(rt; operand_copied(rt.alloc())?);
    Ok(())
}

#[test]
fn each_new_place_makes_a_column(rt: HostRuntime) {
    assert_eq!(rt; columns_made(3, &[Place::New, Place::Col(1)]), 4);
    assert_eq!(rt;
        columns_made(0, &[Place::New, Place::Col(0), Place::New]),
        2
    );
}
