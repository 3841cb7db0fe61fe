// The labels that facts ask for.

use crate::marks::{is_marked, set};
use access_schema::Schema;
use homomorphism::Store;
use lists::NoMemory;
use meaning::types::{Ground, Method, Val};
use std::alloc::Global;

/// The facts whose inputs are asked for, and the labels that are.
#[derive(Drop)]
struct Asking {
    followed: Vec<bool>,
    labels: Vec<bool>,
}

/// A mark for each label that stands at an input of a method in a fact that is wanted. Wanted are the first `opening` facts, those of
/// marked relations, and each fact that holds a label that is asked for.
pub fn asked_labels(
    alloc: Global,
    schema: &Schema,
    facts: &Store,
    opening: usize,
    relations: &[bool],
) -> Result<Vec<bool>, NoMemory> {
    let mut asking = Asking {
        followed: Vec::new(alloc),
        labels: Vec::new(alloc),
    };
    // each round but the last follows a fact
    for _ in 0..=facts.len() {
        if !asking.follow(schema, facts, opening, relations)? {
            break;
        }
    }
    let Asking { labels, .. } = asking;
    Ok(labels)
}

impl Asking {
    /// Follows each wanted fact that was not followed yet. Whether there was one.
    fn follow(
        &mut self,
        schema: &Schema,
        facts: &Store,
        opening: usize,
        relations: &[bool],
    ) -> Result<bool, NoMemory> {
        let mut more = false;
        for number in 0..facts.len() {
            if let Some(fact) = facts.get(number) {
                let wanted = number < opening
                    || is_marked(relations, fact.rel as usize)
                    || self.asks_for(fact);
                if wanted && !is_marked(self.followed.as_slice(), number) {
                    set(&mut self.followed, number)?;
                    self.ask(schema, fact)?;
                    more = true;
                }
            }
        }
        Ok(more)
    }

    /// Whether the fact holds a label that is asked for. Takes no memory.
    fn asks_for(&self, fact: &Ground) -> bool {
        let labels = self.labels.as_slice();
        fact.vals.as_slice().iter().any(|val| is_asked(labels, val))
    }

    /// Asks for the labels at the inputs of the methods of the fact's relation.
    fn ask(&mut self, schema: &Schema, fact: &Ground) -> Result<(), NoMemory> {
        for method in schema.methods.as_slice() {
            if method.rel == fact.rel {
                self.ask_inputs(method, fact.vals.as_slice())?;
            }
        }
        Ok(())
    }

    /// Asks for the labels at the inputs of the method.
    fn ask_inputs(&mut self, method: &Method, vals: &[Val]) -> Result<(), NoMemory> {
        for place in method.inputs.as_slice() {
            if let Some(Val::Label(label)) = vals.get(*place as usize) {
                set(&mut self.labels, *label as usize)?;
            }
        }
        Ok(())
    }
}

/// Whether the value is a label with a mark. Takes no memory.
pub fn is_asked(labels: &[bool], val: &Val) -> bool {
    match val {
        Val::Label(label) => is_marked(labels, *label as usize),
        Val::Const(_) => false,
    }
}
