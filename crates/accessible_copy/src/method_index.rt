// The methods of each relation.
ghost use Rattle.std.specs.Prelude.{◌≡◌, ◌≢◌, ◌<◌, ℕ, ◌∷◌, [], ◌++◌, IfOk, OnOk, length};
ghost use Rattle.accessible_copy.specs.Methods.{methods_of, IsMethodIndex};

use access_schema::Schema;
use lists::{NoMemory, Places, Seq};
use std::alloc::Global;
use std::marker::Model;

/// For each relation the numbers of its methods, ascending. Contracts see the list of these lists.
#[derive(Drop)]
pub struct MethodIndex {
    numbers: Vec<Places>,
}

impl Model for MethodIndex {
    ghost use Rattle.std.specs.Prelude.{List, ℕ};

    ghost Value = { List (List ℕ) };

    ghost view = { λ i. i.numbers.items };
}

impl MethodIndex {
    /// The index of a schema's methods.
    pub fn of(alloc: Global, schema: &Schema) -> Result<MethodIndex, NoMemory>
        ensures { IfOk result (λ index. IsMethodIndex schema.now.methods index) }
    {
        let mut numbers = Vec::new(alloc);
        for (number, method) in schema.methods.as_slice().iter().enumerate() {
            note(alloc, &mut numbers, method.rel, number as u32)?;
        }
        Ok(MethodIndex { numbers })
    }

    /// The numbers of the relation's methods, ascending. Takes no memory.
    pub fn numbers(&self, rel: u32) -> &[u32]
        ensures { result.now ≡ methods_of self.now rel }
    {
        match self.numbers.get(rel as usize) {
            Some(numbers) => numbers.as_slice(),
            None => &[],
        }
    }
}

/// Puts the number at the end of the relation's list.
fn note(alloc: Global, lists: &mut Vec<Places>, rel: u32, number: u32) -> Result<(), NoMemory>
    ensures here { OnOk result (methods_of lists.new.items rel ≡ methods_of lists.old.items rel ++ number ∷ []) }
    ensures others { OnOk result ((other : ℕ) → other ≢ rel → methods_of lists.new.items other ≡ methods_of lists.old.items other) }
{
    lengthen(alloc, lists, rel as usize)?;
    let list = &mut lists[rel as usize];
    list.push(number)?;
    Ok(())
}

/// Makes the list longer by empty lists until it has the index.
fn lengthen(alloc: Global, lists: &mut Vec<Places>, index: usize) -> Result<(), NoMemory>
    ensures stays { (rel : ℕ) → methods_of lists.new.items rel ≡ methods_of lists.old.items rel }
    ensures long { OnOk result (index < length lists.new.items) }
{
    while lists.len() <= index {
        lists.push(Seq::new(alloc))?;
    }
    Ok(())
}
