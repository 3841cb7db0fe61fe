// The attached relations of the generator.
ghost use Rattle.std.specs.Prelude.{◌≡◌, ◌≢◌, ◌++◌, ◌∷◌, ℕ, [], true, None, Some, IfOk, IfSome, OnOk, OnErr, MatchOption, length, map, not, nat_eq};
ghost use Rattle.std.specs.List.{AllByRecursion, filter};
ghost use Rattle.source_trait.specs.Asking.{CanAsk, agrees, facts_of, pick, without};
ghost use Rattle.source_trait.specs.Holding.{attached_in, attachment_in, facts_held, others_than};
ghost use Rattle.world_source.specs.Formulas.{rows_of};
ghost use Rattle.world_source.specs.Generated.{attachment_of, attachments_of};

use crate::formula::Formula;
use lists::{Copies, NoMemory, Text, Texts};
use row_text::PackedRows;
use std::alloc::Global;
use std::marker::Model;

/// An attached relation with the formula of its rows.
#[derive(Drop)]
pub struct Generated {
    pub rel: u32,
    pub columns: Texts,
    pub locator: Text,
    pub formula: Formula,
}

/// The attached relations, each once, which contracts see with their rows.
#[derive(Drop)]
pub struct Relations {
    list: Vec<Generated>,
}

impl Model for Relations {
    ghost use Rattle.std.specs.Prelude.{List};
    ghost use Rattle.source_trait.specs.declared.holding.Attachment.{Attachment};
    ghost use Rattle.source_trait.specs.Holding.{IsStore};
    ghost use Rattle.world_source.specs.Generated.{attachments_of};

    ghost Value = { List Attachment };

    ghost view = { λ r. attachments_of r.list.items };

    ghost invariant = { λ r. IsStore (attachments_of r.list.items) };
}

impl Relations {
    /// No relation is attached. Takes no memory.
    pub fn new(alloc: Global) -> Relations
        ensures { result ≡ [] }
    {
        Relations {
            list: Vec::new(alloc),
        }
    }

    /// Takes the relation away.
    pub fn detach(&mut self, rel: u32)
        ensures gone { attached_in self.new rel ≡ None }
        ensures absent { attachment_in self.new rel ≡ None }
        ensures others { (r : ℕ) → r ≢ rel → attached_in self.new r ≡ attached_in self.old r }
        ensures facts { facts_held self.new ≡ without rel (facts_held self.old) }
    {
        take_away(&mut self.list, rel);
    }

    /// Attaches a relation of two columns that is not attached, with copies of the columns and the locator.
    pub fn take(
        &mut self,
        alloc: Global,
        rel: u32,
        columns: &Texts,
        locator: &Text,
        formula: Formula,
    ) -> Result<(), NoMemory>
        requires absent { attachment_in self.old rel ≡ None }
        requires two { length columns.now ≡ 2 }
        ensures attached { OnOk result (attached_in self.new rel ≡ Some (columns.now, locator.now)) }
        ensures others { (r : ℕ) → r ≢ rel → attached_in self.new r ≡ attached_in self.old r }
        ensures facts { OnOk result (facts_held self.new ≡ facts_held self.old ++ facts_of rel (rows_of formula.step formula.count)) }
        ensures err { OnErr result (self.new ≡ self.old) }
    {
        let generated = copy_generated(alloc, rel, columns, locator, formula)?;
        self.list.push(generated)?;
        Ok(())
    }

    /// The rows of an attached relation that have the values at the positions. Where there is a value, no row is looked at.
    pub fn ask(
        &self,
        alloc: Global,
        rel: u32,
        positions: &[u32],
        values: &[Text],
    ) -> Result<PackedRows, NoMemory>
        requires { CanAsk (attached_in self.now rel) positions.now values.now }
        ensures picks { IfOk result (λ rows. rows ≡ pick (facts_held self.now) rel positions.now values.now) }
        ensures fits { IfOk result (λ rows. IfSome (attached_in self.now rel) (λ a. AllByRecursion (λ row. (length row ≡ length a.0) × (agrees positions.now values.now row ≡ true)) rows)) }
    {
        match formula_of(&self.list, rel) {
            Some(formula) => formula.rows_with(alloc, positions, values),
            None => Ok(PackedRows::new(alloc)),
        }
    }
}

fn copy_generated(
    alloc: Global,
    rel: u32,
    columns: &Texts,
    locator: &Text,
    formula: Formula,
) -> Result<Generated, NoMemory>
    ensures { IfOk result (λ g. attachment_of g ≡ record { rel = rel; columns = columns.now; locator = locator.now; rows = rows_of formula.step formula.count; size = 0 }) }
{
    let columns = columns.copy(alloc)?;
    let locator = locator.copy(alloc)?;
    Ok(Generated {
        rel,
        columns,
        locator,
        formula,
    })
}

fn take_away(list: &mut Vec<Generated>, rel: u32)
    ensures { attachments_of list.new.items ≡ others_than rel (attachments_of list.old.items) }
{
    list.retain(|generated| generated.rel != rel);
}

// The formula of an attached relation.
fn formula_of(list: &[Generated], rel: u32) -> Option<Formula>
    ensures { MatchOption result (attachment_in (attachments_of list.now) rel ≡ None)
        (λ f. (a : _) × (attachment_in (attachments_of list.now) rel ≡ Some a) × (a.rows ≡ rows_of f.step f.count)) }
{
    let mut left = list;
    while let [generated, rest @ ..] = left {
        if generated.rel == rel {
            return Some(generated.formula);
        }
        left = rest;
    }
    None
}
