// Texts for labels.
ghost use Rattle.std.specs.Prelude.{◌≡◌, ◌++◌, IfOk, IfSome, IfNone, ℕ, List, Contains, map, length};
ghost use Rattle.meaning.specs.Homomorphisms.{image, fact_of, renamed};
ghost use Rattle.std.specs.List.Sorted.{IsStrictlyIncreasing};
ghost use Rattle.access_schema.specs.Meaning.{meaning_of};
ghost use Rattle.no_plan_witness.specs.Texts.{text_in, text_under, AreFirstFree, AreNamesFor};

use crate::free_texts::free_texts;
use crate::labels::{integers_of, labels_of, others_of};
use access_schema::Schema;
use lists::{Copies, NoMemory, Row, Seq, Text, Texts};
use meaning::types::{Fact, Ground, Instance, Sort, Val};
use std::alloc::Global;
use std::marker::Model;

/// Labels in ascending order, with a text for each. Contracts see both lists.
#[derive(Drop)]
struct Column {
    labels: Vec<u32>,
    texts: Vec<Text>,
}

impl Model for Column {
    ghost use Rattle.std.specs.Prelude.{◌≡◌, length};
    ghost use Rattle.std.specs.List.Sorted.{IsStrictlyIncreasing};
    ghost use Rattle.no_plan_witness.specs.Texts.{Column as ColumnOf};

    ghost Value = { ColumnOf };

    ghost view = { λ c. record { labels = c.labels.items; texts = c.texts.items } };

    ghost invariant = { λ c. IsStrictlyIncreasing c.labels.items × (length c.texts.items ≡ length c.labels.items) };
}

impl Column {
    // The first free texts of the sort for labels that ascend.
    fn new(alloc: Global, sort: Sort, known: &Texts, labels: Vec<u32>) -> Result<Column, NoMemory>
        requires { IsStrictlyIncreasing labels.items }
        ensures labels { IfOk result (λ column. column.labels ≡ labels.items) }
        ensures texts { IfOk result (λ column. AreFirstFree sort known.now column.texts) }
        ensures as_many { IfOk result (λ column. length column.texts ≡ length column.labels) }
    {
        let texts = free_texts(alloc, sort, known, labels.as_slice())?;
        Ok(Column { labels, texts })
    }

    // The text of a label, if it is one of the labels.
    fn text(&self, label: u32) -> Option<&Text>
        ensures some { IfSome result (λ text. (other : List ℕ) → text.now ≡ text_in self.now other label) }
        ensures none { IfNone result ((other : List ℕ) → text_in self.now other label ≡ other) }
    {
        match self.labels.as_slice().binary_search(&label) {
            Ok(place) => Some(&self.texts[place]),
            Err(_) => None,
        }
    }
}

/// A text for each label of facts. Contracts see the names that it is.
#[derive(Drop)]
pub struct Naming {
    integers: Column,
    others: Column,
}

impl Model for Naming {
    ghost use Rattle.no_plan_witness.specs.Texts.{Names};

    ghost Value = { Names };

    ghost view = { λ n. record { integers = n.integers; others = n.others } };
}

impl Naming {
    /// The texts for the labels that occur in the first or in the second facts.
    pub fn new(
        alloc: Global,
        schema: &Schema,
        first: &[Ground],
        second: &[Ground],
        known: &Texts,
    ) -> Result<Naming, NoMemory>
        ensures { IfOk result (λ naming. AreNamesFor (meaning_of schema.now) known.now (first.now ++ second.now) naming) }
    {
        let labels = labels_of(alloc, first, second)?;
        let integers = integers_of(alloc, schema, first, second)?;
        let others = others_of(alloc, labels.as_slice(), integers.as_slice())?;
        Ok(Naming {
            integers: Column::new(alloc, Sort::Int, known, integers)?,
            others: Column::new(alloc, Sort::Text, known, others)?,
        })
    }

    /// The instance of the facts with the texts of their labels.
    pub fn instance(&self, alloc: Global, facts: &[Ground]) -> Result<Instance, NoMemory>
        ensures { IfOk result (λ instance. instance ≡ renamed (text_under self.now) facts.now) }
    {
        let mut instance = Vec::with_capacity(alloc, facts.len())?;
        for fact in facts {
            instance.push(self.fact(alloc, fact)?)?;
        }
        Ok(Seq::from_vec(instance))
    }

    fn fact(&self, alloc: Global, fact: &Ground) -> Result<Fact, NoMemory>
        ensures { IfOk result (λ same. same ≡ fact_of (text_under self.now) fact.now) }
    {
        Ok(Fact {
            rel: fact.rel,
            row: self.row(alloc, fact.vals.as_slice())?,
        })
    }

    /// The row of the values with the texts of their labels.
    pub fn row(&self, alloc: Global, vals: &[Val]) -> Result<Row, NoMemory>
        ensures { IfOk result (λ row. row ≡ map (image (text_under self.now)) vals.now) }
    {
        let mut row = Vec::with_capacity(alloc, vals.len())?;
        for val in vals {
            row.push(self.value(alloc, val)?)?;
        }
        Ok(Seq::from_vec(row))
    }

    fn value(&self, alloc: Global, val: &Val) -> Result<Text, NoMemory>
        ensures { IfOk result (λ text. text ≡ image (text_under self.now) val.now) }
    {
        match val {
            Val::Const(text) => text.copy(alloc),
            Val::Label(label) => self.text(alloc, *label),
        }
    }

    fn text(&self, alloc: Global, label: u32) -> Result<Text, NoMemory>
        ensures { IfOk result (λ text. text ≡ text_under self.now label) }
    {
        if let Some(text) = self.integers.text(label) {
            return text.copy(alloc);
        }
        match self.others.text(label) {
            Some(text) => text.copy(alloc),
            None => Text::from_str(alloc, ""),
        }
    }
}
