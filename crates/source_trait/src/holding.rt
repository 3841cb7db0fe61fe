// The attached relations of a source, with their rows.
ghost use Rattle.std.specs.Prelude.{◌≡◌, ◌++◌, ◌∷◌, ◌≢◌, ◌+◌, ◌≤◌, ◌↔◌, IsTrue, ℕ, sum, not, nat_eq, true, [], None, Some, IfSome, length, option_copied, IfOk, OnOk, OnErr};
ghost use Rattle.std.specs.List.{AllByRecursion, filter};
ghost use Rattle.source_trait.specs.Asking.{agrees, pick, without, facts_of, HaveArity};
ghost use Rattle.source_trait.specs.Index.{IndexesOf, OneMore};
ghost use Rattle.source_trait.specs.Holding.{facts_held, attachment_in, attached_in, loads_of, others_than, sizes_of};

use crate::index::{Index, find_index};
use lists::{Copies, Text, Texts};
use row_text::PackedRows;
use std::alloc::{AllocError, Global};
use std::marker::Model;

/// An attached relation with its rows.
#[derive(Drop)]
pub struct Attachment {
    pub rel: u32,
    pub columns: Texts,
    pub locator: Text,
    pub rows: PackedRows,
    /// How many bytes of data the rows came from.
    pub size: u64,
}

/// The attached relations of a source, each once, with rows of its arity.
#[derive(Drop)]
pub struct Holding {
    list: Vec<Attachment>,
    // one for each relation and each list of positions that it was asked by
    indexes: Vec<Index>,
}

impl Model for Holding {
    ghost use Rattle.std.specs.Prelude.{List};
    ghost use Rattle.source_trait.specs.declared.holding.Attachment.{Attachment};
    ghost use Rattle.source_trait.specs.Holding.{IsStore};
    ghost use Rattle.source_trait.specs.Index.{AreIndexes};

    ghost Value = { List Attachment };

    ghost view = { λ h. h.list.items };

    ghost invariant = { λ h. IsStore h.list.items × AreIndexes h.list.items h.indexes.items };
}

impl Holding {
    /// No relation is attached. Takes no memory.
    pub fn new(alloc: Global) -> Holding
        ensures { result ≡ [] }
    {
        Holding {
            list: Vec::new(alloc),
            indexes: Vec::new(alloc),
        }
    }

    /// Takes the relation away.
    pub fn detach(&mut self, rel: u32)
        ensures gone { attached_in self.new rel ≡ None }
        ensures absent { attachment_in self.new rel ≡ None }
        ensures others { (r : ℕ) → r ≢ rel → attached_in self.new r ≡ attached_in self.old r }
        ensures facts { facts_held self.new ≡ without rel (facts_held self.old) }
        ensures left { self.new ≡ others_than rel self.old }
    {
        take_away(&mut self.list, rel);
        take_indexes(&mut self.indexes, rel);
    }

    // Adds a relation that is not attached.
    fn attach(&mut self, attachment: Attachment) -> Result<(), AllocError>
        requires absent { attachment_in self.old attachment.rel ≡ None }
        requires fit { HaveArity (length attachment.columns) attachment.rows }
        ensures ok { OnOk result (self.new ≡ self.old ++ attachment ∷ []) }
        ensures err { OnErr result (self.new ≡ self.old) }
    {
        self.list.push(attachment)?;
        Ok(())
    }

    /// Attaches a relation that is not attached, with copies of the columns and the locator.
    pub fn take(
        &mut self,
        alloc: Global,
        rel: u32,
        columns: &Texts,
        locator: &Text,
        rows: PackedRows,
        size: u64,
    ) -> Result<(), AllocError>
        requires absent { attachment_in self.old rel ≡ None }
        requires fit { HaveArity (length columns.now) rows }
        ensures attached { OnOk result (attached_in self.new rel ≡ Some (columns.now, locator.now)) }
        ensures others { (r : ℕ) → r ≢ rel → attached_in self.new r ≡ attached_in self.old r }
        ensures facts { OnOk result (facts_held self.new ≡ facts_held self.old ++ facts_of rel rows) }
        ensures loads { OnOk result (loads_of self.new ≡ loads_of self.old ++ (rel, size) ∷ []) }
        ensures err { OnErr result (self.new ≡ self.old) }
    {
        let attachment = copy_attachment(alloc, rel, columns, locator, rows, size)?;
        self.attach(attachment)?;
        Ok(())
    }

    /// Whether the data of all relations and so many bytes more keep a limit. Takes no memory.
    pub fn has_room(&self, more: u64, limit: u64) -> bool
        ensures { IsTrue result ↔ (sum (sizes_of self.now) + more ≤ limit) }
    {
        have_room(&self.list, more, limit)
    }

    /// Copies of the rows of the relation that have the values at the positions. The first call with these positions makes
    /// an index on them, in time at most n log n of the relation's n rows; a later one takes the time of its own rows and log n.
    pub fn ask(
        &mut self,
        alloc: Global,
        rel: u32,
        positions: &[u32],
        values: &[Text],
    ) -> Result<PackedRows, AllocError>
        ensures picks { IfOk result (λ rows. rows ≡ pick (facts_held self.old) rel positions.now values.now) }
        ensures fits { IfOk result (λ rows. IfSome (attached_in self.old rel) (λ a. AllByRecursion (λ row. (length row ≡ length a.0) × (agrees positions.now values.now row ≡ true)) rows)) }
        ensures same { self.new ≡ self.old }
    {
        let Some(attachment) = find(&self.list, rel) else {
            return Ok(PackedRows::new(alloc));
        };
        indexed(
            alloc,
            &mut self.indexes,
            rel,
            &attachment.rows,
            positions,
            values,
        )
    }
}

fn copy_attachment(
    alloc: Global,
    rel: u32,
    columns: &Texts,
    locator: &Text,
    rows: PackedRows,
    size: u64,
) -> Result<Attachment, AllocError>
    ensures { IfOk result (λ a. a ≡ record { rel = rel; columns = columns.now; locator = locator.now; rows = rows; size = size }) }
{
    let columns = columns.copy(alloc)?;
    let locator = locator.copy(alloc)?;
    Ok(Attachment {
        rel,
        columns,
        locator,
        rows,
        size,
    })
}

fn have_room(list: &[Attachment], more: u64, limit: u64) -> bool
    ensures { IsTrue result ↔ (sum (sizes_of list.now) + more ≤ limit) }
{
    let mut room = limit;
    let mut left = list;
    while let [attachment, rest @ ..] = left {
        if attachment.size > room {
            return false;
        }
        room -= attachment.size;
        left = rest;
    }
    more <= room
}

fn take_away(list: &mut Vec<Attachment>, rel: u32)
    ensures { list.new.items ≡ others_than rel list.old.items }
{
    list.retain(|attachment| attachment.rel != rel);
}

fn find(list: &[Attachment], rel: u32) -> Option<&Attachment>
    ensures { option_copied result ≡ attachment_in list.now rel }
{
    let mut left = list;
    while let [attachment, rest @ ..] = left {
        if attachment.rel == rel {
            return Some(attachment);
        }
        left = rest;
    }
    None
}

fn take_indexes(indexes: &mut Vec<Index>, rel: u32)
    ensures { indexes.new.items ≡ filter (λ x. not (nat_eq x.rel rel)) indexes.old.items }
{
    indexes.retain(|index| index.rel != rel);
}

// The rows that have the values at the positions, by the index of the relation on them, which is made where there is none;
// with no position all rows, which need no index.
fn indexed(
    alloc: Global,
    indexes: &mut Vec<Index>,
    rel: u32,
    rows: &PackedRows,
    positions: &[u32],
    values: &[Text],
) -> Result<PackedRows, AllocError>
    requires { IndexesOf rel rows.now indexes.old.items }
    ensures found { IfOk result (λ found. found ≡ filter (agrees positions.now values.now) rows.now) }
    ensures made { OneMore rel rows.now indexes.old.items indexes.new.items }
{
    if positions.is_empty() {
        return rows.copy(alloc);
    }
    if let Some(index) = find_index(indexes, rel, positions) {
        return index.rows_with(alloc, rows, values);
    }
    let index = Index::build(alloc, rel, positions, rows)?;
    let found = index.rows_with(alloc, rows, values)?;
    indexes.push(index)?;
    Ok(found)
}
