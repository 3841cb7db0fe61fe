// A book of the requests that were asked.
ghost use Rattle.std.specs.Prelude.{◌≡◌, ◌∷◌, [], ℕ, List, IfOk, IsTrue, OnOk};
ghost use Rattle.std.specs.BTreeMap.{get};
ghost use Rattle.row_text.specs.RowText.{row_cmp};
ghost use Rattle.shared_rounds.specs.Books.{Adds, HasShelf, IsBook, Notes, NotesAll, ask_at, is_for};

use lists::{Copies, NoMemory, Places, Row, Text};
use meaning::types::Request;
use row_text::{LentRow, PackedRows};
use source_trait::Ask;
use std::alloc::Global;
use std::collections::BTreeMap;

/// The numbers of the requests of a relation at some positions, by their values.
#[derive(Drop)]
pub struct Shelf {
    pub rel: u32,
    pub positions: Places,
    pub numbers: BTreeMap<Row, usize>,
}

/// The requests so far, each once, with a shelf for each relation and its positions.
#[derive(Drop)]
pub struct Book {
    pub shelves: Vec<Shelf>,
    pub asked: Vec<Ask>,
}

impl Book {
    /// A book without requests. Takes no memory.
    pub fn new(alloc: Global) -> Book
        ensures is_book { IsBook result }
        ensures empty { result.asked.items ≡ [] }
    {
        Book {
            shelves: Vec::new(alloc),
            asked: Vec::new(alloc),
        }
    }

    /// The numbers of the requests of the relation with these values at the positions, for a source of the kind. Those that were
    /// not asked before are added in their order.
    pub fn note_all(
        &mut self,
        alloc: Global,
        kind: &Text,
        rel: u32,
        positions: &Places,
        list: &PackedRows,
    ) -> Result<Vec<usize>, NoMemory>
        requires { IsBook self.old }
        ensures { IfOk result (λ numbers. NotesAll kind.now rel positions.now list.now self.old self.new numbers.items) }
    {
        let place = shelf_place(alloc, &mut self.shelves, rel, positions)?;
        let mut numbers = Vec::with_capacity(alloc, list.len())?;
        for number in 0..list.len() {
            let found = note(
                alloc,
                &mut self.shelves[place],
                &mut self.asked,
                kind,
                &list.at(number),
            )?;
            numbers.push(found)?;
        }
        Ok(numbers)
    }
}

// The place of the first shelf for the relation and the positions, which is added where there is none.
fn shelf_place(
    alloc: Global,
    shelves: &mut Vec<Shelf>,
    rel: u32,
    positions: &Places,
) -> Result<usize, NoMemory>
    ensures { IfOk result (λ place. HasShelf rel positions.now shelves.old.items shelves.new.items place) }
{
    for place in 0..shelves.len() {
        if is_for(&shelves[place], rel, positions) {
            return Ok(place);
        }
    }
    let place = shelves.len();
    shelves.push(Shelf {
        rel,
        positions: positions.copy(alloc)?,
        numbers: BTreeMap::new(alloc),
    })?;
    Ok(place)
}

fn is_for(shelf: &Shelf, rel: u32, positions: &Places) -> bool
    ensures { result ≡ is_for rel positions.now shelf.now }
{
    shelf.rel == rel && shelf.positions.as_slice() == positions.as_slice()
}

// The number of the request of the shelf with these values, which is added where there is none.
fn note(
    alloc: Global,
    shelf: &mut Shelf,
    asked: &mut Vec<Ask>,
    kind: &Text,
    values: &LentRow<'_>,
) -> Result<usize, NoMemory>
    ensures { IfOk result (λ number. Notes kind.now values.now shelf.old shelf.new asked.old.items asked.new.items number) }
{
    let values = values.copy(alloc)?;
    match number_of(shelf, &values) {
        Some(number) => Ok(number),
        None => add(alloc, shelf, asked, kind, values),
    }
}

// The number of the request of the shelf with these values, if it was asked.
fn number_of(shelf: &Shelf, values: &Row) -> Option<usize>
    ensures { result ≡ get row_cmp shelf.now.numbers values.now }
{
    match shelf.numbers.get(values) {
        Some(number) => Some(*number),
        None => None,
    }
}

// Adds the request of the shelf with these values, and gives its number.
fn add(
    alloc: Global,
    shelf: &mut Shelf,
    asked: &mut Vec<Ask>,
    kind: &Text,
    values: Row,
) -> Result<usize, NoMemory>
    ensures { IfOk result (λ number. Adds kind.now values shelf.old shelf.new asked.old.items asked.new.items number) }
{
    let number = asked.len();
    asked.push(ask_at(alloc, shelf, kind, &values)?)?;
    shelf.numbers.insert(values, number)?;
    Ok(number)
}

fn ask_at(alloc: Global, shelf: &Shelf, kind: &Text, values: &Row) -> Result<Ask, NoMemory>
    ensures { IfOk result (λ ask. ask ≡ ask_at shelf.now kind.now values.now) }
{
    let request = Request {
        rel: shelf.rel,
        positions: shelf.positions.copy(alloc)?,
        values: values.copy(alloc)?,
    };
    Ok(Ask {
        kind: kind.copy(alloc)?,
        request,
    })
}
