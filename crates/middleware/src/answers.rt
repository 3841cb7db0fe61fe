// The answers to requests, in one buffer.
ghost use Rattle.std.specs.Prelude.{◌≡◌, ◌≢◌, ◌++◌, ◌∷◌, [], IfOk, MatchOption, length, option_copied, slice_get};
ghost use Rattle.row_text.specs.Packed.{AreEnds, cut_at};
ghost use Rattle.source_trait.specs.Asking.{RowList};

use row_text::{LentRows, PackedRows};
use std::alloc::{AllocError, Global};
use std::marker::Model;

/// The answers to requests, in their order, with the rows of all of them in one buffer. Contracts see a list of lists of rows. A call
/// that adds an answer takes the answers and gives them back with it.
#[derive(Drop)]
pub struct Answers {
    rows: PackedRows,
    // how many rows there are up to the end of each answer
    ends: Vec<usize>,
}

impl Model for Answers {
    ghost use Rattle.std.specs.Prelude.{List, ℕ, length};
    ghost use Rattle.row_text.specs.Packed.{AreEnds, cut_at};

    ghost Value = { List (List (List (List ℕ))) };

    ghost view = { λ a. cut_at 0 a.ends.items a.rows };

    ghost invariant = { λ a. AreEnds 0 a.ends.items (length a.rows) };
}

impl Answers {
    /// No answers. Takes no memory.
    pub fn new(alloc: Global) -> Answers
        ensures { result ≡ [] }
    {
        Answers {
            rows: PackedRows::new(alloc),
            ends: Vec::new(alloc),
        }
    }

    // The answers of these rows, by how many rows there are up to the end of each. Takes no memory.
    pub(crate) fn cut(rows: PackedRows, ends: Vec<usize>) -> Answers
        requires { AreEnds 0 ends.items (length rows) }
        ensures { result ≡ cut_at 0 ends.items rows }
    {
        Answers { rows, ends }
    }

    /// The answers and one more, of these rows. They are taken and not copied where no row stands before them.
    pub fn with(self, rows: PackedRows) -> Result<Answers, AllocError>
        ensures { IfOk result (λ more. more ≡ self ++ rows ∷ []) }
    {
        let Answers {
            rows: before,
            mut ends,
        } = self;
        let all = before.with_all(rows)?;
        ends.push(all.len())?;
        Ok(Answers { rows: all, ends })
    }

    // No rows, with room for a partial row and the row that it grows by, for each row of the answers. Where there are fewer partial rows,
    // the room is that of the answers alone: few rows may be long.
    pub(crate) fn room_beside(
        &self,
        alloc: Global,
        partial: &PackedRows,
    ) -> Result<PackedRows, AllocError>
        ensures { IfOk result (λ room. room ≡ []) }
    {
        if partial.len() < self.rows.len() {
            return self.rows.room_alike(alloc);
        }
        partial.room_beside(alloc, &self.rows)
    }

    /// How many answers there are.
    pub fn len(&self) -> usize
        ensures { result ≡ length self.now }
    {
        self.ends.len()
    }

    /// The rows of the answer of a number, lent, if there is one.
    pub fn get(&self, number: usize) -> Option<LentRows<'_>>
        ensures { result ≡ slice_get self.now number }
    {
        if number < self.ends.len() {
            Some(LentRows::part(&self.rows, &self.ends, number))
        } else {
            None
        }
    }

    /// The rows of the answer, if there is just one.
    pub fn lone(&self) -> Option<&PackedRows>
        ensures { MatchOption (option_copied result) (length self.now ≢ 1) (λ rows. self.now ≡ rows ∷ []) }
    {
        if self.ends.len() == 1 {
            Some(&self.rows)
        } else {
            None
        }
    }

    /// The rows of all answers, which are those of the answer where there is just one. Takes no memory.
    pub fn into_rows(self) -> PackedRows
        ensures { (answer : RowList) → self ≡ answer ∷ [] → result ≡ answer }
    {
        self.rows
    }
}
