// Columns of a relation, as they are declared.
ghost use Rattle.std.specs.Prelude.{◌≡◌, [], map, length, IfOk};
ghost use Rattle.pq_text.specs.Lexemes.{Gives, members};
ghost use Rattle.tgd_reader.specs.Reading.{name_of, given_sort, sort_of, sort_at, word_behind, column_at, columns_at};

use access_schema::NoMemory;
use lists::{Copies, Seq, Text, Texts};
use meaning::types::{Sort, Sorts};
use pq_text::{Cursor, Form, Misfit};
use std::alloc::Global;

pub type Columns = Seq<Column>;

/// A column as it is written: its name and, where one is given, its sort.
#[derive(Drop)]
pub struct Column {
    pub name: Text,
    pub word: Option<Sort>,
}

// The form of a column, which has a sort where columns have some.
#[derive(Drop)]
struct ColumnForm {
    has_sorts: bool,
}

impl Form for ColumnForm {
    type Member = Column;

    ghost at = { λ form. column_at form.has_sorts };

    fn take(&self, alloc: Global, cursor: &mut Cursor<'_>) -> Result<Column, Misfit> {
        read_column(alloc, self.has_sorts, cursor)
    }
}

// COLUMN , ..
pub fn read_columns(
    alloc: Global,
    has_sorts: bool,
    cursor: &mut Cursor<'_>,
) -> Result<Columns, Misfit>
    ensures { Gives cursor.new result (columns_at has_sorts cursor.old) }
{
    cursor.members(alloc, &ColumnForm { has_sorts })
}

// NAME, and where columns have sorts also NAME int and NAME text.
#[tactic(auto, unfolding(crate::specs::Reading::column_at))]
fn read_column(alloc: Global, has_sorts: bool, cursor: &mut Cursor<'_>) -> Result<Column, Misfit>
    ensures { Gives cursor.new result (column_at has_sorts cursor.old) }
{
    let name = cursor.name(alloc)?;
    let word = word_of_sort(has_sorts, cursor)?;
    Ok(Column { name, word })
}

fn word_of_sort(has_sorts: bool, cursor: &mut Cursor<'_>) -> Result<Option<Sort>, Misfit>
    ensures { Gives cursor.new result (word_behind has_sorts cursor.old) }
{
    if has_sorts { sort(cursor) } else { Ok(None) }
}

// The sort whose word stands next, which is taken.
fn sort(cursor: &mut Cursor<'_>) -> Result<Option<Sort>, Misfit>
    ensures { Gives cursor.new result (sort_at cursor.old) }
{
    if cursor.is_word(b"int") {
        cursor.word(b"int")?;
        Ok(Some(Sort::Int))
    } else if cursor.is_word(b"text") {
        cursor.word(b"text")?;
        Ok(Some(Sort::Text))
    } else {
        Ok(None)
    }
}

pub fn names(alloc: Global, columns: &[Column]) -> Result<Texts, NoMemory>
    ensures { IfOk result (λ names. names ≡ map name_of columns.now) }
{
    let mut names = Seq::new(alloc);
    for column in columns {
        names.push(column.name.copy(alloc)?)?;
    }
    Ok(names)
}

// A column that is given no sort is of the sort text.
pub fn sorts(alloc: Global, columns: &[Column]) -> Result<Sorts, NoMemory>
    ensures { IfOk result (λ sorts. sorts ≡ map sort_of columns.now) }
{
    let mut sorts = Seq::new(alloc);
    for column in columns {
        sorts.push(sort_or_text(column.word))?;
    }
    Ok(sorts)
}

fn sort_or_text(word: Option<Sort>) -> Sort
    ensures { result ≡ given_sort word }
{
    match word {
        Some(sort) => sort,
        None => Sort::Text,
    }
}
