// The places of a step as those of a table over some of the columns.
ghost use Rattle.std.specs.Prelude.{◌≡◌, ◌++◌, ◌∷◌, [], Contains, IfOk, MatchOption, Some, map, slice_get};
ghost use Rattle.meaning.specs.declared.types.Place.TheVariants.{Col, New};
ghost use Rattle.meaning.specs.Plans.{made};
ghost use Rattle.middleware.specs.Naming.{IsLocal};
ghost use Rattle.middleware.specs.Named.{AddsLocal, NamesOne};

use lists::{Copies, Places, Seq};
use meaning::types::{Place, PlaceList};
use std::alloc::{AllocError, Global};

/// Places of a table, the columns that it then has, and how many columns the partial rows then have.
#[derive(Drop)]
pub struct Named {
    pub places: PlaceList,
    pub columns: Places,
    pub count: u32,
}

/// The places of a table with these columns for places of partial rows with so many columns. A column that the table lacks is a new one
/// of the table.
pub fn named_places(
    alloc: Global,
    columns: Places,
    count: u32,
    places: &[Place],
) -> Result<Named, AllocError>
    ensures local { IfOk result (λ named. IsLocal columns count places.now named.places named.columns) }
    ensures count { IfOk result (λ named. named.count ≡ made count places.now) }
{
    let mut named = Named {
        places: Seq::new(alloc),
        columns,
        count,
    };
    for place in places {
        named = with_place(alloc, named, place)?;
    }
    Ok(named)
}

fn with_place(alloc: Global, named: Named, place: &Place) -> Result<Named, AllocError>
    ensures { IfOk result (λ more. NamesOne place.now named more) }
{
    match place {
        Place::Const(text) => {
            let text = text.copy(alloc)?;
            with_one(named, Place::Const(text))
        }
        Place::Col(column) => with_column(named, *column),
        Place::New => with_new(named),
    }
}

// One place more, of no new column.
fn with_one(named: Named, place: Place) -> Result<Named, AllocError>
    ensures { IfOk result (λ more. AddsLocal place named.columns named more) }
{
    let mut more = named;
    more.places.push(place)?;
    Ok(more)
}

// The place of a column that there is.
fn with_column(named: Named, column: u32) -> Result<Named, AllocError>
    ensures { IfOk result (λ more. NamesOne (Col column) named more) }
{
    match number_of(named.columns.as_slice(), column) {
        Some(number) => {
            let number = fitting(number)?;
            with_one(named, Place::Col(number))
        }
        None => with_unknown(named, column),
    }
}

// The place of a column that the table gets.
fn with_unknown(named: Named, column: u32) -> Result<Named, AllocError>
    ensures { IfOk result (λ more. AddsLocal New (named.columns ++ column ∷ []) named more) }
{
    let mut more = named;
    more.columns.push(column)?;
    more.places.push(Place::New)?;
    Ok(more)
}

// The place of the next new column.
fn with_new(named: Named) -> Result<Named, AllocError>
    ensures { IfOk result (λ more. NamesOne New named more) }
{
    let count = named.count;
    let mut more = with_unknown(named, count)?;
    if count == u32::MAX {
        return Err(AllocError);
    }
    more.count = count + 1;
    Ok(more)
}

/// Which of the columns this is, if it is one.
pub fn number_of(columns: &[u32], column: u32) -> Option<usize>
    ensures { MatchOption result (Contains columns.now column → ⊥) (λ number. slice_get columns.now number ≡ Some column) }
{
    for number in 0..columns.len() {
        if columns[number] == column {
            return Some(number);
        }
    }
    None
}

/// The number, where it fits a place's; no memory holds more columns.
pub fn fitting(number: usize) -> Result<u32, AllocError>
    ensures { IfOk result (λ same. same ≡ number) }
{
    if number > u32::MAX as usize {
        return Err(AllocError);
    }
    Ok(number as u32)
}

/// The places that name the columns.
pub fn column_places(alloc: Global, columns: &[u32]) -> Result<PlaceList, AllocError>
    ensures { IfOk result (λ places. places ≡ map Col columns.now) }
{
    let mut places = Seq::new(alloc);
    for column in columns {
        places.push(Place::Col(*column))?;
    }
    Ok(places)
}
