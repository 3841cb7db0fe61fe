// The places of a step and of an output, from tokens.
ghost use Rattle.std.specs.Prelude.{◌≡◌, [], length};
ghost use Rattle.pq_text.specs.Lexemes.{Gives, members};
ghost use Rattle.plan_form.specs.Reading.{plain_of, plain_at, plain_place_at, place_at, out_at, places_at, outs_at};

use lists::Text;
use meaning::types::{Out, Outs, Place, PlaceList};
use pq_text::{Cursor, Form, Misfit, plain_number};
use std::alloc::Global;

/// A number without leading zeros, of 32 bits.
pub fn plain(alloc: Global, cursor: &mut Cursor<'_>) -> Result<u32, Misfit>
    ensures { Gives cursor.new result (plain_at cursor.old) }
{
    let digits = cursor.number(alloc)?;
    match whole_number(&digits) {
        Some(number) => Ok(number),
        None => Err(Misfit::NoFit),
    }
}

fn whole_number(digits: &Text) -> Option<u32>
    ensures { result ≡ plain_of digits.now }
{
    match plain_number(digits) {
        Some(number) => Some(number),
        None => None,
    }
}

// PLACE
fn place(alloc: Global, cursor: &mut Cursor<'_>) -> Result<Place, Misfit>
    ensures { Gives cursor.new result (place_at cursor.old) }
{
    if cursor.accept(b"$") {
        Ok(Place::Col(plain(alloc, cursor)?))
    } else {
        plain_place(alloc, cursor)
    }
}

fn plain_place(alloc: Global, cursor: &mut Cursor<'_>) -> Result<Place, Misfit>
    ensures { Gives cursor.new result (plain_place_at cursor.old) }
{
    if cursor.is_word(b"new") {
        cursor.word(b"new")?;
        Ok(Place::New)
    } else {
        Ok(Place::Const(cursor.value(alloc)?))
    }
}

// OUT
fn out(alloc: Global, cursor: &mut Cursor<'_>) -> Result<Out, Misfit>
    ensures { Gives cursor.new result (out_at cursor.old) }
{
    if cursor.accept(b"$") {
        Ok(Out::Col(plain(alloc, cursor)?))
    } else {
        Ok(Out::Const(cursor.value(alloc)?))
    }
}

// The form of a place of a step.
struct PlaceForm;

impl Form for PlaceForm {
    type Member = Place;

    ghost at = { λ form. place_at };

    fn take(&self, alloc: Global, cursor: &mut Cursor<'_>) -> Result<Place, Misfit> {
        place(alloc, cursor)
    }
}

/// Places with a comma between two: one or more.
pub fn places(alloc: Global, cursor: &mut Cursor<'_>) -> Result<PlaceList, Misfit>
    ensures { Gives cursor.new result (places_at cursor.old) }
{
    cursor.members(alloc, &PlaceForm)
}

// The form of a place of an output.
struct OutForm;

impl Form for OutForm {
    type Member = Out;

    ghost at = { λ form. out_at };

    fn take(&self, alloc: Global, cursor: &mut Cursor<'_>) -> Result<Out, Misfit> {
        out(alloc, cursor)
    }
}

/// Output places with a comma between two: one or more.
pub fn outs(alloc: Global, cursor: &mut Cursor<'_>) -> Result<Outs, Misfit>
    ensures { Gives cursor.new result (outs_at cursor.old) }
{
    cursor.members(alloc, &OutForm)
}
