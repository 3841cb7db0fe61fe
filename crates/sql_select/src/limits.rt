// The limits of the selects of a query.
ghost use Rattle.std.specs.Prelude.{◌≡◌, MatchOption};
ghost use Rattle.sql_select.specs.Limits.{AreWithinLimits, IsOver, count_of, has_more};

use crate::piece::RawSelect;
use access_schema::Limit;

/// The most FROM items of a select, which has at least one.
pub const MOST_FROMS: usize = 16;

/// The most conditions of a select.
pub const MOST_CONDITIONS: usize = 64;

/// The most items of a select, which has at least one.
pub const MOST_ITEMS: usize = 64;

/// The most selects of a query, which has at least one.
pub const MOST_SELECTS: usize = 16;

/// What a select has several of.
#[derive(Clone, Copy)]
pub enum Member {
    From,
    Condition,
    Item,
}

fn count_of(raw: &RawSelect, kind: Member) -> usize
    ensures { result ≡ count_of kind raw.now }
{
    match kind {
        Member::From => raw.froms.len(),
        Member::Condition => raw.conditions.len(),
        Member::Item => raw.items.len(),
    }
}

// Whether one of the selects has more of these members than so many.
fn has_more(raws: &[RawSelect], kind: Member, most: usize) -> bool
    ensures { result ≡ has_more kind most raws.now }
{
    let mut left = raws;
    while let [raw, rest @ ..] = left {
        if count_of(raw, kind) > most {
            return true;
        }
        left = rest;
    }
    false
}

/// The first limit that one of the selects passes, or that they pass together.
pub fn passed_limit(raws: &[RawSelect]) -> Option<Limit>
    ensures { MatchOption result (AreWithinLimits raws.now) (IsOver raws.now) }
{
    if has_more(raws, Member::From, MOST_FROMS) {
        return Some(Limit::Froms);
    }
    if has_more(raws, Member::Condition, MOST_CONDITIONS) {
        return Some(Limit::Conditions);
    }
    if has_more(raws, Member::Item, MOST_ITEMS) {
        return Some(Limit::Items);
    }
    if raws.len() > MOST_SELECTS {
        return Some(Limit::Selects);
    }
    None
}
