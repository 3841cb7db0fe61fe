// Sets of keys, which find a key by its code.
ghost use Rattle.std.specs.Prelude.{◌≡◌, ◌↔◌, ℕ, [], IsTrue, Some, None, false, IfOk, IfNone, IfSome, OnOk, option_copied};
ghost use Rattle.std.specs.BTreeMap.{get, is_at};
ghost use Rattle.std.specs.BTreeSet.{contains};
ghost use Rattle.std.specs.Ordering.{nat_cmp};
ghost use Rattle.data_verify.specs.Keys.{key_of, row_cmp, IsFirst, Holds, Adds};

use crate::row_key::{key, key_code, same_key};
use lists::{NoMemory, Row, Text};
use meaning::types::Term;
use std::alloc::Global;
use std::collections::{BTreeMap, BTreeSet};

/// For each code the first row whose key has it; and the keys whose code an earlier one had, in order.
///
/// Both are ordered trees. However many keys agree in their codes, a look-up takes the logarithm of their number.
#[derive(Drop)]
pub struct KeySet<'a> {
    firsts: BTreeMap<u64, &'a [Text]>,
    others: BTreeSet<Row>,
}

impl<'a> KeySet<'a> {
    /// That of no keys. Takes no memory.
    pub fn new(alloc: Global) -> KeySet<'a>
        ensures firsts { result.firsts.entries ≡ [] }
        ensures others { result.others.keys ≡ [] }
    {
        KeySet {
            firsts: BTreeMap::new(alloc),
            others: BTreeSet::new(alloc),
        }
    }

    /// Adds the key of the row, which these terms read as they do each row of the set.
    pub fn insert(
        &mut self,
        alloc: Global,
        terms: &[Term],
        variables: &[u32],
        row: &'a [Text],
    ) -> Result<(), NoMemory>
        ensures { OnOk result (Adds terms.now variables.now self.old (key_of terms.now variables.now row.now) self.new) }
    {
        let code = key_code(terms, variables, row);
        match take_code(&mut self.firsts, code, row)? {
            None => Ok(()),
            Some(first) => {
                if same_key(variables, terms, first, terms, row) {
                    return Ok(());
                }
                self.others.insert(key(alloc, terms, variables, row)?)?;
                Ok(())
            }
        }
    }

    /// Whether the set, whose rows the first terms read, holds the key of the row by the second.
    pub fn contains(
        &self,
        alloc: Global,
        own: &[Term],
        variables: &[u32],
        terms: &[Term],
        row: &[Text],
    ) -> Result<bool, NoMemory>
        ensures { IfOk result (λ held. IsTrue held ↔ Holds own.now variables.now self.now (key_of terms.now variables.now row.now)) }
    {
        if self.is_first(own, variables, terms, row) {
            return Ok(true);
        }
        self.is_other(alloc, variables, terms, row)
    }

    /// Whether the key of the row is that of the first row of its code. Takes no memory.
    fn is_first(&self, own: &[Term], variables: &[u32], terms: &[Term], row: &[Text]) -> bool
        ensures { IsTrue result ↔ IsFirst own.now variables.now self.now (key_of terms.now variables.now row.now) }
    {
        match self.firsts.get(&key_code(terms, variables, row)) {
            Some(first) => same_key(variables, own, *first, terms, row),
            None => false,
        }
    }

    /// Whether the key of the row is one of those whose code an earlier one had. Takes memory for the key where there are any.
    fn is_other(
        &self,
        alloc: Global,
        variables: &[u32],
        terms: &[Term],
        row: &[Text],
    ) -> Result<bool, NoMemory>
        ensures { IfOk result (λ other. other ≡ contains row_cmp self.now.others (key_of terms.now variables.now row.now)) }
    {
        if self.others.is_empty() {
            return Ok(false);
        }
        Ok(self.others.contains(&key(alloc, terms, variables, row)?))
    }
}

/// The code's first row; where it has none, the code is given this one.
fn take_code<'a>(
    firsts: &mut BTreeMap<u64, &'a [Text]>,
    code: u64,
    row: &'a [Text],
) -> Result<Option<&'a [Text]>, NoMemory>
    ensures new { IfOk result (λ first. IfNone first ((get nat_cmp firsts.old code ≡ None) × (option_copied (get nat_cmp firsts.new code) ≡ Some row.now))) }
    ensures apart { OnOk result ((other : ℕ) → is_at (nat_cmp code) other ≡ false → get nat_cmp firsts.new other ≡ get nat_cmp firsts.old other) }
    ensures taken { IfOk result (λ first. IfSome first (λ first. (option_copied (get nat_cmp firsts.old code) ≡ Some first.now) × (firsts.new.entries ≡ firsts.old.entries))) }
{
    match firsts.get(&code) {
        Some(first) => Ok(Some(*first)),
        None => {
            firsts.insert(code, row)?;
            Ok(None)
        }
    }
}
