// What locators are: laws on the definitions alone, as functions that do nothing.
ghost use Rattle.std.specs.Prelude.{◌≡◌, ℕ, List, Some};
ghost use Rattle.world_source.specs.Formulas.{IsInRange, locator, numbers_of};

/// A locator `k/n` with k from 1 to 8 and n from 1 to 10,000 names these numbers, and no other text names any.
pub fn locators_name_their_numbers()
    ensures named { (k n : ℕ) → IsInRange k n → numbers_of (locator k n) ≡ Some (k, n) }
    ensures only { (text : List ℕ) (k n : ℕ) → numbers_of text ≡ Some (k, n) → IsInRange k n }
    ensures written { (text : List ℕ) (k n : ℕ) → numbers_of text ≡ Some (k, n) → text ≡ locator k n }
{}
