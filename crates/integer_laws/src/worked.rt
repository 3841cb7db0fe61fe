// Worked examples of the definitions, with values that were computed by hand: items with a number and a word.

ghost use Rattle.std.specs.Prelude.{List, [], ◌∷◌, codes};
ghost use Rattle.meaning.specs.declared.types.Val.TheVariants.{Const, Label};
ghost use Rattle.integer_laws.specs.Sorted.{AreSortedFacts, AreSortedGrounds, NamesIntegers, AreSortedRules};
ghost use Rattle.integer_laws.specs.Claimed.{IsSortedModel};
ghost use Rattle.integer_laws.specs.Items.{items, swap, item, labelled_item};

/// A number stands at an integer column, and any text at another.
pub fn seven_is_sorted()
    ensures { AreSortedFacts items (item (codes "7") (codes "x") ∷ []) }
{}

/// A word does not stand at an integer column.
pub fn word_is_not_sorted()
    ensures { AreSortedFacts items (item (codes "x") (codes "7") ∷ []) → ⊥ }
{}

/// Nor does a number with a leading zero.
pub fn leading_zero_is_not_sorted()
    ensures { AreSortedFacts items (item (codes "07") (codes "x") ∷ []) → ⊥ }
{}

/// A word at an integer column is in no sorted model.
pub fn word_is_in_no_sorted_model()
    ensures { IsSortedModel items (item (codes "x") (codes "7") ∷ []) → ⊥ }
{}

/// A label stands at any column.
pub fn label_is_sorted()
    ensures { AreSortedGrounds items (labelled_item (Label 0) (Label 0) ∷ []) }
{}

/// A word does not.
pub fn labelled_word_is_not_sorted()
    ensures { AreSortedGrounds items (labelled_item (Const (codes "x")) (Label 0) ∷ []) → ⊥ }
{}

/// A word does not name a label at an integer column.
pub fn word_names_no_integer()
    ensures { NamesIntegers items (labelled_item (Label 0) (Const (codes "x")) ∷ []) (λ k. codes "_1") → ⊥ }
{}

/// It names one at another column.
pub fn word_names_a_word()
    ensures { NamesIntegers items (labelled_item (Const (codes "7")) (Label 0) ∷ []) (λ k. codes "_1") }
{}

/// A rule that moves a number to another column is not sorted.
pub fn swap_is_not_sorted()
    ensures { AreSortedRules (record items { rules = swap ∷ [] }) → ⊥ }
{}
