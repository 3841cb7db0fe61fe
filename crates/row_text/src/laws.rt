// Laws of the text of rows: each is the contract of a function that does nothing.

ghost use Rattle.std.specs.Prelude.{◌≡◌, ◌↔◌, Contains, List, ℕ};
ghost use Rattle.std.specs.List.Sorted.{IsStrictlySortedBy};
ghost use Rattle.row_text.specs.RowText.{IsRowText, row_cmp};

/// Strictly ascending lists with the same rows are the same list.
pub fn ascending_is_unique()
    ensures { (first second : List (List (List ℕ))) → IsStrictlySortedBy row_cmp first → IsStrictlySortedBy row_cmp second →
        ((row : List (List ℕ)) → Contains first row ↔ Contains second row) → first ≡ second }
{}

/// The text depends on which rows there are alone: lists with the same rows, in whatever order, have one text.
pub fn text_is_unique()
    ensures { (names : List (List ℕ)) (rows others : List (List (List ℕ))) (text other : List ℕ) →
        ((row : List (List ℕ)) → Contains rows row ↔ Contains others row) →
        IsRowText names (Contains rows) text → IsRowText names (Contains others) other → text ≡ other }
{}
