// What the printing of texts promises their readers: laws on the definitions alone, as functions that do nothing.
ghost use Rattle.std.specs.Prelude.{◌≡◌, ◌∷◌, ◌++◌, ◌+◌, ℕ, List, None, length};
ghost use Rattle.pq_text.specs.declared.token.Style.{Style};
ghost use Rattle.pq_text.specs.declared.token.Style.TheVariants.{Lines};
ghost use Rattle.pq_text.specs.declared.token.TokenKind.TheVariants.{Text};
ghost use Rattle.pq_text.specs.declared.scan.Found.TheVariants.{Begins};
ghost use Rattle.pq_text.specs.Tokens.{token_at};
ghost use Rattle.pq_text.specs.Standing.{stands_for};
ghost use Rattle.pq_text.specs.Lines.{AreLines};
ghost use Rattle.pq_text.specs.Printing.{printed_name, printed_kind, printed_value, Stops, follows_name, follows_value};
ghost use Rattle.pq_text.specs.Pieces.{Piece, lines_text, numbered, ArePrintedLines};

/// A printed name that is not empty is lexed as one token, and the token stands for the name.
pub fn printed_names_are_read()
    ensures lexed { (style : Style) (n b : ℕ) (bs rest : List ℕ) → Stops follows_name rest →
        token_at style n (printed_name (b ∷ bs) ++ rest) ≡ Begins (printed_kind (b ∷ bs)) (n + length (printed_name (b ∷ bs))) }
    ensures stands { (name : List ℕ) → stands_for (printed_kind name) (printed_name name) ≡ name }
{}

/// A printed value is lexed as one token, and the token stands for the value.
pub fn printed_values_are_read()
    ensures lexed { (style : Style) (n : ℕ) (value rest : List ℕ) → Stops follows_value rest →
        token_at style n (printed_value value ++ rest) ≡ Begins Text (n + length (printed_value value)) }
    ensures stands { (value : List ℕ) → stands_for Text (printed_value value) ≡ value }
{}

/// A printed text is cut into its lines, each with what its pieces stand for.
pub fn printed_lines_are_read()
    ensures { (lines : List (List Piece)) → ArePrintedLines Lines lines → AreLines (lines_text lines) (record { whole = numbered 1 lines; broken = None }) }
{}
