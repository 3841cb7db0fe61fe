// Laws of the grammar, of the table of places, and of faults.
ghost use Rattle.std.specs.Prelude.{◌≡◌, ◌≢◌, ℕ, List};
ghost use Rattle.pq_text.specs.declared.token.Token.{Token};
ghost use Rattle.meaning.specs.declared.types.Statement.{Statement};
ghost use Rattle.access_schema.specs.declared.schema.Schema.{Schema};
ghost use Rattle.sql_select.specs.declared.piece.Piece.{Piece};
ghost use Rattle.sql_select.specs.declared.piece.RawSelect.{RawSelect};
ghost use Rattle.sql_select.specs.declared.fault.SqlFault.{SqlFault};
ghost use Rattle.sql_select.specs.declared.fault.SqlFault.TheVariants.{NoMemory};
ghost use Rattle.sql_select.specs.Grammar.{IsText, Place, Leads, IsLast};
ghost use Rattle.sql_select.specs.Statements.{IsStatementText, IsSqlFault};

/// From every place some pieces lead to the end, so what stands before a fault always begins some query.
pub fn places_reach_the_end()
    ensures { (token : Token) (place : Place) → (pieces : List Piece) × (last : Place) × Leads place pieces last × IsLast last }
{}

/// Pieces are those of one query at most.
pub fn one_reading()
    ensures { (first second : List RawSelect) (pieces : List Piece) → IsText first pieces → IsText second pieces → first ≡ second }
{}

/// Bytes are one statement over a schema at most.
pub fn one_statement()
    ensures { (schema : Schema) (bytes : List ℕ) (first second : Statement) → IsStatementText schema bytes first
        → IsStatementText schema bytes second → first ≡ second }
{}

/// Bytes that are a statement have no fault.
pub fn statements_have_no_fault()
    ensures { (schema : Schema) (bytes : List ℕ) (statement : Statement) (fault : SqlFault) → IsStatementText schema bytes statement
        → IsSqlFault schema bytes fault → fault ≡ NoMemory }
{}

/// Bytes have one fault at most.
pub fn one_fault()
    ensures { (schema : Schema) (bytes : List ℕ) (first second : SqlFault) → IsSqlFault schema bytes first → IsSqlFault schema bytes second
        → first ≢ NoMemory → second ≢ NoMemory → first ≡ second }
{}
