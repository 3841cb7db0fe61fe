// Laws of batches and of their faults.
ghost use Rattle.std.specs.Prelude.{◌≡◌, ◌≢◌, ℕ, List, [], ◌∷◌};
ghost use Rattle.meaning.specs.declared.types.Statement.{Statement};
ghost use Rattle.access_schema.specs.declared.schema.Schema.{Schema};
ghost use Rattle.sql_select.specs.declared.fault.SqlFault.{SqlFault};
ghost use Rattle.sql_select.specs.declared.fault.SqlFault.TheVariants.{NoMemory};
ghost use Rattle.sql_select.specs.Statements.{IsStatementText};
ghost use Rattle.sql_batch.specs.Batches.{IsBatchText, IsBatchFault};

/// Bytes are one batch over a schema at most.
pub fn one_batch()
    ensures { (schema : Schema) (bytes : List ℕ) (first second : List Statement) → IsBatchText schema bytes first
        → IsBatchText schema bytes second → first ≡ second }
{}

/// Bytes that are a batch have no fault.
pub fn batches_have_no_fault()
    ensures { (schema : Schema) (bytes : List ℕ) (statements : List Statement) (fault : SqlFault) → IsBatchText schema bytes statements
        → IsBatchFault schema bytes fault → fault ≡ NoMemory }
{}

/// Bytes have one fault at most.
pub fn one_batch_fault()
    ensures { (schema : Schema) (bytes : List ℕ) (first second : SqlFault) → IsBatchFault schema bytes first
        → IsBatchFault schema bytes second → first ≢ NoMemory → second ≢ NoMemory → first ≡ second }
{}

/// A text of one query is a batch of that statement.
pub fn one_query_is_a_batch()
    ensures { (schema : Schema) (bytes : List ℕ) (statement : Statement) → IsStatementText schema bytes statement
        → IsBatchText schema bytes (statement ∷ []) }
{}
