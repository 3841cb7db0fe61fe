// What the texts of a world say, and what is so of each plan for them: laws on the definitions alone, as functions that do nothing.
ghost use Rattle.std.specs.Prelude.{◌≡◌, ◌↔◌, ◌+◌, ◌*◌, ◌≤◌, ℕ, List, [], Contains, Some, length, slice_get, take};
ghost use Rattle.meaning.specs.declared.types.Branch.{Branch};
ghost use Rattle.meaning.specs.declared.types.Fact.{Fact};
ghost use Rattle.meaning.specs.declared.types.Firing.{Firing};
ghost use Rattle.meaning.specs.declared.types.Query.{Query};
ghost use Rattle.meaning.specs.declared.types.Request.{Request};
ghost use Rattle.meaning.specs.declared.types.Step.{Step};
ghost use Rattle.meaning.specs.declared.types.Statement.{Statement};
ghost use Rattle.meaning.specs.Values.{Row};
ghost use Rattle.meaning.specs.Answers.{Answers};
ghost use Rattle.meaning.specs.Claims.{IsModel, IsEquivalent, Refutes};
ghost use Rattle.meaning.specs.Conjunctive.{IsConjunctive};
ghost use Rattle.meaning.specs.Costs.{IsCost, IsRival};
ghost use Rattle.meaning.specs.Plans.{IsLawful};
ghost use Rattle.meaning.specs.Requests.{IsRound, AreStepsRequests};
ghost use Rattle.meaning.specs.Runs.{Proof, IsRun, opening};
ghost use Rattle.access_schema.specs.declared.schema.Schema.{Schema};
ghost use Rattle.access_schema.specs.Meaning.{meaning_of};
ghost use Rattle.access_schema.specs.Names.{AllDiffer};
ghost use Rattle.tgd_reader.specs.SchemaText.{IsSchemaText, IsReadFault};
ghost use Rattle.tgd_reader.specs.declared.fault.ReadFault.{ReadFault};
ghost use Rattle.tgd_reader.specs.declared.fault.ReadFault.TheVariants as schema_fault;
ghost use Rattle.sql_select.specs.Statements.{IsStatementText, IsSqlFault};
ghost use Rattle.sql_select.specs.declared.fault.SqlFault.{SqlFault};
ghost use Rattle.sql_select.specs.declared.fault.SqlFault.TheVariants as query_fault;
ghost use Rattle.world_source.specs.Texts.{schema_text, query_text};
ghost use Rattle.world_laws.specs.World.{IsWorldSchema, world_select, world_statement};
ghost use Rattle.world_laws.specs.Plan.{world, world_branch, world_plan};
ghost use Rattle.world_laws.specs.Instance.{world_facts};

/// The schema text of a world is the text of the world's schema, and of no other.
pub fn schema_of_a_world()
    ensures read { (n : ℕ) → n ≤ 10000 → (schema : Schema) × IsWorldSchema n schema × IsSchemaText (schema_text n) schema }
    ensures alone { (n : ℕ) (schema : Schema) → n ≤ 10000 → IsSchemaText (schema_text n) schema → IsWorldSchema n schema }
    ensures meaning { (n : ℕ) (schema : Schema) → IsWorldSchema n schema → meaning_of schema ≡ world }
{}

/// The query text of a world is the world's statement over that schema, and no other.
pub fn statement_of_a_world()
    ensures read { (n : ℕ) (schema : Schema) → IsWorldSchema n schema → IsStatementText schema query_text world_statement }
    ensures alone { (n : ℕ) (schema : Schema) (statement : Statement) → IsWorldSchema n schema → IsStatementText schema query_text statement
        → statement ≡ world_statement }
{}

/// Neither text has a fault, so both are read unless memory runs out.
pub fn texts_of_a_world_have_no_fault()
    ensures schema { (n : ℕ) (fault : ReadFault) → n ≤ 10000 → IsReadFault (schema_text n) fault → fault ≡ schema_fault.NoMemory }
    ensures query { (n : ℕ) (schema : Schema) (fault : SqlFault) → n ≤ 10000 → IsSchemaText (schema_text n) schema
        → IsSqlFault schema query_text fault → fault ≡ query_fault.NoMemory }
{}

/// The plan of eight accesses is lawful and has the statement's answers wherever the rules are met; so no two sets of rows refute it. Its
/// one branch costs 8, and no branch for the select costs less.
pub fn plan_of_a_world()
    ensures lawful { IsLawful world_plan world [] }
    ensures equivalent { IsEquivalent world_plan world_statement world }
    ensures rival { IsRival world [] world_statement world_select world_branch }
    ensures cost { IsCost world world_branch 8 }
    ensures least { (branch : Branch) (cost : ℕ) → IsRival world [] world_statement world_select branch → IsCost world branch cost → 8 ≤ cost }
    ensures never_refuted { (first second : List Fact) (row : Row) → Refutes world [] world_statement first second row → ⊥ }
{}

/// A run of the statement's conjunctive form has at most 8 firings: each relation is exposed, or a fact of it is made in the copy.
pub fn runs_of_a_world_are_short()
    ensures { (query : Query) (log : List Firing) (end : Proof) → IsConjunctive world world_select query → IsRun world [] 0 (opening query) log end
        → length log ≤ 8 }
{}

/// The instance that the generator gives for n rows meets the rules, and the statement has n answers on it.
pub fn answers_of_a_world()
    ensures model { (n : ℕ) → 1 ≤ n → n ≤ 10000 → IsModel world (world_facts n) }
    ensures count { (n : ℕ) (rows : List Row) → 1 ≤ n → n ≤ 10000 → AllDiffer rows
        → ((row : Row) → Contains rows row ↔ Answers world_statement (world_facts n) row) → length rows ≡ n }
{}

/// On that instance each branch of least cost for the select makes 7n + 1 requests, and no round of it passes that.
pub fn requests_of_a_world()
    ensures count { (n : ℕ) (branch : Branch) (requests : List Request) → 1 ≤ n → n ≤ 10000 → IsRival world [] world_statement world_select branch
        → IsCost world branch 8 → AreStepsRequests world (world_facts n) [] branch.steps requests → length requests ≡ 7 * n + 1 }
    ensures within { (n : ℕ) (branch : Branch) (k : ℕ) (step : Step) (earlier now : List Request) → 1 ≤ n → n ≤ 10000
        → IsRival world [] world_statement world_select branch → IsCost world branch 8 → slice_get branch.steps k ≡ Some step
        → AreStepsRequests world (world_facts n) [] (take k branch.steps) earlier → IsRound world (world_facts n) (take k branch.steps) step now
        → length earlier + length now ≤ 7 * n + 1 }
{}
