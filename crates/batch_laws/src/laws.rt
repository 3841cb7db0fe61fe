// What a batch has in common with runs of its queries: laws on the definitions alone, as functions that do nothing.
ghost use Rattle.std.specs.Prelude.{◌≡◌, ◌<◌, ◌≤◌, ◌^◌, ◌++◌, List, ℕ, Ok, Some, slice_get};
ghost use Rattle.meaning.specs.declared.types.Fact.{Fact};
ghost use Rattle.meaning.specs.declared.types.Plan.{Plan};
ghost use Rattle.meaning.specs.Claims.{IsModel};
ghost use Rattle.access_schema.specs.declared.schema.Schema.{Schema};
ghost use Rattle.access_schema.specs.Meaning.{meaning_of};
ghost use Rattle.source_trait.specs.declared.lanes.Lane.{Lane};
ghost use Rattle.middleware.specs.LaneBranches.{LanesHoldPlan};
ghost use Rattle.middleware.specs.declared.fault.Run.{Run};
ghost use Rattle.plan_execution.specs.Executing.{Executes};
ghost use Rattle.plan_batches.specs.Batching.{ExecutesAll};
ghost use Rattle.plan_form.specs.Grammar.{IsPlanText};
ghost use Rattle.command_io.specs.Inputs.{Contents, SchemaIsRead};
ghost use Rattle.command_io.specs.Writing.{TookAll};
ghost use Rattle.command_io.specs.declared.outcome.Outcome.TheVariants.{Done, No};
ghost use Rattle.batch_command.specs.Deciding.{query_line};
ghost use Rattle.batch_command.specs.Ends.{answer_line};
ghost use Rattle.batch_laws.specs.Alone.{Went, IsBatch, IsRun, LanesHold};

use source_trait::Source;

/// A plan that is executed together with others has the rows that it has alone, and wants no more requests, where the lanes of both hold
/// one instance as far as the plan accesses it.
pub fn plans_keep_their_rows<S: Source>()
    ensures { (schema : Schema) (plans : List Plan) (k : ℕ) (plan : Plan) (instance : List Fact) (alone_cap cap : ℕ)
        (old new others after : List (Lane S)) (alone : Run) (runs : List Run) (run : Run) →
        slice_get plans k ≡ Some plan → slice_get runs k ≡ Some run →
        Executes S.seen schema plan alone_cap old new (Ok alone) → ExecutesAll S.seen schema plans cap others after (Ok runs) →
        LanesHoldPlan S.seen schema plan new instance → LanesHoldPlan S.seen schema plan after instance →
        (run.rows ≡ alone.rows) × (run.made ≤ alone.made) }
{}

/// A batch of one query gives the answer of a run of it, behind the line of its number: where both are done, and the lanes of both hold one
/// instance that meets the rules. How many lanes there are, and whether the run tests the rules first, makes no difference.
pub fn one_query_has_one_answer<S: Source>()
    ensures { (schema_name query_name : List ℕ) (files : Contents) (run batch : Went S) (schema : Schema) (instance : List Fact) →
        IsRun S.seen schema_name query_name files run (Ok Done) → IsBatch S.seen schema_name query_name files batch (Ok Done) →
        SchemaIsRead (Some files) schema_name schema → IsModel (meaning_of schema) instance →
        LanesHold S.seen schema run.new instance → LanesHold S.seen schema batch.new instance →
        (text : List ℕ) × TookAll run.before.out run.after.out text × TookAll batch.before.out batch.after.out (answer_line 1 ++ text) }
{}

/// A batch of one query and a run of it do not decide it in two ways: where one of them is done, the other does not say
/// that there is no plan for the instances of integers.
pub fn one_query_has_one_decision<S: Source>()
    ensures run_done { (schema_name query_name : List ℕ) (files : Contents) (run batch : Went S) →
        IsRun S.seen schema_name query_name files run (Ok Done) → IsBatch S.seen schema_name query_name files batch (Ok No) → ⊥ }
    ensures batch_done { (schema_name query_name : List ℕ) (files : Contents) (run batch : Went S) →
        IsRun S.seen schema_name query_name files run (Ok No) → IsBatch S.seen schema_name query_name files batch (Ok Done) → ⊥ }
{}

/// The text of a plan behind the line of its query, as a batch prints it, is the text of the same plan, as `exec` and `check` read it.
pub fn numbered_plans_are_plans()
    ensures { (number : ℕ) (text : List ℕ) (plan : Plan) → number < 2 ^ 64 → IsPlanText text plan
        → IsPlanText (query_line number ++ text) plan }
{}
