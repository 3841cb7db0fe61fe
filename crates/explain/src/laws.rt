// What printed decisions promise their readers: laws on the definitions alone, as functions that do nothing.
ghost use Rattle.std.specs.Prelude.{List, ℕ};
ghost use Rattle.access_schema.specs.declared.schema.Schema.{Schema};
ghost use Rattle.findings.specs.declared.refutation.Witness.{Witness};
ghost use Rattle.meaning.specs.declared.types.Plan.{Plan};
ghost use Rattle.findings.specs.declared.decision.Chosen.{Chosen};
ghost use Rattle.plan_form.specs.Fitting.{IsWritable};
ghost use Rattle.plan_form.specs.Grammar.{SaysPlan};
ghost use Rattle.explain.specs.Printing.{IsPrintedWitness, planned_text};
ghost use Rattle.explain.specs.Grammar.{FitsSchema, IsReadAs};

/// A printed refutation is read with the same answer and the same facts, whatever bytes its names and values are.
pub fn printed_refutations_are_read()
    ensures { (schema : Schema) (pair : Witness) (text : List ℕ) → FitsSchema schema pair → IsPrintedWitness schema pair text → IsReadAs schema text pair }
{}

/// A plan's text behind the comment lines of selects says the plan: its reader passes over comment lines.
pub fn printed_plans_say_the_plan()
    ensures { (entries : List Chosen) (plan : Plan) → IsWritable plan → SaysPlan (planned_text entries plan) plan }
{}
