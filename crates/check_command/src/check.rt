// A plan, from the texts of the files to the text of the verdict.
ghost use Rattle.std.specs.Prelude.{◌≡◌, ◌≤◌, IfOk, IfErr};
ghost use Rattle.sql_select.specs.Statements.{StatementFits};
ghost use Rattle.plan_form.specs.Fitting.{HasFewSteps};
ghost use Rattle.rule_pass.specs.declared.pass.TheConstants.{MOST_FIRINGS};
ghost use Rattle.plan_check.specs.Forms.{HasFewColumns};
ghost use Rattle.plan_check.specs.Verdicts.{IsVerdict};
ghost use Rattle.explain.specs.Verdicts.{IsVerdictText};
ghost use Rattle.command_io.specs.Moments.{Stays};
ghost use Rattle.check_command.specs.Ends.{outcome_of, JudgeEnds, CheckEnds};

use access_schema::Schema;
use command_io::{
    FileNames, Outcome, Outputs, Outside, Stop, plan_of_file, print, read_texts, tell,
};
use explain::verdict_text;
use findings::Verdict;
use lists::{Bytes, Text};
use meaning::types::{Plan, Statement};
use plan_check::judge;
use source_trait::{Files, Sink};
use std::alloc::Global;

/// Judges the plan of the third file for the query of the second, over the schema of the first, with at most so many firings for each
/// select and each branch, and writes the text of the verdict to `out`; says why it stopped. No source is needed.
pub fn check_plan<F: Files, O: Sink, E: Sink>(
    alloc: Global,
    schema_name: &Text,
    query_name: &Text,
    plan_name: &Text,
    firings: u32,
    outside: &mut Outside<F, O, E>,
) -> Result<Outcome, Stop>
    requires { firings ≤ MOST_FIRINGS }
    ensures ends { CheckEnds schema_name.now query_name.now plan_name.now firings outside.old outside.new result }
    ensures stays { Stays outside.old outside.new }
{
    let names = FileNames {
        schema: schema_name.as_str(),
        query: query_name.as_str(),
        plan: plan_name.as_str(),
    };
    let (schema, statement) = match read_texts(alloc, &mut outside.files, schema_name, query_name) {
        Ok(both) => both,
        Err(stop) => return Err(tell(alloc, &mut outside.outputs.err, stop, names, &[])),
    };
    let plan = match plan_of_file(alloc, &mut outside.files, plan_name) {
        Ok(plan) => plan,
        Err(stop) => return Err(tell(alloc, &mut outside.outputs.err, stop, names, &[])),
    };
    show(
        alloc,
        names,
        &schema,
        &statement,
        &plan,
        firings,
        &mut outside.outputs,
    )
}

// Judges the plan, and writes the text of the verdict.
fn show<O: Sink, E: Sink>(
    alloc: Global,
    names: FileNames<'_>,
    schema: &Schema,
    statement: &Statement,
    plan: &Plan,
    firings: u32,
    outputs: &mut Outputs<O, E>,
) -> Result<Outcome, Stop>
    requires fits { StatementFits schema.now statement.now }
    requires few { HasFewSteps plan.now }
    requires columns { HasFewColumns plan.now }
    requires budget { firings ≤ MOST_FIRINGS }
    ensures ends { JudgeEnds schema.now statement.now plan.now firings (record { schema = names.entry.schema.now; query = names.entry.query.now; plan = names.entry.plan.now; relations = schema.now.relations }) outputs.old outputs.new result }
    ensures later_out { outputs.old.out_faults ≤ outputs.new.out_faults }
    ensures later_err { outputs.old.err_faults ≤ outputs.new.err_faults }
{
    let relations = schema.relations.as_slice();
    let (verdict, text) = match judged(alloc, schema, statement, plan, firings) {
        Ok(both) => both,
        Err(stop) => return Err(tell(alloc, &mut outputs.err, stop, names, relations)),
    };
    match print(&mut outputs.out, text.as_slice(), Stop::ResultWrite) {
        Ok(()) => Ok(outcome(&verdict)),
        Err(stop) => Err(tell(alloc, &mut outputs.err, stop, names, relations)),
    }
}

// The verdict and its text. `Stop::Memory` is the only refusal.
fn judged(
    alloc: Global,
    schema: &Schema,
    statement: &Statement,
    plan: &Plan,
    firings: u32,
) -> Result<(Verdict, Bytes), Stop>
    requires fits { StatementFits schema.now statement.now }
    requires few { HasFewSteps plan.now }
    requires columns { HasFewColumns plan.now }
    requires budget { firings ≤ MOST_FIRINGS }
    ensures verdict { IfOk result (λ both. IsVerdict schema.now statement.now plan.now firings both.0) }
    ensures text { IfOk result (λ both. IsVerdictText schema.now both.0 both.1) }
    ensures memory { IfErr result (λ stop. stop ≡ Stop.Memory) }
{
    let verdict = match judge(alloc, schema, statement, plan, firings) {
        Ok(verdict) => verdict,
        Err(_) => return Err(Stop::Memory),
    };
    match verdict_text(alloc, &verdict, schema) {
        Ok(text) => Ok((verdict, text)),
        Err(_) => Err(Stop::Memory),
    }
}

// The outcome of a verdict.
fn outcome(verdict: &Verdict) -> Outcome
    ensures { result ≡ outcome_of verdict.now }
{
    match verdict {
        Verdict::Equivalent => Outcome::Done,
        Verdict::Illegal(_) => Outcome::No,
        Verdict::Loses(_, _) => Outcome::No,
        Verdict::Adds(_, _) => Outcome::No,
        Verdict::Undecided { side: _, log: _ } => Outcome::Undecided,
    }
}
