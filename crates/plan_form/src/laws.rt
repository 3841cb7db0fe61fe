// What plan texts and lawful plans promise their readers: laws on the definitions alone, as functions that do nothing.
ghost use Rattle.std.specs.Prelude.{◌≡◌, ℕ, List};
ghost use Rattle.meaning.specs.declared.types.Plan.{Plan};
ghost use Rattle.meaning.specs.declared.types.SchemaParts.{SchemaParts};
ghost use Rattle.meaning.specs.Plans.{IsWellFormed, IsLawful};
ghost use Rattle.plan_form.specs.declared.fault.PlanFault.{PlanFault};
ghost use Rattle.plan_form.specs.declared.fault.PlanReadFault.{PlanReadFault};
ghost use Rattle.plan_form.specs.declared.fault.PlanReadFault.TheVariants.{NoMemory};
ghost use Rattle.plan_form.specs.Fitting.{IsWritable};
ghost use Rattle.plan_form.specs.Printing.{plan_text};
ghost use Rattle.plan_form.specs.Faults.{IsFirstFault};
ghost use Rattle.plan_form.specs.Grammar.{SaysPlan, IsPlanText, IsPlanReadFault};

/// The text of a plan says that plan, whatever bytes its names and constants are.
pub fn printed_plans_are_read()
    ensures { (plan : Plan) → IsWritable plan → SaysPlan (plan_text plan) plan }
{}

/// Bytes that are the text of a plan have no fault.
pub fn plan_texts_have_no_fault()
    ensures { (bytes : List ℕ) (plan : Plan) (fault : PlanReadFault) → IsPlanText bytes plan → IsPlanReadFault bytes fault → fault ≡ NoMemory }
{}

/// A lawful plan has no fault.
pub fn lawful_plans_have_no_fault()
    ensures { (schema : SchemaParts) (constants : List (List ℕ)) (plan : Plan) (fault : PlanFault) → IsWellFormed schema
        → IsLawful plan schema constants → IsFirstFault plan schema constants fault → ⊥ }
{}
