// What plans of texts keep.
ghost use Rattle.std.specs.Prelude.{◌≤◌};
ghost use Rattle.meaning.specs.declared.types.Plan.{Plan};
ghost use Rattle.plan_form.specs.Grammar.{places_of};
ghost use Rattle.rule_pass.specs.declared.pass.TheConstants.{HIGHEST_FIRST_LABEL};
ghost use Rattle.plan_check.specs.Forms.{HasFewColumns};

/// A plan with few places makes few columns, as each plan whose text is within the limit.
pub fn few_places_make_few_columns()
    ensures { (plan : Plan) → places_of plan ≤ HIGHEST_FIRST_LABEL → HasFewColumns plan }
{}
