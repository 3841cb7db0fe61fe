// What every schema keeps, as the definitions of plans and runs read it.
ghost use Rattle.std.specs.Prelude.{ℕ, List, Contains};
ghost use Rattle.meaning.specs.Plans.{IsWellFormed};
ghost use Rattle.meaning.specs.Fitting.{RulesFit};
ghost use Rattle.meaning.specs.Instances.{FitsRelation};
ghost use Rattle.meaning.specs.Sorts.{RuleIsSorted};
ghost use Rattle.meaning.specs.declared.types.Rule.{Rule};
ghost use Rattle.meaning.specs.declared.types.Atom.{Atom};
ghost use Rattle.access_schema.specs.declared.schema.Schema.{Schema};
ghost use Rattle.access_schema.specs.Meaning.{meaning_of};

/// The method names of a schema are distinct, and the inputs of its methods are columns.
pub fn schemas_are_well_formed()
    ensures { (schema : Schema) → IsWellFormed (meaning_of schema) }
{}

/// The rules of a schema are numbered through, their heads fit its relations, and each list with its constants has theirs.
pub fn rules_fit()
    ensures { (schema : Schema) (constants : List (List ℕ)) → ((c : List ℕ) → Contains schema.constants c → Contains constants c)
        → RulesFit (meaning_of schema) constants }
{}

/// The body atoms of a rule fit the schema's relations too.
pub fn bodies_fit()
    ensures { (schema : Schema) (rule : Rule) (atom : Atom) → Contains schema.rules rule → Contains rule.body atom
        → FitsRelation (meaning_of schema) atom.rel atom.terms }
{}

/// A constant of a rule at an integer column is an integer, and a variable at one stands at no other column.
pub fn rules_are_sorted()
    ensures { (schema : Schema) (rule : Rule) → Contains schema.rules rule → RuleIsSorted (meaning_of schema) rule }
{}
