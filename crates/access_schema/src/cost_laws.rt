// Costs of branches: laws on the definitions alone, as functions that do nothing.
ghost use Rattle.std.specs.Prelude.{◌≡◌, ℕ, List};
ghost use Rattle.meaning.specs.declared.types.Branch.{Branch};
ghost use Rattle.meaning.specs.Costs.{IsCost};
ghost use Rattle.meaning.specs.Plans.{IsLawfulBranch, NamesMethods};
ghost use Rattle.meaning.specs.Values.{Value};
ghost use Rattle.access_schema.specs.declared.schema.Schema.{Schema};
ghost use Rattle.access_schema.specs.Meaning.{meaning_of};

/// The steps of a lawful branch name methods of the schema, so it has a cost.
pub fn lawful_branches_name_methods()
    ensures { (schema : Schema) (constants : List Value) (branch : Branch) →
        IsLawfulBranch (meaning_of schema) constants branch → NamesMethods (meaning_of schema) branch.steps }
{}

/// A branch has at most one cost.
pub fn costs_are_unique()
    ensures { (schema : Schema) (branch : Branch) (cost other : ℕ) →
        IsCost (meaning_of schema) branch cost → IsCost (meaning_of schema) branch other → cost ≡ other }
{}
