// What a branch that is read off exposures is worth.
ghost use Rattle.std.specs.Prelude.{◌≡◌, ◌↔◌, List, [], ℕ, Contains, length, map};
ghost use Rattle.meaning.specs.declared.types.SchemaParts.{SchemaParts};
ghost use Rattle.meaning.specs.declared.types.Fact.{Fact};
ghost use Rattle.meaning.specs.declared.types.Query.{Query};
ghost use Rattle.meaning.specs.declared.types.Ground.{Ground};
ghost use Rattle.meaning.specs.declared.types.Val.{Val};
ghost use Rattle.meaning.specs.declared.types.Val.TheVariants.{Label};
ghost use Rattle.meaning.specs.Values.{Row};
ghost use Rattle.meaning.specs.Plans.{IsWellFormed};
ghost use Rattle.meaning.specs.Rows.{IsBranchRow};
ghost use Rattle.meaning.specs.Fitting.{QueryFits, QueryHasConstants};
ghost use Rattle.meaning.specs.Runs.{frozen_head};
ghost use Rattle.meaning.specs.Triggers.{ground};
ghost use Rattle.meaning.specs.Extract.{Exposure, exposed_facts, IsExposing, IsHeadKnown, branch_of};
ghost use Rattle.plan_extract.specs.Branches.{IsBranchOf};

/// Where the atoms of a query, frozen, are all exposed, one after another by methods with known inputs, the branch that is read off
/// is lawful and its rows are the query's answers, on every instance.
pub fn exposed_atoms_answer()
    ensures { (schema : SchemaParts) (constants : List (List ℕ)) (query : Query) (exposures : List Exposure) →
        IsWellFormed schema → QueryFits schema query → QueryHasConstants constants query →
        IsExposing schema constants (map (ground Label) query.atoms) [] exposures →
        ((fact : Ground) → Contains (map (ground Label) query.atoms) fact → Contains (exposed_facts exposures) fact) →
        IsBranchOf schema constants query (branch_of exposures (frozen_head query)) }
{}

/// The rows of the branch of exposures are the same in every order of them, on every instance.
pub fn rows_in_any_order()
    ensures { (schema : SchemaParts) (first second : List Exposure) (head : List Val) (instance : List Fact) (row : Row) →
        IsWellFormed schema → ((e : Exposure) → Contains first e → Contains schema.methods e.method × (e.method.rel ≡ e.fact.rel)) →
        ((e : Exposure) → Contains second e → Contains first e) → ((e : Exposure) → Contains first e → Contains second e) →
        IsHeadKnown first head → IsBranchRow schema (branch_of first head) instance row →
        IsBranchRow schema (branch_of second head) instance row }
{}
