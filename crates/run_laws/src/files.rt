// What runs over data files are given: laws on the definitions alone, as functions that do nothing.
ghost use Rattle.std.specs.Prelude.{◌<◌, ℕ, List, None, Some, length};
ghost use Rattle.meaning.specs.declared.types.Fact.{Fact};
ghost use Rattle.meaning.specs.declared.types.Plan.{Plan};
ghost use Rattle.access_schema.specs.declared.schema.Schema.{Schema};
ghost use Rattle.source_trait.specs.declared.lanes.Lane.{Lane};
ghost use Rattle.middleware.specs.PlanSources.{IsAccessed};
ghost use Rattle.middleware.specs.LaneBranches.{OnEach};
ghost use Rattle.rule_rows.specs.RuleRelations.{RulesName};
ghost use Rattle.rule_rows.specs.Verifying.{used};
ghost use Rattle.pdq_core.specs.Complete.{OnLanes, NoSourceRose, HasIntegers, HaveTextsAlone, KeepsCap, Serve, CanExecute, CanTest};
ghost use Rattle.run_laws.specs.Files.{AllHaveKind, FilesGive, HasFolder};

use pdq_core::laws::{sources_that_do_not_tell_serve, sources_that_tell_serve};
use source_trait::Source;

/// The program's own sources supply what a run without faults is given, for any number of relations. Where each used lane has a new
/// folder of the same data files, which tell what they hold, these give each relation that is needed the rows of an instance, and do not
/// fail, they serve. If the instance has integers at integer columns, the rules can be tested; and a plan can be executed if no round of it
/// on the instance passes the cap.
pub fn told_files_serve<S: Source>()
    ensures plan { (schema : Schema) (plan : Plan) (calls : ℕ) (old new : List (Lane S)) (instance : List Fact) (kind : List ℕ) (files : List (List ℕ × List ℕ)) →
        ((rel : ℕ) → IsAccessed schema plan rel → 0 < length old) → OnEach old (HasFolder S.seen kind (Some files)) → FilesGive schema (IsAccessed schema plan) kind files instance →
        OnLanes (NoSourceRose S.seen schema (IsAccessed schema plan)) old new → HasIntegers schema (IsAccessed schema plan) instance →
        KeepsCap schema plan instance calls → CanExecute S.seen schema plan calls old new }
    ensures rules { (schema : Schema) (old new : List (Lane S)) (instance : List Fact) (kind : List ℕ) (files : List (List ℕ × List ℕ)) →
        HasFolder S.seen kind (Some files) (used old) → FilesGive schema (RulesName schema) kind files instance →
        NoSourceRose S.seen schema (RulesName schema) (used old) (used new) → Serve S.seen schema (RulesName schema) (used old) (used new) }
    ensures tests { (schema : Schema) (old new : List (Lane S)) (instance : List Fact) (kind : List ℕ) (files : List (List ℕ × List ℕ)) →
        HasFolder S.seen kind (Some files) (used old) → FilesGive schema (RulesName schema) kind files instance →
        NoSourceRose S.seen schema (RulesName schema) (used old) (used new) → HasIntegers schema (RulesName schema) instance →
        CanTest S.seen schema old new }
{
    sources_that_tell_serve::<S>();
}

/// The same of new folders of files that tell nothing, as those of the system: they serve where the lines have their kind and they do not
/// fail. The rules can be tested if no relation that they name has an integer column.
pub fn untold_files_serve<S: Source>()
    ensures plan { (schema : Schema) (plan : Plan) (old new : List (Lane S)) (kind : List ℕ) →
        OnEach old (HasFolder S.seen kind None) → AllHaveKind schema (IsAccessed schema plan) kind →
        OnLanes (NoSourceRose S.seen schema (IsAccessed schema plan)) old new → OnLanes (Serve S.seen schema (IsAccessed schema plan)) old new }
    ensures rules { (schema : Schema) (old new : List (Lane S)) (kind : List ℕ) →
        HasFolder S.seen kind None (used old) → AllHaveKind schema (RulesName schema) kind →
        NoSourceRose S.seen schema (RulesName schema) (used old) (used new) → Serve S.seen schema (RulesName schema) (used old) (used new) }
    ensures tests { (schema : Schema) (old new : List (Lane S)) (kind : List ℕ) → HaveTextsAlone schema (RulesName schema) →
        HasFolder S.seen kind None (used old) → AllHaveKind schema (RulesName schema) kind →
        NoSourceRose S.seen schema (RulesName schema) (used old) (used new) → CanTest S.seen schema old new }
{
    sources_that_do_not_tell_serve::<S>();
}
