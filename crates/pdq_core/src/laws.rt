// What runs of the program promise: laws on the definitions alone, as functions that do nothing.
ghost use Rattle.std.specs.Prelude.{◌≡◌, ◌≢◌, ◌↔◌, ◌<◌, ℕ, List, length};
ghost use Rattle.meaning.specs.declared.types.Fact.{Fact};
ghost use Rattle.meaning.specs.declared.types.Plan.{Plan};
ghost use Rattle.meaning.specs.declared.types.Statement.{Statement};
ghost use Rattle.access_schema.specs.declared.schema.Schema.{Schema};
ghost use Rattle.tgd_reader.specs.SchemaText.{IsSchemaText};
ghost use Rattle.sql_batch.specs.Batches.{IsBatchText};
ghost use Rattle.sql_select.specs.Statements.{IsStatementText};
ghost use Rattle.plan_form.specs.Grammar.{IsPlanText};
ghost use Rattle.source_trait.specs.declared.lanes.Lane.{Lane};
ghost use Rattle.middleware.specs.PlanSources.{IsAccessed};
ghost use Rattle.middleware.specs.LaneBranches.{OnEach};
ghost use Rattle.plan_batches.specs.Batching.{NeedsOf};
ghost use Rattle.command_io.specs.declared.exit_status.Status.{Status};
ghost use Rattle.command_io.specs.declared.exit_status.Status.TheVariants as ends_in;
ghost use Rattle.crawl.specs.Crawling.{IsReachable};
ghost use Rattle.command_io.specs.Moments.{Moment};
ghost use Rattle.command_words.specs.Words.{Command, IsCommand};
ghost use Rattle.rule_rows.specs.RuleRelations.{RulesName};
ghost use Rattle.rule_rows.specs.Verifying.{used};
ghost use Rattle.pdq_core.specs.Runs.{Runs};
ghost use Rattle.pdq_core.specs.Complete.{NoneRose, OnLanes, NoSourceRose, OfferInstance, OfferUntold, HasIntegers, HaveTextsAlone};
ghost use Rattle.pdq_core.specs.Complete.{KeepsCap, RoundsKeepCap, CrawlKeepsCap};
ghost use Rattle.pdq_core.specs.Complete.{Serve, CanExecute, CanExecuteAll, CanCrawl, CanTest, IsSupplied, IsAnswered};
ghost use Rattle.pdq_core.specs.Statuses.{SaysOf};
ghost use Rattle.pdq_core.specs.Exact.{HasNoLongRun, DecidesAlone, HasNone};
ghost use Rattle.pdq_core.specs.Verified.{SaysOfVerified};

use command_words::words_are_one_command;
use source_trait::Source;

/// A run without faults is answered. Where the words are a command, what it needs is supplied and no count of faults of the
/// files and the outputs rose, the status is `Done`, `No` or `Undecided`, or memory was wanted. A rule that is not met is an answer.
pub fn runs_without_faults_are_answered<S: Source>()
    ensures { (words : List (List ℕ)) (command : Command) (before after : Moment) (old new : List (Lane S)) (status : Status) →
        Runs S.seen words before after old new status → IsCommand words command → NoneRose before after →
        IsSupplied S.seen command before after old new → IsAnswered status }
{
    words_are_one_command();
}

/// What the law above needs of sources can be given. Where those of each used lane tell what they hold, offer one instance within
/// their limits and do not fail, they serve. If the instance has integers at integer columns, the rules can be tested; and a plan can be
/// executed, several together, or the methods crawled, if no round of that on the instance passes the cap.
pub fn sources_that_tell_serve<S: Source>()
    ensures plan { (schema : Schema) (plan : Plan) (calls : ℕ) (old new : List (Lane S)) (instance : List Fact) →
        ((rel : ℕ) → IsAccessed schema plan rel → 0 < length old) →
        OnEach old (λ kinds. OfferInstance S.seen schema (IsAccessed schema plan) kinds instance) → OnLanes (NoSourceRose S.seen schema (IsAccessed schema plan)) old new →
        HasIntegers schema (IsAccessed schema plan) instance → KeepsCap schema plan instance calls →
        CanExecute S.seen schema plan calls old new }
    ensures rules { (schema : Schema) (old new : List (Lane S)) (instance : List Fact) →
        OfferInstance S.seen schema (RulesName schema) (used old) instance → NoSourceRose S.seen schema (RulesName schema) (used old) (used new) →
        Serve S.seen schema (RulesName schema) (used old) (used new) }
    ensures tests { (schema : Schema) (old new : List (Lane S)) (instance : List Fact) →
        OfferInstance S.seen schema (RulesName schema) (used old) instance → NoSourceRose S.seen schema (RulesName schema) (used old) (used new) →
        HasIntegers schema (RulesName schema) instance → CanTest S.seen schema old new }
    ensures batch { (schema : Schema) (plans : List Plan) (calls : ℕ) (old new : List (Lane S)) (instance : List Fact) →
        ((rel : ℕ) → NeedsOf schema plans rel → 0 < length old) →
        OnEach old (λ kinds. OfferInstance S.seen schema (NeedsOf schema plans) kinds instance) →
        OnLanes (NoSourceRose S.seen schema (NeedsOf schema plans)) old new → HasIntegers schema (NeedsOf schema plans) instance →
        RoundsKeepCap schema plans instance calls → CanExecuteAll S.seen schema plans calls old new }
    ensures crawl { (schema : Schema) (calls : ℕ) (old new : List (Lane S)) (instance : List Fact) →
        ((rel : ℕ) → IsReachable schema rel → 0 < length old) →
        OnEach old (λ kinds. OfferInstance S.seen schema (IsReachable schema) kinds instance) →
        OnLanes (NoSourceRose S.seen schema (IsReachable schema)) old new → HasIntegers schema (IsReachable schema) instance →
        CrawlKeepsCap schema instance calls → CanCrawl S.seen schema calls old new }
{}

/// Sources that tell nothing of what they offer can supply it too, as those over files of the system: they serve where each line has a
/// source of its kind on each used lane and none failed. The rules can be tested if no relation that they name has an integer column.
pub fn sources_that_do_not_tell_serve<S: Source>()
    ensures plan { (schema : Schema) (plan : Plan) (old new : List (Lane S)) →
        OnEach old (OfferUntold S.seen schema (IsAccessed schema plan)) → OnLanes (NoSourceRose S.seen schema (IsAccessed schema plan)) old new →
        OnLanes (Serve S.seen schema (IsAccessed schema plan)) old new }
    ensures rules { (schema : Schema) (old new : List (Lane S)) →
        OfferUntold S.seen schema (RulesName schema) (used old) → NoSourceRose S.seen schema (RulesName schema) (used old) (used new) →
        Serve S.seen schema (RulesName schema) (used old) (used new) }
    ensures tests { (schema : Schema) (old new : List (Lane S)) → HaveTextsAlone schema (RulesName schema) →
        OfferUntold S.seen schema (RulesName schema) (used old) → NoSourceRose S.seen schema (RulesName schema) (used old) (used new) →
        CanTest S.seen schema old new }
    ensures batch { (schema : Schema) (plans : List Plan) (old new : List (Lane S)) →
        OnEach old (OfferUntold S.seen schema (NeedsOf schema plans)) → OnLanes (NoSourceRose S.seen schema (NeedsOf schema plans)) old new →
        OnLanes (Serve S.seen schema (NeedsOf schema plans)) old new }
    ensures crawl { (schema : Schema) (old new : List (Lane S)) →
        OnEach old (OfferUntold S.seen schema (IsReachable schema)) → OnLanes (NoSourceRose S.seen schema (IsReachable schema)) old new →
        OnLanes (Serve S.seen schema (IsReachable schema)) old new }
{}

/// The status of `explain` and of `run` with no rules tested first is right. `Done` says that some lawful plan is
/// equivalent to the statement on every instance that meets the rules, `No` that none is equivalent to it on every
/// instance of integers that meets them, and `Undecided` that there is a longer ordered run than the firings given. So
/// is that of `batch`: `Done` says it of each statement, and `No` and `Undecided` say it of one, and that each before
/// it has a plan. That of `check` is right too: `Done` says that the plan is lawful and equivalent to the statement on
/// every instance of integers that meets the rules, `No` that it is not, and `Undecided` that a base run from a frozen
/// select or branch is longer than the firings given. Of `crawl` and `reach` it is none but `Done` or that of a stop.
pub fn statuses_are_right<S: Source>()
    ensures { (words : List (List ℕ)) (command : Command) (before after : Moment) (old new : List (Lane S)) (status : Status) →
        Runs S.seen words before after old new status → IsCommand words command → SaysOf command before.files status }
{
    words_are_one_command();
}

/// The status of `run` with the rules tested first is right. `Done` says that some lawful plan is equivalent to the
/// statement, and that whatever instance the first lane holds meets the rules; `No` that no plan is equivalent on every
/// instance of integers that meets the rules, or that no instance that the first lane holds meets them; and `Undecided`
/// that there is a longer ordered run than the firings given.
pub fn verified_statuses_are_right<S: Source>()
    ensures { (words : List (List ℕ)) (command : Command) (before after : Moment) (old new : List (Lane S)) (status : Status) →
        Runs S.seen words before after old new status → IsCommand words command → SaysOfVerified S.seen command before.files new status }
{
    words_are_one_command();
}

/// The status of `explain`, `run`, `batch` and `check` is exact where the texts of their files are given and no run is
/// longer than the firings given: no ordered run from a select, and for `check` no base run from a frozen select or
/// branch. Then it is never `Undecided`; and where the command is answered, memory was found and no rules are tested
/// first, it is `No` exactly where no lawful plan is equivalent to the statement on every instance of integers that
/// meets the rules, for `batch` to one of the statements, and for `check` exactly where the plan is not lawful or not
/// equivalent to it on these.
pub fn statuses_are_exact<S: Source>()
    ensures undecided { (words : List (List ℕ)) (command : Command) (before after : Moment) (old new : List (Lane S)) (status : Status) →
        Runs S.seen words before after old new status → IsCommand words command → HasNoLongRun command before.files → status ≢ ends_in.Undecided }
    ensures none { (words : List (List ℕ)) (command : Command) (before after : Moment) (old new : List (Lane S)) (status : Status) →
        Runs S.seen words before after old new status → IsCommand words command → IsAnswered status → status ≢ ends_in.Memory →
        HasNoLongRun command before.files → DecidesAlone command → (status ≡ ends_in.No) ↔ HasNone command before.files }
{
    words_are_one_command();
}

/// A text is that of one schema at most, over a schema of one statement and of one batch at most, and of one plan at most. So what the laws
/// above take as given is what the program read.
pub fn texts_mean_one_thing()
    ensures schema { (text : List ℕ) (one other : Schema) → IsSchemaText text one → IsSchemaText text other → one ≡ other }
    ensures statement { (schema : Schema) (text : List ℕ) (one other : Statement) → IsStatementText schema text one → IsStatementText schema text other → one ≡ other }
    ensures batch { (schema : Schema) (text : List ℕ) (one other : List Statement) → IsBatchText schema text one →
        IsBatchText schema text other → one ≡ other }
    ensures plan { (text : List ℕ) (one other : Plan) → IsPlanText text one → IsPlanText text other → one ≡ other }
{}
