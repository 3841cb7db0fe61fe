// Worked examples of the definitions, with values that were computed by hand: what each notion says of a small schema,
// and what it does not say. A definition that is changed by a mistake is refused here, or by a law.

ghost use Rattle.std.specs.Prelude.{◌≡◌, ℕ, List, [], ◌∷◌, codes};
ghost use Rattle.meaning.specs.declared.types.Fact.{Fact};
ghost use Rattle.meaning.specs.declared.types.Plan.{Plan};
ghost use Rattle.meaning.specs.declared.types.SchemaParts.{SchemaParts};
ghost use Rattle.meaning.specs.declared.types.Ground.{Ground};
ghost use Rattle.meaning.specs.declared.types.Firing.{Firing};
ghost use Rattle.meaning.specs.declared.types.Firing.TheVariants.{Expose};
ghost use Rattle.meaning.specs.Values.{Value};
ghost use Rattle.meaning.specs.Instances.{IsInstance};
ghost use Rattle.meaning.specs.Matching.{Meets};
ghost use Rattle.meaning.specs.Answers.{Answers};
ghost use Rattle.meaning.specs.Access.{IsAccessible};
ghost use Rattle.meaning.specs.Plans.{IsLawful};
ghost use Rattle.meaning.specs.Rows.{IsRow};
ghost use Rattle.meaning.specs.Requests.{IsRound, AreRequests};
ghost use Rattle.meaning.specs.Crawls.{IsCrawlRound, AreCrawlRounds, IsCrawl};
ghost use Rattle.meaning.specs.Claims.{IsModel, IsEquivalent, Refutes};
ghost use Rattle.meaning.specs.Costs.{IsCost};
ghost use Rattle.meaning.specs.Triggers.{State};
ghost use Rattle.meaning.specs.Runs.{IsBaseRun, Proof, IsRun, IsOrderedRun, HasGoal, opening, frozen_head};
ghost use Rattle.meaning.specs.Conjunctive.{IsConjunctive};
ghost use Rattle.meaning_laws.specs.Small.{closed_schema, open_schema, r_statement, r_query, hasty_log, hasty_end, fed_first, both_active, s_trigger, t_trigger, fed};
ghost use Rattle.meaning_laws.specs.Staff.{staff, ruleless, smith, jones, smiths, smiths_statement, smiths_query, known, profile, office, unlisted, ask_directory, ask_profile, profile_request, directory_request, office_rounds, office_requests, smiths_branch, smiths_plan, guessing_plan, careless_plan, adding, smiths_requests, smiths_log, smiths_end, unreachable, unreachable_answer};

/// The office is an instance of the staff schema and meets its rule.
pub fn office_is_a_model()
    ensures { IsModel staff office }
{}

/// A profile that is not in the directory breaks the rule.
pub fn unlisted_breaks_the_rule()
    ensures { Meets unlisted staff → ⊥ }
{}

/// A profile is accessible by the number that the directory gives.
pub fn profile_is_accessible()
    ensures { IsAccessible staff known office (profile (codes "1") (codes "101") smith) }
{}

/// A profile whose number stands nowhere else is not accessible.
pub fn unlisted_is_not_accessible()
    ensures { IsAccessible staff known unlisted (profile (codes "4") (codes "104") smith) → ⊥ }
{}

/// The numbers of a smith answer the query.
pub fn smith_answers()
    ensures { Answers smiths_statement office (codes "1" ∷ codes "101" ∷ []) }
{}

/// The numbers of another name do not.
pub fn other_name_does_not_answer()
    ensures { Answers smiths_statement adding (codes "_1" ∷ codes "_3" ∷ []) → ⊥ }
{}

/// The query with one atom and the constant for the name is the conjunctive form.
pub fn smiths_form()
    ensures { IsConjunctive staff smiths smiths_query }
{}

/// The plan asks the directory and then the profiles, and is lawful.
pub fn smiths_plan_is_lawful()
    ensures { IsLawful smiths_plan staff known }
{}

/// A plan that makes an input place new is not lawful.
pub fn guessing_is_not_lawful()
    ensures { IsLawful guessing_plan staff known → ⊥ }
{}

/// The plan has the row of the answer.
pub fn smiths_plan_has_the_row()
    ensures { IsRow staff smiths_plan office (codes "1" ∷ codes "101" ∷ []) }
{}

/// The plan makes three requests: one for the directory, and one for each smith's profile, in ascending order.
pub fn smiths_plan_asks_three()
    ensures { AreRequests staff smiths_plan office smiths_requests }
{}

/// The plan costs 5 and 2.
pub fn smiths_plan_costs_seven()
    ensures { IsCost staff smiths_branch 7 }
{}

/// The run of three firings reaches the goal.
pub fn smiths_run()
    ensures run { IsOrderedRun staff known 0 (opening smiths_query) smiths_log smiths_end }
    ensures goal { HasGoal (smiths_query ∷ []) smiths_end (frozen_head smiths_query) }
{}

/// The plan is equivalent to the query.
pub fn smiths_plan_is_equivalent()
    ensures { IsEquivalent smiths_plan smiths_statement staff }
{}

/// A plan that compares no name is lawful, has a row that is no answer, and is not equivalent.
pub fn careless_plan_adds_a_row()
    ensures lawful { IsLawful careless_plan staff known }
    ensures model { IsModel staff adding }
    ensures row { IsRow staff careless_plan adding (codes "_1" ∷ codes "_3" ∷ []) }
    ensures not_equivalent { IsEquivalent careless_plan smiths_statement staff → ⊥ }
{}

/// Without the rule a profile and the empty instance refute the query.
pub fn unreachable_refutes()
    ensures { Refutes ruleless known smiths_statement unreachable [] unreachable_answer }
{}

/// Where s alone can be asked, no lawful plan gives r.
pub fn closed_schema_has_no_plan()
    ensures { (plan : Plan) → IsLawful plan closed_schema [] → IsEquivalent plan r_statement closed_schema → ⊥ }
{}

/// Where r can be asked too, some lawful plan gives it.
pub fn open_schema_has_a_plan()
    ensures { (plan : Plan) × IsLawful plan open_schema [] × IsEquivalent plan r_statement open_schema }
{}

/// A run that fires a copy rule while an exposure waits is a run, and not an ordered one.
pub fn hasty_run_is_not_ordered()
    ensures run { IsRun open_schema [] 0 (opening r_query) hasty_log hasty_end }
    ensures not_ordered { IsOrderedRun open_schema [] 0 (opening r_query) hasty_log hasty_end → ⊥ }
{}

/// A run never goes back to an earlier part.
pub fn parts_stand_in_order()
    ensures { (schema : SchemaParts) (constants : List Value) (proof end : Proof) (method : ℕ) (fact : Ground)
        (log : List Firing) → IsRun schema constants 2 proof (Expose method fact ∷ log) end → ⊥ }
{}

/// Of two rules the one that feeds the other fires first, whatever their numbers.
pub fn feeder_fires_first()
    ensures feeder { IsBaseRun fed_first both_active (s_trigger ∷ []) fed }
    ensures fed { (end : State) → IsBaseRun fed_first both_active (t_trigger ∷ []) end → ⊥ }
{}

/// The requests of a round stand in ascending order, and each once.
pub fn rounds_ascend()
    ensures round { IsRound staff office (ask_directory ∷ []) ask_profile
        (profile_request (codes "1") ∷ profile_request (codes "3") ∷ []) }
    ensures turned { IsRound staff office (ask_directory ∷ []) ask_profile
        (profile_request (codes "3") ∷ profile_request (codes "1") ∷ []) → ⊥ }
    ensures twice { IsRound staff office (ask_directory ∷ []) ask_profile
        (profile_request (codes "1") ∷ profile_request (codes "1") ∷ profile_request (codes "3") ∷ []) → ⊥ }
{}

/// A plan that is wider than its branch is not lawful.
pub fn wide_plan_is_not_lawful()
    ensures { IsLawful (record { width = 3; branches = smiths_branch ∷ [] }) staff known → ⊥ }
{}

/// A fact with fewer values than its relation has columns is in no instance.
pub fn short_fact_is_in_no_instance()
    ensures { IsInstance staff (record { rel = 0; row = codes "1" ∷ [] } ∷ []) → ⊥ }
{}

/// A crawl of the office asks for the directory, then with the five values that it gives, and then with the two that are
/// new.
pub fn office_crawl()
    ensures rounds { AreCrawlRounds staff [] office [] office_rounds }
    ensures crawl { IsCrawl staff [] office office_requests }
{}

/// A crawl goes on as long as there is something to ask, and no further.
pub fn crawl_ends()
    ensures stopped { IsCrawl staff [] office (directory_request ∷ profile_request (codes "1")
        ∷ profile_request (codes "2") ∷ profile_request (codes "3") ∷ profile_request jones ∷ profile_request smith ∷ [])
        → ⊥ }
    ensures nothing { AreCrawlRounds staff [] office office_requests ([] ∷ []) → ⊥ }
{}

/// A round of a crawl asks with each known value, whatever the name of its column, and asks nothing again.
pub fn crawl_rounds_ask_all()
    ensures numbers { IsCrawlRound staff [] office (directory_request ∷ [])
        (profile_request (codes "1") ∷ profile_request (codes "2") ∷ profile_request (codes "3") ∷ []) → ⊥ }
    ensures again { IsCrawlRound staff [] office (directory_request ∷ [])
        (profile_request (codes "1") ∷ profile_request (codes "2") ∷ profile_request (codes "3")
        ∷ profile_request jones ∷ profile_request smith ∷ directory_request ∷ []) → ⊥ }
{}

/// A constant is known from the first round on.
pub fn constants_are_asked_first()
    ensures { IsCrawlRound staff known office [] (profile_request smith ∷ directory_request ∷ []) }
{}

/// The requests of a round of a crawl ascend, by relation first, and stand there once.
pub fn crawl_rounds_ascend()
    ensures turned { IsCrawlRound staff known office [] (directory_request ∷ profile_request smith ∷ []) → ⊥ }
    ensures twice { IsCrawlRound staff known office []
        (profile_request smith ∷ profile_request smith ∷ directory_request ∷ []) → ⊥ }
{}
