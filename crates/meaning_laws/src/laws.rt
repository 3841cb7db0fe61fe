// Laws of the definitions: each is the contract of a function that does nothing.

ghost use Rattle.std.specs.Prelude.{◌≡◌, ◌↔◌, ◌+◌, ◌++◌, ◌∷◌, ◌^◌, ◌<◌, ◌≤◌, List, [], ℕ, Bool, Contains, length, map, slice_index_or, take};
ghost use Rattle.std.specs.List.{AllZip};
ghost use Rattle.meaning.specs.declared.types.Rule.{Rule};
ghost use Rattle.meaning.specs.declared.types.SchemaParts.{SchemaParts};
ghost use Rattle.meaning.specs.declared.types.Fact.{Fact};
ghost use Rattle.meaning.specs.declared.types.Query.{Query};
ghost use Rattle.meaning.specs.declared.types.Select.{Select};
ghost use Rattle.meaning.specs.declared.types.Statement.{Statement};
ghost use Rattle.meaning.specs.declared.types.Branch.{Branch};
ghost use Rattle.meaning.specs.declared.types.Plan.{Plan};
ghost use Rattle.meaning.specs.declared.types.Val.{Val};
ghost use Rattle.meaning.specs.declared.types.Ground.{Ground};
ghost use Rattle.meaning.specs.declared.types.Trigger.{Trigger};
ghost use Rattle.meaning.specs.declared.types.Firing.{Firing};
ghost use Rattle.meaning.specs.declared.types.Request.{Request};
ghost use Rattle.meaning.specs.declared.types.Val.TheVariants.{Const, Label};
ghost use Rattle.meaning.specs.Values.{Value, Row};
ghost use Rattle.meaning.specs.Instances.{IsInstance, IsWithin};
ghost use Rattle.meaning.specs.Matching.{IsQueryAnswer, MeetsAll, itself, FactsOf, GroundsOf, Meets, AnswersQuery};
ghost use Rattle.meaning.specs.Answers.{Answers, AnswersSelect};
ghost use Rattle.meaning.specs.Access.{CanAccess, IsAccessPath, IsAccessible};
ghost use Rattle.meaning.specs.Plans.{IsWellFormed, IsLawfulBranch, IsLawful};
ghost use Rattle.meaning.specs.Rows.{IsBranchRow, IsRow};
ghost use Rattle.meaning.specs.Crawls.{IsReceived, IsCrawl};
ghost use Rattle.meaning.specs.Claims.{IsModel, IsEquivalent, Refutes};
ghost use Rattle.meaning.specs.Costs.{IsCost, IsRival, IsLeast};
ghost use Rattle.meaning.specs.Homomorphisms.{image, renamed, Carries};
ghost use Rattle.meaning.specs.Triggers.{AreNumbered, State, LabelsBelow, IsTrigger, IsQuiet, fired, IsFiringRun};
ghost use Rattle.meaning.specs.RuleOrder.{IsFed};
ghost use Rattle.meaning.specs.Runs.{IsBaseRun, Proof, NoExposure, Fires, part_of, IsRun, IsOrderedRun, opening, opening_state, frozen_head, HasGoal, IsStuck, last_part};
ghost use Rattle.meaning.specs.Naming.{IsNaming, IsNamed, AreNamed};
ghost use Rattle.meaning.specs.Fitting.{QueryHasConstants, Fit, RulesFit, QueryFits, IsKept};
ghost use Rattle.meaning.specs.Conjunctive.{SelectFits, IsConjunctive, StandFor};
ghost use Rattle.meaning.specs.Extract.{Exposure, exposed_facts, branch_of, IsDerivation, IsHeadKnown, IsExposing, exposures_cost, IsBase, IsQueryRival};
ghost use Rattle.meaning.specs.Judge.{IsBranchQuery};
ghost use Rattle.meaning.specs.Search.{AreDistinct, AreSets};
ghost use Rattle.meaning_laws.specs.Trims.{AreIn, Serves, IsNeeded, BodiesFollow, AreClosed};
ghost use Rattle.meaning_laws.specs.Rests.{IsRest, HasGoalOver, new_labels, MakersAreMet};

/// The rows of a lawful plan depend on the accessible part alone, and grow with it.
pub fn rows_grow()
    ensures { (schema : SchemaParts) (constants : List Value) (plan : Plan) (first second : List Fact) →
        IsWellFormed schema → IsLawful plan schema constants →
        ((fact : Fact) → IsAccessible schema constants first fact → IsAccessible schema constants second fact) →
        (row : Row) → IsRow schema plan first row → IsRow schema plan second row }
{}

/// Where a pair refutes, no lawful plan is equivalent to the statement.
pub fn no_plan()
    ensures { (schema : SchemaParts) (constants : List Value) (statement : Statement)
        (first second : List Fact) (row : Row) →
        IsWellFormed schema → Refutes schema constants statement first second row →
        (plan : Plan) → IsLawful plan schema constants → IsEquivalent plan statement schema → ⊥ }
{}

/// A pair refutes whatever lists hold its facts.
pub fn refutes_alike()
    ensures { (schema : SchemaParts) (constants : List Value) (statement : Statement)
        (first second other another : List Fact) (row : Row) →
        IsWithin first other → IsWithin other first → IsWithin second another → IsWithin another second →
        Refutes schema constants statement first second row → Refutes schema constants statement other another row }
{}

/// A list of facts that is closed under access has every fact of an access path.
pub fn accessible_closed()
    ensures { (schema : SchemaParts) (constants : List Value) (facts closed : List Fact) →
        ((fact : Fact) → Contains facts fact → CanAccess schema constants closed fact → Contains closed fact) →
        (path : List Fact) → IsAccessPath schema constants facts path →
        (fact : Fact) → Contains path fact → Contains closed fact }
{}

/// What a crawl received is exactly the accessible part.
pub fn crawls_reach()
    ensures { (schema : SchemaParts) (constants : List Value) (facts : List Fact) (requests : List Request) →
        IsCrawl schema constants facts requests → (fact : Fact) →
        IsReceived facts requests fact ↔ IsAccessible schema constants facts fact }
{}

/// The answers of a statement grow with an instance.
pub fn answers_grow()
    ensures { (statement : Statement) (first second : List Fact) (row : Row) → IsWithin first second →
        Answers statement first row → Answers statement second row }
{}

/// A map that carries a state into an instance that meets the rules extends along a firing.
pub fn extend_firing()
    ensures { (rules : List Rule) (state : State) (trigger : Trigger) (rule : Rule) (instance : List Fact)
        (h : ℕ → Value) → AreNumbered rules → MeetsAll itself (FactsOf instance) rules →
        LabelsBelow state.facts state.next → IsTrigger rules state trigger rule → Carries h state.facts instance →
        (g : ℕ → Value) × ((k : ℕ) → k < state.next → g k ≡ h k)
        × Carries g (fired state trigger rule).facts instance }
{}

/// A map that carries a state into an instance that meets the rules extends along a run of firings.
pub fn extend_along()
    ensures { (rules : List Rule) (log : List Trigger) (state end : State) (instance : List Fact) (h : ℕ → Value) →
        AreNumbered rules → MeetsAll itself (FactsOf instance) rules → LabelsBelow state.facts state.next →
        IsFiringRun rules state log end → Carries h state.facts instance →
        (g : ℕ → Value) × ((k : ℕ) → k < state.next → g k ≡ h k) × Carries g end.facts instance }
{}

/// The same with a list of values, one for each label below the next one.
pub fn extend_list()
    ensures { (rules : List Rule) (log : List Trigger) (state end : State) (instance : List Fact)
        (values : List Value) →
        AreNumbered rules → MeetsAll itself (FactsOf instance) rules → LabelsBelow state.facts state.next →
        IsFiringRun rules state log end → length values ≡ state.next →
        Carries (λ k. slice_index_or values k []) state.facts instance →
        (longer : List Value) × (take (length values) longer ≡ values) × (length longer ≡ end.next)
        × Carries (λ k. slice_index_or longer k []) end.facts instance }
{}

/// A base run is a run of firings.
pub fn base_run_fires()
    ensures { (rules : List Rule) (log : List Trigger) (state end : State) →
        IsBaseRun rules state log end → IsFiringRun rules state log end }
{}

/// An ordered run is a run.
pub fn ordered_is_run()
    ensures { (schema : SchemaParts) (constants : List Value) (part : ℕ) (proof : Proof) (log : List Firing)
        (end : Proof) → IsOrderedRun schema constants part proof log end → IsRun schema constants part proof log end }
{}

/// A state in which no trigger is active, with labels as values, meets the rules.
pub fn quiet_meets()
    ensures { (rules : List Rule) (state : State) → AreNumbered rules → IsQuiet rules state →
        MeetsAll Const (GroundsOf state.facts) rules }
{}

/// There are texts for all labels that differ from each other and from the constants.
pub fn naming_exists()
    ensures { (constants : List Value) → (h : ℕ → Value) × ((n : ℕ) → IsNaming constants n h) }
{}

/// A proof in which nothing is active and that has no goal gives a pair that refutes.
pub fn witness_refutes()
    ensures { (schema : SchemaParts) (constants : List Value) (statement : Statement) (queries : List Query)
        (query : Query) (proof : Proof) (h : ℕ → Value) →
        RulesFit schema constants → StandFor schema queries statement → Contains queries query →
        ((q : Query) → Contains queries q → QueryHasConstants constants q) → IsKept schema constants query proof →
        IsStuck schema constants queries proof (frozen_head query) → IsNaming constants proof.next h →
        Refutes schema constants statement (renamed h proof.base) (renamed h proof.copy)
        (map (image h) (frozen_head query)) }
{}

/// A run from the opening proof, after which nothing is active and there is no goal, gives a pair that refutes.
pub fn run_refutes()
    ensures { (schema : SchemaParts) (constants : List Value) (statement : Statement) (queries : List Query)
        (query : Query) (log : List Firing) (proof : Proof) (h : ℕ → Value) →
        RulesFit schema constants → StandFor schema queries statement → Contains queries query →
        ((q : Query) → Contains queries q → QueryHasConstants constants q) → QueryFits schema query →
        IsRun schema constants 0 (opening query) log proof →
        IsStuck schema constants queries proof (frozen_head query) → IsNaming constants proof.next h →
        Refutes schema constants statement (renamed h proof.base) (renamed h proof.copy)
        (map (image h) (frozen_head query)) }
{}

/// Where the copy has a match, each row of the branch that is read off is an answer of the matched query.
pub fn extract_sound()
    ensures { (schema : SchemaParts) → IsWellFormed schema → AreNumbered schema.rules →
        (query : Query) (base : List Trigger) (middle : State) (exposures : List Exposure) (copy : List Trigger)
        (end : State) → IsDerivation schema query base middle exposures copy end →
        (instance : List Fact) (goal : Query) (head : List Val) (row : Row) →
        Meets instance schema → IsHeadKnown exposures head → IsQueryAnswer Const (GroundsOf end.facts) goal head →
        IsBranchRow schema (branch_of exposures head) instance row → AnswersQuery goal instance row }
{}

/// Each answer of the query is a row of the branch that is read off.
pub fn extract_complete()
    ensures { (schema : SchemaParts) → IsWellFormed schema → AreNumbered schema.rules →
        (query : Query) (base : List Trigger) (middle : State) (exposures : List Exposure) (copy : List Trigger)
        (end : State) → IsDerivation schema query base middle exposures copy end →
        (instance : List Fact) (row : Row) →
        Meets instance schema → IsHeadKnown exposures (frozen_head query) →
        ((k : ℕ) → Contains (frozen_head query) (Label k) → k < query.variables) →
        AnswersQuery query instance row → IsBranchRow schema (branch_of exposures (frozen_head query)) instance row }
{}

/// A run that reaches a goal gives a branch that is lawful, sound for the goal's query and complete for its own.
pub fn run_extracts()
    ensures { (schema : SchemaParts) (constants : List Value) (query goal : Query) (log : List Firing) (proof : Proof) →
        IsWellFormed schema → RulesFit schema constants → QueryFits schema query → QueryFits schema goal →
        QueryHasConstants constants query → IsRun schema constants 0 (opening query) log proof →
        IsQueryAnswer Const (GroundsOf proof.copy) goal (frozen_head query) →
        (branch : Branch) × IsLawfulBranch schema constants branch
        × ((instance : List Fact) (row : Row) → Meets instance schema →
        IsBranchRow schema branch instance row → AnswersQuery goal instance row)
        × ((instance : List Fact) (row : Row) → Meets instance schema →
        AnswersQuery query instance row → IsBranchRow schema branch instance row)
        × (length branch.output ≡ length query.head) }
{}

/// A run that reaches a goal gives a rival for its query, among the queries of all selects.
pub fn read_from_run()
    ensures { (schema : SchemaParts) (constants : List Value) (queries : List Query) (query : Query)
        (log : List Firing) (proof : Proof) →
        IsWellFormed schema → RulesFit schema constants → QueryFits schema query →
        ((q : Query) → Contains queries q → QueryFits schema q) → QueryHasConstants constants query →
        IsRun schema constants 0 (opening query) log proof → HasGoal queries proof (frozen_head query) →
        (branch : Branch) × IsQueryRival schema constants queries query branch
        × (length branch.output ≡ length query.head) }
{}

/// A run that reaches a goal gives a branch that is lawful, sound for the statement and complete for its select.
pub fn branch_from_run()
    ensures { (schema : SchemaParts) (constants : List Value) (statement : Statement) (queries : List Query)
        (select : Select) (query : Query) (log : List Firing) (proof : Proof) →
        IsWellFormed schema → RulesFit schema constants → QueryFits schema query →
        ((q : Query) → Contains queries q → QueryFits schema q) → QueryHasConstants constants query →
        StandFor schema queries statement → SelectFits schema select → IsConjunctive schema select query →
        IsRun schema constants 0 (opening query) log proof → HasGoal queries proof (frozen_head query) →
        (branch : Branch) × IsRival schema constants statement select branch
        × (length branch.output ≡ length select.items) }
{}

/// One rival for each query makes a plan that is lawful and equivalent to the statement.
pub fn plan_from_branches()
    ensures { (schema : SchemaParts) (constants : List Value) (statement : Statement) (queries : List Query)
        (plan : Plan) → StandFor schema queries statement →
        AllZip (IsQueryRival schema constants queries) queries plan.branches →
        ((branch : Branch) → Contains plan.branches branch → length branch.output ≡ plan.width) →
        IsLawful plan schema constants × IsEquivalent plan statement schema }
{}

/// A rival of any length gives exposures in order that cost no more, and whose facts have the goal, however many labels a state has.
pub fn rival_exposes()
    ensures { (schema : SchemaParts) (constants : List Value) (queries : List Query) (query : Query) (base : State)
        (head : List Val) (rival : Branch) (cost : ℕ) →
        IsWellFormed schema → RulesFit schema constants →
        ((q : Query) → Contains queries q → QueryHasConstants constants q) →
        IsBase schema constants query base head → IsQueryRival schema constants queries query rival →
        IsCost schema rival cost →
        (exposures : List Exposure) × IsExposing schema constants base.facts [] exposures
        × (exposures_cost exposures ≤ cost)
        × ((most : ℕ) → HasGoalOver schema constants queries head base.next most (exposed_facts exposures)) }
{}

/// Where no exposures with a goal cost less than the branch, no rival does.
pub fn least_by_exposures()
    ensures { (schema : SchemaParts) (constants : List Value) (statement : Statement) (select : Select)
        (queries : List Query) (query : Query) (base : State) (head : List Val) (branch : Branch)
        (best most : ℕ) → IsWellFormed schema → RulesFit schema constants →
        ((q : Query) → Contains queries q → QueryHasConstants constants q) → StandFor schema queries statement →
        ((facts : List Fact) (row : Row) → IsInstance schema facts →
        AnswersQuery query facts row → AnswersSelect select facts row) →
        IsBase schema constants query base head → IsCost schema branch best →
        ((exposures : List Exposure) → IsExposing schema constants base.facts [] exposures →
        HasGoalOver schema constants queries head base.next most (exposed_facts exposures) →
        best ≤ exposures_cost exposures) →
        IsLeast schema constants statement select branch }
{}

/// A goal of facts is one of all facts that have them, and with fewer labels; so a search may look at sets.
pub fn goal_stays()
    ensures { (schema : SchemaParts) (constants : List Value) (queries : List Query) (head : List Val)
        (next most less : ℕ) (facts larger : List Ground) → less ≤ most → AreIn facts larger →
        HasGoalOver schema constants queries head next most facts →
        HasGoalOver schema constants queries head next less larger }
{}

/// Distinct sets of n facts are at most 2 ^ n.
pub fn sets_bound()
    ensures { (n : ℕ) (sets : List (List Bool)) → AreSets n sets → AreDistinct sets → length sets ≤ 2 ^ n }
{}

/// The rows of a lawful branch are the answers of its query.
pub fn rows_are_answers()
    ensures { (schema : SchemaParts) (constants : List Value) (branch : Branch) (query : Query)
        (instance : List Fact) (row : Row) →
        IsWellFormed schema → IsLawfulBranch schema constants branch → IsBranchQuery schema branch query →
        (IsBranchRow schema branch instance row → AnswersQuery query instance row)
        × (AnswersQuery query instance row → IsBranchRow schema branch instance row) }
{}

/// The query of a lawful branch fits the schema, and its constants are known.
pub fn branch_query_fits()
    ensures { (schema : SchemaParts) (constants : List Value) (branch : Branch) (query : Query) →
        IsWellFormed schema → IsLawfulBranch schema constants branch → IsBranchQuery schema branch query →
        QueryFits schema query × QueryHasConstants constants query }
{}

/// Where a run from the opening state has the head for another query, the answers are the other's.
pub fn contained()
    ensures { (schema : SchemaParts) (constants : List Value) (query other : Query) (log : List Trigger)
        (end : State) →
        RulesFit schema constants → QueryFits schema query → QueryHasConstants constants query →
        IsFiringRun schema.rules (opening_state query) log end →
        IsQueryAnswer Const (GroundsOf end.facts) other (frozen_head query) →
        (instance : List Fact) (row : Row) → Meets instance schema →
        AnswersQuery query instance row → AnswersQuery other instance row }
{}

/// Where nothing is active after the run and no query has the head, the state is an instance that separates.
pub fn separated()
    ensures { (schema : SchemaParts) (constants : List Value) (query : Query) (others : List Query)
        (log : List Trigger) (end : State) (h : ℕ → Value) →
        RulesFit schema constants → QueryFits schema query → QueryHasConstants constants query →
        ((q : Query) → Contains others q → QueryHasConstants constants q) →
        IsFiringRun schema.rules (opening_state query) log end → IsQuiet schema.rules end →
        ((q : Query) → Contains others q → IsQueryAnswer Const (GroundsOf end.facts) q (frozen_head query) → ⊥) →
        IsNaming constants end.next h →
        IsModel schema (renamed h end.facts)
        × AnswersQuery query (renamed h end.facts) (map (image h) (frozen_head query))
        × ((q : Query) → Contains others q →
        AnswersQuery q (renamed h end.facts) (map (image h) (frozen_head query)) → ⊥) }
{}

/// The answers of a conjunctive form are the select's.
pub fn select_sound()
    ensures { (schema : SchemaParts) (select : Select) (query : Query) → IsConjunctive schema select query →
        (facts : List Fact) (row : Row) → SelectFits schema select →
        AnswersQuery query facts row → AnswersSelect select facts row }
{}

/// The select's answers are those of a conjunctive form.
pub fn select_complete()
    ensures { (schema : SchemaParts) (select : Select) (query : Query) → IsConjunctive schema select query →
        (facts : List Fact) (row : Row) → SelectFits schema select → IsInstance schema facts →
        AnswersSelect select facts row → AnswersQuery query facts row }
{}

/// A run goes on by one firing, where its part does not stand before that of the last firing.
pub fn run_goes_on()
    ensures run { (schema : SchemaParts) (constants : List Value) (part : ℕ) (proof : Proof) (log : List Firing)
        (end : Proof) (firing : Firing) (next : Proof) → IsRun schema constants part proof log end →
        last_part part log ≤ part_of firing → Fires schema constants end firing next →
        IsRun schema constants part proof (log ++ firing ∷ []) next }
    ensures ordered { (schema : SchemaParts) (constants : List Value) (part : ℕ) (proof : Proof) (log : List Firing)
        (end : Proof) (firing : Firing) (next : Proof) → IsOrderedRun schema constants part proof log end →
        last_part part log ≤ part_of firing → (part_of firing ≡ 2 → NoExposure schema constants end) →
        Fires schema constants end firing next → IsOrderedRun schema constants part proof (log ++ firing ∷ []) next }
{}

/// The first firings of a run are a run, and the rest is one from there.
pub fn run_splits()
    ensures run { (schema : SchemaParts) (constants : List Value) (part : ℕ) (proof : Proof) (log more : List Firing)
        (end : Proof) → IsRun schema constants part proof (log ++ more) end →
        (middle : Proof) × IsRun schema constants part proof log middle
        × IsRun schema constants (last_part part log) middle more end }
    ensures ordered { (schema : SchemaParts) (constants : List Value) (part : ℕ) (proof : Proof)
        (log more : List Firing) (end : Proof) → IsOrderedRun schema constants part proof (log ++ more) end →
        (middle : Proof) × IsOrderedRun schema constants part proof log middle
        × IsOrderedRun schema constants (last_part part log) middle more end }
{}

/// A log leads to one proof.
pub fn run_once()
    ensures { (schema : SchemaParts) (constants : List Value) (part other : ℕ) (proof : Proof) (log : List Firing)
        (first second : Proof) → IsRun schema constants part proof log first →
        IsRun schema constants other proof log second → first ≡ second }
{}

/// A run of firings can be cut down to those that the wanted facts rest on.
pub fn firings_trim()
    ensures { (rules : List Rule) (state end : State) (log : List Trigger) (wanted : List Ground) →
        IsFiringRun rules state log end → AreIn wanted end.facts →
        (kept : List Trigger) × (needed : List Ground) × AreIn needed state.facts
        × Serves rules state.next needed kept wanted }
{}

/// Exposures and copy firings can be cut down to those that a match rests on, at no greater cost.
pub fn match_trims()
    ensures { (schema : SchemaParts) (constants : List Value) (base : List Ground) (next : ℕ)
        (exposures : List Exposure) (copy : List Trigger) (end : State) (goal : Query) (head : List Val) →
        IsExposing schema constants base [] exposures →
        IsFiringRun schema.rules (record { facts = exposed_facts exposures; next = next }) copy end →
        IsQueryAnswer Const (GroundsOf end.facts) goal head →
        (kept : List Exposure) × (less : List Trigger) × (last : State)
        × IsExposing schema constants base [] kept
        × IsFiringRun schema.rules (record { facts = exposed_facts kept; next = next }) less last
        × IsQueryAnswer Const (GroundsOf last.facts) goal head × (exposures_cost kept ≤ exposures_cost exposures) }
{}

/// A match in some run of firings is one in every state at rest.
pub fn goal_everywhere()
    ensures { (schema : SchemaParts) (constants : List Value) (queries : List Query) (state : State)
        (head : List Val) (log : List Trigger) (some : State) (goal : Query) (most : ℕ) →
        RulesFit schema constants → ((q : Query) → Contains queries q → QueryHasConstants constants q) →
        AreNamed constants state.next state.facts →
        ((v : Val) → Contains head v → IsNamed constants state.next v) →
        IsFiringRun schema.rules state log some → Contains queries goal →
        IsQueryAnswer Const (GroundsOf some.facts) goal head →
        HasGoalOver schema constants queries head state.next most state.facts }
{}

/// The branch that is read off exposures costs what they cost.
pub fn branch_cost()
    ensures { (schema : SchemaParts) (exposures : List Exposure) (head : List Val) →
        ((e : Exposure) → Contains exposures e → Contains schema.methods e.method) →
        IsCost schema (branch_of exposures head) (exposures_cost exposures) }
{}

/// Where no chain of feeding has more than so many steps, some firings lead from each state to a quiet one.
pub fn quiet_is_reached()
    ensures { (rules : List Rule) (limit : ℕ) (state : State) → AreNumbered rules →
        ((rel n : ℕ) → IsFed rules rel n → n ≤ limit) →
        (log : List Trigger) × (end : State) × IsFiringRun rules state log end × IsQuiet rules end }
{}

/// Over facts where the makers of needed facts are met, a state is at rest that has no needed fact more, and only as many labels more as
/// one firing gives. Where no chain of feeding has more than so many steps, and the facts have names and arities.
pub fn rest_is_reached()
    ensures { (schema : SchemaParts) (constants : List Value) (queries : List Query) (head : List Val) (wanted : List ℕ)
        (first limit : ℕ) (start : State) → RulesFit schema constants →
        BodiesFollow schema.rules first (IsNeeded queries head wanted) → first ≤ start.next →
        MakersAreMet schema.rules first (IsNeeded queries head wanted) start.facts →
        ((rel n : ℕ) → IsFed schema.rules rel n → n ≤ limit) →
        AreNamed constants start.next start.facts → Fit schema start.facts →
        (end : State) × IsRest schema constants start.next (start.next + new_labels schema.rules) start.facts end
        × ((fact : Ground) → IsNeeded queries head wanted fact → Contains end.facts fact → Contains start.facts fact) }
{}

/// Where what a match makes is needed, with what makes it, and the needed base facts are relevant, with what they ask for, the
/// exposures that a match is cut down to are of relevant facts.
pub fn relevant_trims()
    ensures { (schema : SchemaParts) (constants : List Value) (base : List Ground) (next : ℕ) (queries : List Query)
        (head : List Val) (wanted : List ℕ) (relevant : List Ground) (exposures : List Exposure) (copy : List Trigger)
        (end : State) (goal : Query) →
        AreClosed schema constants base next queries head (IsNeeded queries head wanted) (Contains relevant) →
        IsExposing schema constants base [] exposures →
        IsFiringRun schema.rules (record { facts = exposed_facts exposures; next = next }) copy end →
        Contains queries goal → IsQueryAnswer Const (GroundsOf end.facts) goal head →
        (kept : List Exposure) × (less : List Trigger) × (last : State)
        × IsExposing schema constants base [] kept
        × IsFiringRun schema.rules (record { facts = exposed_facts kept; next = next }) less last
        × IsQueryAnswer Const (GroundsOf last.facts) goal head × (exposures_cost kept ≤ exposures_cost exposures)
        × ((e : Exposure) → Contains kept e → Contains relevant e.fact) }
{}
