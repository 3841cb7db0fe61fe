// The laws of integer columns: each is the contract of a function that does nothing.

ghost use Rattle.std.specs.Prelude.{◌+◌, ◌*◌, ◌^◌, ◌≤◌, List, [], ℕ, Contains, length, map};
ghost use Rattle.meaning.specs.declared.types.Rule.{Rule};
ghost use Rattle.meaning.specs.declared.types.SchemaParts.{SchemaParts};
ghost use Rattle.meaning.specs.declared.types.Fact.{Fact};
ghost use Rattle.meaning.specs.declared.types.Query.{Query};
ghost use Rattle.meaning.specs.declared.types.Select.{Select};
ghost use Rattle.meaning.specs.declared.types.Statement.{Statement};
ghost use Rattle.meaning.specs.declared.types.Branch.{Branch};
ghost use Rattle.meaning.specs.declared.types.Plan.{Plan};
ghost use Rattle.meaning.specs.declared.types.Val.{Val};
ghost use Rattle.meaning.specs.declared.types.Ground.{Ground};
ghost use Rattle.meaning.specs.declared.types.Trigger.{Trigger};
ghost use Rattle.meaning.specs.declared.types.Firing.{Firing};
ghost use Rattle.meaning.specs.declared.types.Val.TheVariants.{Const};
ghost use Rattle.meaning.specs.Values.{Value, Row};
ghost use Rattle.meaning.specs.Integers.{IsInteger};
ghost use Rattle.meaning.specs.Sorts.{HoldsIntegers, AtomsAreSorted, RuleIsSorted};
ghost use Rattle.meaning.specs.Matching.{IsQueryAnswer, GroundsOf, AnswersQuery};
ghost use Rattle.meaning.specs.Plans.{IsWellFormed, IsLawful, IsLawfulBranch};
ghost use Rattle.meaning.specs.Claims.{Refutes};
ghost use Rattle.meaning.specs.Costs.{IsCost};
ghost use Rattle.meaning.specs.Homomorphisms.{image, renamed};
ghost use Rattle.meaning.specs.Triggers.{IsNumbered, AreNumbered, State, IsTrigger, IsQuiet, fired, IsFiringRun};
ghost use Rattle.meaning.specs.Runs.{Proof, IsRun, opening, opening_state, frozen_head, IsStuck};
ghost use Rattle.meaning.specs.Naming.{IsNaming, IsNamed, AreNamed};
ghost use Rattle.meaning.specs.Fitting.{QueryHasConstants, Fit, RulesFit, QueryFits, IsKept};
ghost use Rattle.meaning.specs.Conjunctive.{SelectIsSorted, IsConjunctive, StandFor};
ghost use Rattle.meaning.specs.Extract.{Exposure, exposed_facts, IsExposing, exposures_cost, IsBase};
ghost use Rattle.meaning.specs.Judge.{IsBranchQuery};
ghost use Rattle.meaning_laws.specs.Rests.{IsRest, HasGoalOver};
ghost use Rattle.integer_laws.specs.Sorted.{AreSortedFacts, AreSortedGrounds, NamesIntegers, AreSortedRules, ProofIsSorted};
ghost use Rattle.integer_laws.specs.Claimed.{IsSortedModel, IsSortedEquivalent, RefutesSorted, IsSortedRival, IsSortedRest, HasSortedGoalOver};

// What keeps integers at integer columns.

/// Sorted labelled facts are sorted facts under names that are integers where a label stands at an integer column.
pub fn renamed_sorted()
    ensures { (schema : SchemaParts) (h : ℕ → Value) (facts : List Ground) → AreSortedGrounds schema facts →
        NamesIntegers schema facts h → AreSortedFacts schema (renamed h facts) }
{}

/// Where no column holds integers, all facts are sorted.
pub fn text_alone()
    ensures { (schema : SchemaParts) (facts : List Fact) → ((rel place : ℕ) → HoldsIntegers schema rel place → ⊥) →
        AreSortedFacts schema facts }
{}

/// A query with an answer on sorted facts has sorted atoms, so one with another constant at an integer column has none.
pub fn answered_is_sorted()
    ensures { (schema : SchemaParts) (query : Query) (facts : List Fact) (row : Row) →
        AreSortedFacts schema facts → AnswersQuery query facts row → AtomsAreSorted schema query.atoms }
{}

/// A firing of a sorted rule leaves sorted facts, whatever labels it gives.
pub fn firing_sorted()
    ensures { (schema : SchemaParts) (state : State) (trigger : Trigger) (rule : Rule) →
        IsTrigger schema.rules state trigger rule → IsNumbered rule → RuleIsSorted schema rule →
        AreSortedGrounds schema state.facts → AreSortedGrounds schema (fired state trigger rule).facts }
{}

/// A run of firings of sorted rules leaves sorted facts.
pub fn run_sorted()
    ensures { (schema : SchemaParts) (log : List Trigger) (state end : State) →
        AreNumbered schema.rules → AreSortedRules schema → AreSortedGrounds schema state.facts →
        IsFiringRun schema.rules state log end → AreSortedGrounds schema end.facts }
{}

/// A run of a proof leaves a sorted proof where it began with one, and the opening proof of a query with sorted atoms is sorted.
pub fn proof_sorted()
    ensures opening { (schema : SchemaParts) (query : Query) → AtomsAreSorted schema query.atoms →
        ProofIsSorted schema (opening query) }
    ensures run { (schema : SchemaParts) (constants : List Value) (part : ℕ) (proof : Proof) (log : List Firing) (end : Proof) →
        AreNumbered schema.rules → AreSortedRules schema → ProofIsSorted schema proof →
        IsRun schema constants part proof log end → ProofIsSorted schema end }
{}

/// The conjunctive form of a sorted select has sorted atoms.
pub fn forms_are_sorted()
    ensures { (schema : SchemaParts) (select : Select) (query : Query) → SelectIsSorted schema select →
        IsConjunctive schema select query → AtomsAreSorted schema query.atoms }
{}

// Names that are integers.

/// There are integers for n labels that differ from each other and from the constants, where both together are at most 2 ^ 63.
pub fn integer_naming_exists()
    ensures { (constants : List Value) (n : ℕ) → n + length constants ≤ 2 ^ 63 →
        (h : ℕ → Value) × IsNaming constants n h × ((k : ℕ) → IsInteger (h k)) }
{}

/// So there are names that are integers wherever any of the facts has a label at an integer column: all of them may be, since an integer is
/// a text too.
pub fn mixed_naming_exists()
    ensures { (schema : SchemaParts) (constants : List Value) (n : ℕ) → n + length constants ≤ 2 ^ 63 →
        (h : ℕ → Value) × IsNaming constants n h × ((facts : List Ground) → NamesIntegers schema facts h) }
{}

// Instances of integers.

/// The instance that separates a query from others is sorted.
pub fn separated_sorted()
    ensures { (schema : SchemaParts) (constants : List Value) (query : Query) (others : List Query)
        (log : List Trigger) (end : State) (h : ℕ → Value) →
        RulesFit schema constants → QueryFits schema query → QueryHasConstants constants query →
        ((q : Query) → Contains others q → QueryHasConstants constants q) →
        IsFiringRun schema.rules (opening_state query) log end → IsQuiet schema.rules end →
        ((q : Query) → Contains others q → IsQueryAnswer Const (GroundsOf end.facts) q (frozen_head query) → ⊥) →
        IsNaming constants end.next h → AreSortedRules schema → AtomsAreSorted schema query.atoms →
        NamesIntegers schema end.facts h →
        IsSortedModel schema (renamed h end.facts)
        × AnswersQuery query (renamed h end.facts) (map (image h) (frozen_head query))
        × ((q : Query) → Contains others q →
        AnswersQuery q (renamed h end.facts) (map (image h) (frozen_head query)) → ⊥) }
{}

/// The pair of a sorted proof in which nothing is active and that has no goal is of sorted instances.
pub fn witness_refutes_sorted()
    ensures { (schema : SchemaParts) (constants : List Value) (statement : Statement) (queries : List Query)
        (query : Query) (proof : Proof) (h : ℕ → Value) →
        RulesFit schema constants → StandFor schema queries statement → Contains queries query →
        ((q : Query) → Contains queries q → QueryHasConstants constants q) → IsKept schema constants query proof →
        IsStuck schema constants queries proof (frozen_head query) → IsNaming constants proof.next h →
        ProofIsSorted schema proof → NamesIntegers schema proof.base h → NamesIntegers schema proof.copy h →
        Refutes schema constants statement (renamed h proof.base) (renamed h proof.copy)
        (map (image h) (frozen_head query))
        × AreSortedFacts schema (renamed h proof.base) × AreSortedFacts schema (renamed h proof.copy) }
{}

/// So is that of a run from the opening proof of a query with sorted atoms.
pub fn run_refutes_sorted()
    ensures { (schema : SchemaParts) (constants : List Value) (statement : Statement) (queries : List Query)
        (query : Query) (log : List Firing) (proof : Proof) (h : ℕ → Value) →
        RulesFit schema constants → StandFor schema queries statement → Contains queries query →
        ((q : Query) → Contains queries q → QueryHasConstants constants q) → QueryFits schema query →
        IsRun schema constants 0 (opening query) log proof →
        IsStuck schema constants queries proof (frozen_head query) → IsNaming constants proof.next h →
        AreSortedRules schema → AtomsAreSorted schema query.atoms →
        NamesIntegers schema proof.base h → NamesIntegers schema proof.copy h →
        Refutes schema constants statement (renamed h proof.base) (renamed h proof.copy)
        (map (image h) (frozen_head query))
        × AreSortedFacts schema (renamed h proof.base) × AreSortedFacts schema (renamed h proof.copy) }
{}

/// A quiet state of sorted facts is a sorted model under some names, where its labels and the constants are at most 2 ^ 63.
pub fn rest_is_model()
    ensures { (schema : SchemaParts) (constants : List Value) (state : State) → RulesFit schema constants →
        IsQuiet schema.rules state → AreNamed constants state.next state.facts → Fit schema state.facts →
        AreSortedGrounds schema state.facts → state.next + length constants ≤ 2 ^ 63 →
        (h : ℕ → Value) × IsNaming constants state.next h × IsSortedModel schema (renamed h state.facts) }
{}

// What two sorted instances refute.

/// Where a pair of sorted instances refutes, no lawful plan is equivalent to the statement on sorted models.
pub fn no_sorted_plan()
    ensures { (schema : SchemaParts) (constants : List Value) (statement : Statement) (first second : List Fact) (row : Row) →
        IsWellFormed schema → RefutesSorted schema constants statement first second row →
        (plan : Plan) → IsLawful plan schema constants → IsSortedEquivalent plan statement schema → ⊥ }
{}

// Least cost among the rivals on sorted models.

/// A lawful branch with an answer of its own query on a base gives exposures in order that cost no more, and over whose facts each state at
/// rest has that answer. No instance is asked for, so there may be any number of labels.
pub fn branch_exposes()
    ensures { (schema : SchemaParts) (constants : List Value) (own : Query) (base : State) (head : List Val)
        (branch : Branch) (cost : ℕ) →
        IsWellFormed schema → RulesFit schema constants → IsLawfulBranch schema constants branch →
        IsBranchQuery schema branch own → IsBase schema constants own base head → IsCost schema branch cost →
        (exposures : List Exposure) × IsExposing schema constants base.facts [] exposures
        × (exposures_cost exposures ≤ cost)
        × ((most : ℕ) (end : State) → IsRest schema constants base.next most (exposed_facts exposures) end →
        IsQueryAnswer Const (GroundsOf end.facts) own head) }
{}

/// A rival on sorted models gives exposures in order that cost no more, and whose facts have the goal on sorted states, where labels and
/// constants are at most 2 ^ 63.
pub fn rival_exposes_sorted()
    ensures { (schema : SchemaParts) (constants : List Value) (queries : List Query) (query : Query) (base : State)
        (head : List Val) (rival : Branch) (cost : ℕ) →
        IsWellFormed schema → RulesFit schema constants →
        ((q : Query) → Contains queries q → QueryHasConstants constants q) →
        IsBase schema constants query base head → AreSortedGrounds schema base.facts →
        IsSortedRival schema constants queries query rival → IsCost schema rival cost →
        (exposures : List Exposure) × IsExposing schema constants base.facts [] exposures
        × (exposures_cost exposures ≤ cost)
        × ((most : ℕ) → most + length constants ≤ 2 ^ 63 →
        HasSortedGoalOver schema constants queries head base.next most (exposed_facts exposures)) }
{}

/// A state at rest over facts and a sorted one have a product that is one too, in which a head answers a query only where it does in both. It
/// is sorted, since its constants are those of both, and it has a label for each pair of their values. No run is asked for.
pub fn rests_meet()
    ensures { (schema : SchemaParts) (constants : List Value) (next most less : ℕ) (facts : List Ground) (one other : State) →
        RulesFit schema constants → AreNamed constants next facts →
        IsRest schema constants next most facts one → IsSortedRest schema constants next less facts other →
        (end : State)
        × IsSortedRest schema constants next (next + (most + length constants) * (less + length constants)) facts end
        × ((query : Query) (head : List Val) → ((v : Val) → Contains head v → IsNamed constants next v) →
        IsQueryAnswer Const (GroundsOf end.facts) query head →
        IsQueryAnswer Const (GroundsOf one.facts) query head × IsQueryAnswer Const (GroundsOf other.facts) query head) }
{}

/// A goal of facts on sorted states is one on all states, with so many fewer labels, and among the queries that have an answer on some sorted
/// state at rest over the facts. So only those are looked for that have one on the base.
pub fn possible_goals()
    ensures { (schema : SchemaParts) (constants : List Value) (queries goals : List Query) (head : List Val)
        (next most less : ℕ) (facts : List Ground) (base : State) →
        RulesFit schema constants → AreNamed constants next facts →
        ((v : Val) → Contains head v → IsNamed constants next v) → IsSortedRest schema constants next less facts base →
        ((query : Query) → Contains queries query → IsQueryAnswer Const (GroundsOf base.facts) query head →
        Contains goals query) →
        HasSortedGoalOver schema constants queries head next (next + (most + length constants) * (less + length constants)) facts →
        HasGoalOver schema constants goals head next most facts }
{}

/// A rival on sorted models gives exposures in order that cost no more, and whose facts have a goal among the queries that have an answer
/// on the base, where there are integers for a label of each pair of values. So a search looks for these queries alone, and on all states.
pub fn rival_exposes_possible()
    ensures { (schema : SchemaParts) (constants : List Value) (queries goals : List Query) (query : Query) (base : State)
        (head : List Val) (rival : Branch) (cost : ℕ) →
        IsWellFormed schema → RulesFit schema constants →
        ((q : Query) → Contains queries q → QueryHasConstants constants q) →
        IsBase schema constants query base head → AreSortedGrounds schema base.facts →
        ((q : Query) → Contains queries q → IsQueryAnswer Const (GroundsOf base.facts) q head → Contains goals q) →
        IsSortedRival schema constants queries query rival → IsCost schema rival cost →
        (exposures : List Exposure) × IsExposing schema constants base.facts [] exposures
        × (exposures_cost exposures ≤ cost)
        × ((most : ℕ) →
        base.next + (most + length constants) * (base.next + length constants) + length constants ≤ 2 ^ 63 →
        HasGoalOver schema constants goals head base.next most (exposed_facts exposures)) }
{}
