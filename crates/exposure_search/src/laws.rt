//! What a search over the space of a proof shows of exposures and runs.
ghost use Rattle.std.specs.Prelude.{◌≡◌, ◌≤◌, ◌+◌, ℕ, List, [], Bool, Contains, length};
ghost use Rattle.meaning.specs.declared.types.Trigger.{Trigger};
ghost use Rattle.meaning.specs.declared.types.Firing.{Firing};
ghost use Rattle.meaning.specs.declared.types.Query.{Query};
ghost use Rattle.meaning.specs.declared.types.Val.{Val};
ghost use Rattle.meaning.specs.declared.types.Val.TheVariants.{Const};
ghost use Rattle.meaning.specs.Matching.{GroundsOf, IsQueryAnswer};
ghost use Rattle.meaning.specs.Triggers.{State, IsFiringRun};
ghost use Rattle.meaning.specs.Runs.{Proof, IsRun};
ghost use Rattle.meaning.specs.Naming.{IsNamed, AreNamed};
ghost use Rattle.meaning.specs.Fitting.{QueryHasConstants, Fit, RulesFit};
ghost use Rattle.meaning.specs.Extract.{Exposure, exposed_facts, exposures_cost, IsExposing};
ghost use Rattle.meaning_laws.specs.Rests.{HasGoalOver, new_labels};
ghost use Rattle.rule_pass.specs.Levels.{AreShort};
ghost use Rattle.least_search.specs.declared.node.Node.{Node};
ghost use Rattle.least_search.specs.Walks.{CanGain, IsNode, GoalsGrow};
ghost use Rattle.least_search.specs.declared.cuts.Cut.{Cut};
ghost use Rattle.least_search.specs.Costs.{IsLeastCost, AreRunsWithin, IsSpent};
ghost use Rattle.exposure_search.specs.Tries.{exposures_in};
ghost use Rattle.exposure_search.specs.Trials.{HasMoreToDo};
ghost use Rattle.exposure_search.specs.Exploring.{Exploring, space_size, most_labels, CanExpose, GainsAt, HasGoalAt, HasMatchAt, HasTry, IsFounded};

/// A match at the set of a node gives exposures in order at the node's cost, and copy firings after which there is a match.
pub fn match_exposes()
    ensures { (space : Exploring) (node : Node) → IsNode (space_size space) (CanExpose space) node → HasMatchAt space node.set.items →
        (made : List Exposure) × (copy : List Trigger) × (end : State) × (goal : Query)
        × IsExposing space.schema space.constants space.base.facts [] made
        × IsFiringRun space.schema.rules (record { facts = exposed_facts made; next = space.base.next }) copy end
        × Contains space.queries goal × IsQueryAnswer Const (GroundsOf end.facts) goal space.head
        × (exposures_cost made ≡ node.cost) }
{}

/// A cost that no walk to a goal is below is one that no exposures with a goal are below, though walks are of relevant facts alone, each of
/// which gains something: where rules are not recursive and have known constants, and the base facts are named and fit. The exposures' goal
/// is of states that may have as many labels more as one firing gives.
pub fn least_by_walks()
    ensures { (space : Exploring) (best : ℕ) → IsFounded space → AreShort space.schema.rules →
        RulesFit space.schema space.constants →
        AreNamed space.constants space.base.next space.base.facts → Fit space.schema space.base.facts →
        IsLeastCost (space_size space) (CanGain (CanExpose space) (GainsAt space)) (HasGoalAt space) best →
        (exposures : List Exposure) → IsExposing space.schema space.constants space.base.facts [] exposures →
        HasGoalOver space.schema space.constants space.queries space.head space.base.next
        (most_labels space.schema.rules + new_labels space.schema.rules) (exposed_facts exposures) →
        best ≤ exposures_cost exposures }
{}

/// What bounds the firings and exposures of all runs from the start bounds those of all tries.
pub fn runs_bound_tries()
    ensures { (space : Exploring) (m n : ℕ) → IsFounded space →
        ((log : List Firing) (end : Proof) → IsRun space.schema space.constants 0 space.start log end →
        (length log ≤ m) × (exposures_in log ≤ n)) → AreRunsWithin (HasTry space) m n }
{}

/// What a search of the space says where its units are spent, in terms of exposures: there are more sets of these, each below the bound,
/// and more firings due in their copies, than units.
pub fn spent_has_more()
    ensures { (space : Exploring) (cuts : List Cut) (bound units : ℕ) → IsFounded space →
        IsSpent (space_size space) (CanExpose space) (HasTry space) cuts bound units →
        HasMoreToDo space.schema space.constants space.base bound units }
{}

/// A match at a set is a goal of it, where rules and queries have known constants and the base facts and the head are named.
pub fn match_is_goal()
    ensures { (space : Exploring) (set : List Bool) → RulesFit space.schema space.constants →
        ((query : Query) → Contains space.queries query → QueryHasConstants space.constants query) →
        AreNamed space.constants space.base.next space.base.facts →
        ((v : Val) → Contains space.head v → IsNamed space.constants space.base.next v) →
        HasMatchAt space set → HasGoalAt space set }
{}

/// A goal of a set is one of each larger set.
pub fn goals_grow()
    ensures { (space : Exploring) → GoalsGrow (HasGoalAt space) }
{}
