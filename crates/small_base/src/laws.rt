//! What a closing of facts and a query with more atoms show.
ghost use Rattle.std.specs.Prelude.{◌≤◌, ℕ, List, Contains};
ghost use Rattle.meaning.specs.declared.types.Branch.{Branch};
ghost use Rattle.meaning.specs.declared.types.Ground.{Ground};
ghost use Rattle.meaning.specs.declared.types.Query.{Query};
ghost use Rattle.meaning.specs.declared.types.SchemaParts.{SchemaParts};
ghost use Rattle.meaning.specs.declared.types.Val.{Val};
ghost use Rattle.meaning.specs.declared.types.Val.TheVariants.{Const};
ghost use Rattle.meaning.specs.Values.{Value};
ghost use Rattle.meaning.specs.Matching.{IsQueryAnswer, GroundsOf};
ghost use Rattle.meaning.specs.Triggers.{State};
ghost use Rattle.meaning.specs.Naming.{AreNamed};
ghost use Rattle.meaning.specs.Fitting.{RulesHaveConstants, Fit};
ghost use Rattle.meaning_laws.specs.Rests.{HasGoalOver};
ghost use Rattle.integer_laws.specs.Claimed.{IsSortedRival};
ghost use Rattle.small_base.specs.Closing.{IsClosing};
ghost use Rattle.small_base.specs.Closed.{HasMore};

/// A rival for a query on sorted models is one for each query with its head and more atoms.
pub fn rivals_of_more()
    ensures { (schema : SchemaParts) (constants : List Value) (queries : List Query) (query more : Query) (branch : Branch) →
        HasMore query more → IsSortedRival schema constants queries query branch →
        IsSortedRival schema constants queries more branch }
{}

/// Facts with a closing in which no query has the head have no goal, where states may have as many labels as it has: rules have known
/// constants, and the facts are named and fit.
pub fn closed_refutes()
    ensures { (schema : SchemaParts) (constants : List Value) (queries : List Query) (facts : List Ground) (next most : ℕ)
        (state : State) (head : List Val) → RulesHaveConstants constants schema.rules →
        AreNamed constants next facts → Fit schema facts → IsClosing schema facts next state → state.next ≤ most →
        ((query : Query) → Contains queries query → IsQueryAnswer Const (GroundsOf state.facts) query head → ⊥) →
        HasGoalOver schema constants queries head next most facts → ⊥ }
{}
