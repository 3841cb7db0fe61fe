// What the pair of a proof is worth.
ghost use Rattle.std.specs.Prelude.{◌≡◌, ℕ, List, Contains, length};
ghost use Rattle.meaning.specs.declared.types.SchemaParts.{SchemaParts};
ghost use Rattle.meaning.specs.declared.types.Statement.{Statement};
ghost use Rattle.meaning.specs.declared.types.Query.{Query};
ghost use Rattle.meaning.specs.declared.types.Firing.{Firing};
ghost use Rattle.meaning.specs.declared.types.Ground.{Ground};
ghost use Rattle.meaning.specs.declared.types.Val.{Val};
ghost use Rattle.meaning.specs.Values.{Value};
ghost use Rattle.meaning.specs.Runs.{Proof, IsRun, opening, frozen_head, IsStuck};
ghost use Rattle.meaning.specs.Fitting.{RulesFit, QueryFits, QueryHasConstants, IsKept};
ghost use Rattle.meaning.specs.Conjunctive.{StandFor};
ghost use Rattle.meaning.specs.Sorts.{AtomsAreSorted};
ghost use Rattle.meaning.specs.Triggers.{AreNumbered};
ghost use Rattle.integer_laws.specs.Sorted.{AreSortedFacts, AreSortedGrounds, AreSortedRules};
ghost use Rattle.meaning.specs.Claims.{Refutes};
ghost use Rattle.findings.specs.declared.refutation.Witness.{Witness};
ghost use Rattle.no_plan_witness.specs.declared.fault.WitnessFault.{WitnessFault as Fault};
ghost use Rattle.no_plan_witness.specs.declared.fault.WitnessFault.TheVariants.{NoMemory};
ghost use Rattle.no_plan_witness.specs.Witnesses.{IsWitnessOf};
ghost use Rattle.no_plan_witness.specs.Judging.{IsFault};

/// A run from the opening proof, after which nothing is active and no query has a goal, gives a witness that refutes.
pub fn witnesses_refute()
    ensures { (schema : SchemaParts) (constants : List Value) (statement : Statement) (queries : List Query) (query : Query)
        (log : List Firing) (end : Proof) (pair : Witness) →
        RulesFit schema constants → StandFor schema queries statement → Contains queries query →
        ((q : Query) → Contains queries q → QueryHasConstants constants q) → QueryFits schema query →
        IsRun schema constants 0 (opening query) log end → IsStuck schema constants queries end (frozen_head query) →
        IsWitnessOf schema constants end.base end.copy (frozen_head query) pair →
        Refutes schema constants statement pair.first pair.second pair.answer }
{}

/// The same of a proof in which nothing is active and no query has a goal, whatever made it, if it has what runs keep.
pub fn stuck_refutes()
    ensures { (schema : SchemaParts) (constants : List Value) (statement : Statement) (queries : List Query) (query : Query)
        (end : Proof) (pair : Witness) →
        RulesFit schema constants → StandFor schema queries statement → Contains queries query →
        ((q : Query) → Contains queries q → QueryHasConstants constants q) → QueryFits schema query →
        IsKept schema constants query end → IsStuck schema constants queries end (frozen_head query) →
        IsWitnessOf schema constants end.base end.copy (frozen_head query) pair →
        Refutes schema constants statement pair.first pair.second pair.answer }
{}

/// A witness of sorted facts has integers at integer columns, in both instances.
pub fn witness_sorted()
    ensures { (schema : SchemaParts) (constants : List Value) (base copy : List Ground) (head : List Val) (pair : Witness) →
        AreSortedGrounds schema base → AreSortedGrounds schema copy → IsWitnessOf schema constants base copy head pair →
        AreSortedFacts schema pair.first × AreSortedFacts schema pair.second }
{}

/// So has that of a run from the opening proof of a query with sorted atoms, where the rules are sorted.
pub fn witnesses_sorted()
    ensures { (schema : SchemaParts) (constants : List Value) (query : Query) (log : List Firing) (end : Proof) (pair : Witness) →
        AreNumbered schema.rules → AreSortedRules schema → AtomsAreSorted schema query.atoms →
        IsRun schema constants 0 (opening query) log end →
        IsWitnessOf schema constants end.base end.copy (frozen_head query) pair →
        AreSortedFacts schema pair.first × AreSortedFacts schema pair.second }
{}

/// The answer of a witness has one value for each of the head.
pub fn answer_length()
    ensures { (schema : SchemaParts) (constants : List Value) (first second : List Ground) (head : List Val) (pair : Witness) →
        IsWitnessOf schema constants first second head pair → length pair.answer ≡ length head }
{}

/// A pair with a fault does not refute, unless the fault is a lack of memory.
pub fn faulty_pairs_do_not_refute()
    ensures { (schema : SchemaParts) (constants : List Value) (statement : Statement) (pair : Witness) (fault : Fault) →
        IsFault schema constants statement pair fault →
        Refutes schema constants statement pair.first pair.second pair.answer → fault ≡ NoMemory }
{}
