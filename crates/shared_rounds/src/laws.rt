// Laws of rounds that plans share: each is the contract of a function that does nothing.
ghost use Rattle.std.specs.Prelude.{◌≡◌, ◌↔◌, ◌≤◌, ◌++◌, ◌∷◌, [], List, ℕ, Contains, Some, length, slice_get};
ghost use Rattle.meaning.specs.declared.types.SchemaParts.{SchemaParts};
ghost use Rattle.meaning.specs.declared.types.Fact.{Fact};
ghost use Rattle.meaning.specs.declared.types.Plan.{Plan};
ghost use Rattle.meaning.specs.declared.types.Request.{Request};
ghost use Rattle.meaning.specs.Requests.{AreRequests};
ghost use Rattle.meaning.specs.Search.{AreDistinct};
ghost use Rattle.shared_rounds.specs.SharedRounds.{Anew, AreRounds, IsNth, IsOfPlans, IsWanted, Once, Turn, steps_in, turns_of};

/// The steps of a plan are counted through its branches, and there are as many as these have.
pub fn steps_are_counted()
    ensures nth { (plan : Plan) (n : ℕ) (turn : Turn) → slice_get (turns_of plan) n ≡ Some turn → IsNth plan n turn }
    ensures all { (plan : Plan) → length (turns_of plan) ≡ steps_in plan.branches }
{}

/// The rounds of one plan, each request asked anew, are the plan's requests in their order.
pub fn alone()
    ensures { (schema : SchemaParts) (facts : List Fact) (plan : Plan) (requests : List Request) →
        AreRounds schema facts (plan ∷ []) Anew (length (turns_of plan)) requests ↔ AreRequests schema plan facts requests }
{}

/// No request is asked twice, and those that are asked are just what some plan wants in one of the rounds.
pub fn each_once()
    ensures { (schema : SchemaParts) (facts : List Fact) (plans : List Plan) (n : ℕ) (requests : List Request) →
        AreRounds schema facts plans Once n requests →
        AreDistinct requests × ((request : Request) → Contains requests request ↔ IsWanted schema facts plans n request) }
{}

/// Once no plan has a step left, those that were asked are just the requests of the plans.
pub fn all_rounds()
    ensures { (schema : SchemaParts) (facts : List Fact) (plans : List Plan) (n : ℕ) (requests : List Request) →
        ((plan : Plan) → Contains plans plan → length (turns_of plan) ≤ n) → AreRounds schema facts plans Once n requests →
        (request : Request) → Contains requests request ↔ IsOfPlans schema facts plans request }
{}

/// A plan that is among the plans already adds no request.
pub fn again()
    ensures { (schema : SchemaParts) (facts : List Fact) (plans : List Plan) (plan : Plan) (n : ℕ) (requests : List Request) →
        Contains plans plan → AreRounds schema facts (plans ++ plan ∷ []) Once n requests ↔ AreRounds schema facts plans Once n requests }
{}
