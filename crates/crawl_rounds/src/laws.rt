// Laws of the rounds: each is the contract of a function that does nothing.

ghost use Rattle.std.specs.Prelude.{◌≡◌, ◌↔◌, ℕ, suc, Bool, List, [], ◌∷◌, ◌++◌, length, map, flat_map};
ghost use Rattle.std.specs.List.Sorted.{IsStrictlySortedBy};
ghost use Rattle.meaning.specs.declared.types.Fact.{Fact};
ghost use Rattle.meaning.specs.declared.types.Request.{Request};
ghost use Rattle.meaning.specs.declared.types.SchemaParts.{SchemaParts};
ghost use Rattle.meaning.specs.Values.{Value};
ghost use Rattle.meaning.specs.Requests.{rows_cmp};
ghost use Rattle.meaning.specs.Crawls.{IsReceived, IsCrawlRound, AreCrawlRounds, IsCrawl};
ghost use Rattle.crawl_rounds.specs.Rows.{Marked, rows_of, class_rows, last_values, fresh_count, row_count};
ghost use Rattle.crawl_rounds.specs.Rounds.{Class, marked_cmp, round_requests, round_count};
ghost use Rattle.crawl_rounds.specs.Log.{Answered, requests_of, Log, answers_of, rounds_of, IsNextRound, IsCrawlLog, AreOf, IsAmong};

/// A class has as many rows as its count says.
pub fn rows_counted()
    ensures { (first : Bool) (values : List Marked) (inputs : ℕ) →
        length (class_rows first values inputs) ≡ row_count first (length values) (fresh_count values) inputs }
{}

/// A round has as many requests as its count says.
pub fn round_counted()
    ensures { (first : Bool) (values : List Marked) (classes : List Class) →
        length (round_requests first values classes) ≡ round_count first (length values) (fresh_count values) classes }
{}

/// The rows of a class ascend, and each is there once, where the values do.
pub fn rows_ascend()
    ensures { (first : Bool) (values : List Marked) → IsStrictlySortedBy marked_cmp values → (inputs : ℕ) →
        IsStrictlySortedBy rows_cmp (class_rows first values inputs) }
{}

/// The rows are those that a row of one value less and the values that it goes on with make.
pub fn rows_by_last_place()
    ensures { (first : Bool) (values : List Marked) (inputs : ℕ) → class_rows first values (suc inputs)
        ≡ flat_map (λ row. map (λ v. row.0 ++ v.0 ∷ []) (last_values values row.1)) (rows_of first values inputs) }
{}

/// On each instance that gave the answers of a log its rounds are those of a crawl, and the next one is a round too.
pub fn log_has_rounds()
    ensures rounds { (schema : SchemaParts) (constants : List Value) (facts : List Fact) (log : Log) →
        IsCrawlLog schema constants log → AreOf facts (answers_of log) →
        AreCrawlRounds schema constants facts [] (rounds_of log) }
    ensures next { (schema : SchemaParts) (constants : List Value) (facts : List Fact) (log : Log)
        (round : List Request) → IsCrawlLog schema constants log → AreOf facts (answers_of log) →
        IsNextRound schema constants log round →
        IsCrawlRound schema constants facts (requests_of (answers_of log)) round }
{}

/// Where nothing is left to ask, the requests of a log are a crawl.
pub fn log_is_a_crawl()
    ensures { (schema : SchemaParts) (constants : List Value) (facts : List Fact) (log : Log) →
        IsCrawlLog schema constants log → AreOf facts (answers_of log) → IsNextRound schema constants log [] →
        IsCrawl schema constants facts (requests_of (answers_of log)) }
{}

/// The facts in the answers are those that the requests received.
pub fn answers_are_received()
    ensures { (facts : List Fact) (answers : List Answered) → AreOf facts answers → (fact : Fact) →
        IsAmong answers fact ↔ IsReceived facts (requests_of answers) fact }
{}
