// What a part of a schema and the whole of it have in common.
ghost use Rattle.std.specs.Prelude.{List};
ghost use Rattle.meaning.specs.declared.types.Rule.{Rule};
ghost use Rattle.meaning.specs.declared.types.Query.{Query};
ghost use Rattle.meaning.specs.declared.types.Branch.{Branch};
ghost use Rattle.meaning.specs.declared.types.SchemaParts.{SchemaParts};
ghost use Rattle.meaning.specs.Values.{Value};
ghost use Rattle.meaning.specs.Extract.{IsQueryRival};
ghost use Rattle.meaning.specs.Fitting.{QueryFits};
ghost use Rattle.schema_parts.specs.Parts.{with_rules, AreSome};

/// A rival over some of the rules is one over all of them: an instance that meets all of them meets these.
pub fn fewer_rivals()
    ensures { (whole : SchemaParts) (rules : List Rule) (constants : List Value) (queries : List Query) (query : Query)
        (branch : Branch) → AreSome whole rules → IsQueryRival (with_rules whole rules) constants queries query branch →
        IsQueryRival whole constants queries query branch }
{}

/// A query that fits a schema fits it with other rules.
pub fn queries_fit()
    ensures { (whole : SchemaParts) (rules : List Rule) (query : Query) → QueryFits whole query →
        QueryFits (with_rules whole rules) query }
{}
