// The answers of a statement, select by select.
ghost use Rattle.std.specs.Prelude.{◌≡◌, ◌≤◌, ◌↔◌, IfOk, All, List, ℕ, Contains, length, map};
ghost use Rattle.std.specs.List.Sorted.{IsStrictlySortedBy};
ghost use Rattle.meaning.specs.declared.types.Fact.{Fact};
ghost use Rattle.meaning.specs.declared.types.Term.TheVariants.{Var};
ghost use Rattle.meaning.specs.Values.{Row};
ghost use Rattle.meaning.specs.Instances.{IsInstance};
ghost use Rattle.meaning.specs.Matching.{OccursIn, AnswersQuery};
ghost use Rattle.meaning.specs.Answers.{Answers, AnswersSelect};
ghost use Rattle.meaning.specs.Conjunctive.{SelectFits};
ghost use Rattle.access_schema.specs.Meaning.{meaning_of};
ghost use Rattle.row_text.specs.RowText.{row_cmp};
ghost use Rattle.homomorphism.specs.Instances.{AreFactsOf};
ghost use Rattle.sql_conjunctive.specs.Form.{IsNumbered};
ghost use Rattle.sql_conjunctive.specs.Rows.{AreFree, AreRowsOf, FitsWithFew, HasFew, head_under};

use crate::conjoin::conjunctive;
use crate::form::Conjunctive;
use access_schema::Schema;
use homomorphism::{Assignment, Bindings, Store, all_matches, row_under};
use lists::{NoMemory, Row, Rows, Seq};
use meaning::types::{Instance, Query, Select, Statement, Term};
use row_text::{PackedRows, ascending_distinct};
use std::alloc::Global;

/// The answers of the statement on the instance, ascending column by column by their bytes, each once.
pub fn answers(
    alloc: Global,
    statement: &Statement,
    schema: &Schema,
    instance: &Instance,
) -> Result<Rows, NoMemory>
    requires fits { All (FitsWithFew (meaning_of schema.now)) statement.now.selects }
    requires instance { IsInstance (meaning_of schema.now) instance.now }
    ensures members { IfOk result (λ rows. (row : Row) → Contains rows row ↔ Answers statement.now instance.now row) }
    ensures ascends { IfOk result (λ rows. IsStrictlySortedBy row_cmp rows) }
{
    let rows = found_rows(alloc, statement.selects.as_slice(), schema, instance)?;
    let packed = PackedRows::from_rows(alloc, rows.as_slice())?;
    drop(rows);
    let distinct = ascending_distinct(alloc, &packed)?;
    unpacked(alloc, &distinct)
}

/// The answers of the selects on the instance, in any order.
fn found_rows(
    alloc: Global,
    selects: &[Select],
    schema: &Schema,
    instance: &Instance,
) -> Result<Vec<Row>, NoMemory>
    requires fits { All (FitsWithFew (meaning_of schema.now)) selects.now }
    requires instance { IsInstance (meaning_of schema.now) instance.now }
    ensures { IfOk result (λ rows. AreRowsOf instance.now selects.now rows.items) }
{
    let store = Store::of_instance(alloc, instance)?;
    // lent, so that its drop is proved at this one way out, and not at each of the loop
    all_rows(alloc, selects, schema, &store)
}

/// The answers of the selects on the facts of the store, in any order.
fn all_rows(
    alloc: Global,
    selects: &[Select],
    schema: &Schema,
    store: &Store,
) -> Result<Vec<Row>, NoMemory>
    requires { All (FitsWithFew (meaning_of schema.now)) selects.now }
    ensures { IfOk result (λ rows. (facts : List Fact) → IsInstance (meaning_of schema.now) facts → AreFactsOf facts store.now →
        AreRowsOf facts selects.now rows.items) }
{
    let mut rows = Vec::new(alloc);
    for select in selects {
        let mut more = select_rows(alloc, select, schema, store)?;
        rows.append(&mut more)?;
    }
    Ok(rows)
}

/// The rows, each with memory of its own.
fn unpacked(alloc: Global, packed: &PackedRows) -> Result<Rows, NoMemory>
    ensures { IfOk result (λ rows. rows ≡ packed.now) }
{
    Ok(Seq::from_vec(packed.rows(alloc)?))
}

/// The answers of the select on the facts of the store, in any order.
fn select_rows(
    alloc: Global,
    select: &Select,
    schema: &Schema,
    store: &Store,
) -> Result<Vec<Row>, NoMemory>
    requires fits { SelectFits (meaning_of schema.now) select.now }
    requires froms { HasFew select.now }
    ensures { IfOk result (λ rows. (facts : List Fact) → IsInstance (meaning_of schema.now) facts → AreFactsOf facts store.now →
        (row : Row) → Contains rows.items row ↔ AnswersSelect select.now facts row) }
{
    let form = conjunctive(alloc, select, schema)?;
    match form {
        Conjunctive::Never => Ok(Vec::new(alloc)),
        Conjunctive::Query(query) => query_rows(alloc, &query, store),
    }
}

/// The answers of the query on the facts of the store, in any order.
fn query_rows(alloc: Global, query: &Query, store: &Store) -> Result<Vec<Row>, NoMemory>
    requires numbered { IsNumbered query.now }
    requires head { (x : ℕ) → Contains query.now.head (Var x) → OccursIn query.now.atoms x }
    ensures { IfOk result (λ rows. (facts : List Fact) → AreFactsOf facts store.now →
        (row : Row) → Contains rows.items row ↔ AnswersQuery query.now facts row) }
{
    let fixed = no_values(alloc, query.variables)?;
    let found = all_matches(alloc, &query.atoms, store, &fixed)?;
    head_rows(alloc, query.head.as_slice(), found.as_slice())
}

/// No value for so many variables.
fn no_values(alloc: Global, variables: u32) -> Result<Bindings, NoMemory>
    ensures width { IfOk result (λ fixed. length fixed ≡ variables) }
    ensures free { IfOk result AreFree }
{
    let mut fixed = Seq::new(alloc);
    while fixed.len() < variables as usize {
        fixed.push(None)?;
    }
    Ok(fixed)
}

/// The row of the head under each assignment.
fn head_rows(alloc: Global, head: &[Term], assignments: &[Assignment]) -> Result<Vec<Row>, NoMemory>
    ensures { IfOk result (λ rows. rows.items ≡ map (head_under head.now) assignments.now) }
{
    let mut rows = Vec::with_capacity(alloc, assignments.len())?;
    for assignment in assignments {
        rows.push(row_under(alloc, head, assignment.vals.as_slice())?)?;
    }
    Ok(rows)
}
