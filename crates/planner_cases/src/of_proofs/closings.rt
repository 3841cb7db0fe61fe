// Queries that are closed under rules.
use super::queries::{PAIRS, TWO_PAIRS, query};
use super::schemas::{ACCOUNTS, LEVELS, schema, tree};
use access_schema::Schema;
use homomorphism::variables_width;
use lists::NoMemory;
use meaning::types::Query;
use small_base::closed_query;
use std::alloc::Global;
use std::test::Fail;

/// How many atoms and variables the closed query has, where there is one.
fn counts(alloc: Global, schema: &Schema, query: &Query, most: u32) -> Result<String, NoMemory> {
    if variables_width(query.atoms.as_slice()) > query.variables as usize {
        return Err(NoMemory);
    }
    match closed_query(alloc, schema, query, most)? {
        Some(more) => {
            let atoms = more.atoms.len();
            format!(in alloc; "{atoms} atoms, {} variables", more.variables)
        }
        None => format!(in alloc; "none"),
    }
}

/// Whether the query of these atoms, closed with at most so many facts, has these counts.
fn is_closed(
    alloc: Global,
    schema: &Schema,
    atoms: &[(u32, &str)],
    most: u32,
    wanted: &str,
) -> Result<bool, Fail> {
    let query = query(alloc, atoms)?;
    let made = counts(alloc, schema, &query, most)?;
    Ok(made.as_str() == wanted)
}

// the accounts of both customers have one balance, and so one branch
#[test]
fn two_orders_share_the_labels_of_their_rules(rt: HostRuntime) -> Result<(), Fail> {
    let alloc = rt.alloc();
    let schema = schema(alloc, &ACCOUNTS)?;
    assert!(rt; is_closed(alloc, &schema, &PAIRS, 10, "3 atoms, 4 variables")?);
    let cases = [(4, "none"), (5, "5 atoms, 4 variables")];
    for (most, wanted) in cases {
        assert!(rt;
            is_closed(alloc, &schema, &TWO_PAIRS, most, wanted)?,
            "{wanted}"
        );
    }
    Ok(())
}

// one pair, two that begin with its second label, and then four on each level, where firings with new labels would double
#[test]
fn a_tree_of_sixteen_levels_has_four_pairs_a_level(rt: HostRuntime) -> Result<(), Fail> {
    let alloc = rt.alloc();
    let schema = tree(alloc, &LEVELS)?;
    let cases = [(58, "none"), (59, "59 atoms, 32 variables")];
    for (most, wanted) in cases {
        assert!(rt;
            is_closed(alloc, &schema, &PAIRS, most, wanted)?,
            "{wanted}"
        );
    }
    Ok(())
}
