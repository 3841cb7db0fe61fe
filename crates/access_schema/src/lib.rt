//! Access schemas: relations with their access methods, rules, constants and source lines.
//!
//! Crates above use this: every `Schema` keeps `IsSchema`, so it is well formed wherever it comes from, and `Schema::build`
//! makes one from the named parts of a schema text. Begin at `specs/Invariant.antt`.
#![tactic(auto)]

mod bad_value;
mod build;
mod collect;
mod content;
mod cost_laws;
mod costs;
mod fault;
mod first_fault;
mod laws;
mod limits;
mod lookup;
mod named;
mod names;
mod part;
mod part_faults;
mod part_limits;
mod recursion;
mod rules;
mod schema;
mod wrong_sort;

pub use cost_laws::{costs_are_unique, lawful_branches_name_methods};
pub use costs::{MOST_STEPS, cost, names_methods};
pub use fault::{BuildFault, Limit, SchemaFault};
pub use laws::{bodies_fit, rules_are_sorted, rules_fit, schemas_are_well_formed};
pub use limits::{
    MOST_BODY_ATOMS, MOST_COLUMNS, MOST_CONSTANTS, MOST_COST, MOST_HEAD_ATOMS, MOST_METHODS,
    MOST_RELATIONS, MOST_RULES, MOST_VARIABLES,
};
pub use lists::{Copies, Exact, NoMemory, Places, Row, Rows, Seq, Text, Texts};
pub use meaning::types::{
    Atom, Atoms, Fact, Instance, Method, Methods, Query, Relation, Relations, Rule, Rules, Sort,
    Sorts, Term, Terms,
};
pub use named::{are_named, have_sorts};
pub use names::add_once;
pub use part::{NamedAtom, NamedAtoms, NamedTerm, NamedTerms, Part, Parts};
pub use schema::{Schema, SourceLine, SourceLines};
