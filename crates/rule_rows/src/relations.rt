// The relations that some rule names.
ghost use Rattle.std.specs.Prelude.{◌≡◌, ◌↔◌, ◌⊎◌, ◌++◌, ℕ, Contains, IfOk, OnOk};
ghost use Rattle.std.specs.List.Sorted.{IsStrictlyIncreasing};
ghost use Rattle.rule_rows.specs.RuleRelations.{RulesName, AreRuleRelations};
ghost use Rattle.rule_rows.specs.Listing.{relations_of};

use access_schema::Schema;
use meaning::types::Atom;
use std::alloc::{AllocError, Global};

/// The relations that some rule of the schema names, ascending, each once.
pub fn rule_relations(alloc: Global, schema: &Schema) -> Result<Vec<u32>, AllocError>
    ensures { IfOk result (λ rels. AreRuleRelations schema.now rels.items) }
{
    let mut rels = Vec::new(alloc);
    for rule in schema.rules.as_slice() {
        add_relations(&mut rels, rule.body.as_slice())?;
        add_relations(&mut rels, rule.head.as_slice())?;
    }
    rels.sort_unstable();
    rels.dedup(); // each once
    Ok(rels)
}

fn add_relations(rels: &mut Vec<u32>, atoms: &[Atom]) -> Result<(), AllocError>
    ensures { OnOk result (rels.new.items ≡ rels.old.items ++ relations_of atoms.now) }
{
    for atom in atoms {
        rels.push(atom.rel)?;
    }
    Ok(())
}

/// The relations that some rule of the schema names, with those that a plan accesses, ascending, each once.
pub fn with_accessed(
    alloc: Global,
    schema: &Schema,
    accessed: &[u32],
) -> Result<Vec<u32>, AllocError>
    ensures ascends { IfOk result (λ rels. IsStrictlyIncreasing rels.items) }
    ensures exactly { IfOk result (λ rels. (rel : ℕ) → Contains rels.items rel ↔ (Contains accessed.now rel ⊎ RulesName schema.now rel)) }
{
    let mut rels = rule_relations(alloc, schema)?;
    rels.extend_from_slice(accessed)?;
    rels.sort_unstable();
    rels.dedup();
    Ok(rels)
}
