// The sum of the costs of a branch's methods.
ghost use Rattle.std.specs.Prelude.{◌≡◌, ◌↔◌, ◌≤◌, IsTrue, length};
ghost use Rattle.meaning.specs.declared.types.Method.{Method};
ghost use Rattle.meaning.specs.Costs.{IsCost};
ghost use Rattle.meaning.specs.Plans.{IsMethod, NamesMethods};
ghost use Rattle.access_schema.specs.Meaning.{meaning_of};
ghost use Rattle.access_schema.specs.declared.limits.TheConstants.{MOST_COST};

use crate::schema::Schema;
use lists::Text;
use meaning::types::Branch;

/// The most steps of a branch whose cost is counted. A method costs at most a million, so the sum fits 64 bits.
pub const MOST_STEPS: usize = 1_000_000;

/// The cost of a branch, which is the sum of the costs of its steps' methods. Takes no memory.
///
/// A step's method is looked for among the at most 256 methods of the schema one by one, so the call compares as many names a step.
pub fn cost(branch: &Branch, schema: &Schema) -> u64
    requires named { NamesMethods (meaning_of schema.now) branch.now.steps }
    requires few { length branch.now.steps ≤ MOST_STEPS }
    ensures { IsCost (meaning_of schema.now) branch.now result }
{
    let mut sum = 0;
    let mut left = branch.steps.as_slice();
    while let [step, rest @ ..] = left {
        sum += method_cost(schema, &step.method) as u64;
        left = rest;
    }
    sum
}

/// Whether each step of the branch names a method of the schema. Takes no memory.
pub fn names_methods(branch: &Branch, schema: &Schema) -> bool
    ensures { IsTrue result ↔ NamesMethods (meaning_of schema.now) branch.now.steps }
{
    let mut left = branch.steps.as_slice();
    while let [step, rest @ ..] = left {
        if schema.method(&step.method).is_none() {
            return false;
        }
        left = rest;
    }
    true
}

/// The cost of the schema's method of that name.
fn method_cost(schema: &Schema, name: &Text) -> u32
    requires { (method : Method) × IsMethod (meaning_of schema.now) name.now method }
    ensures cost { (method : Method) × IsMethod (meaning_of schema.now) name.now method × (result ≡ method.cost) }
    ensures limit { result ≤ MOST_COST }
{
    let number = schema.method(name).unwrap();
    schema.methods.get(number as usize).unwrap().cost
}
