// The facts that atoms are under a list of values.
ghost use Rattle.std.specs.Prelude.{◌≡◌, ◌≤◌, ◌<◌, length, map, IfOk};
ghost use Rattle.meaning.specs.Triggers.{bound, ground};
ghost use Rattle.homomorphism.specs.Bindings.{at};

use homomorphism::{Assigns, ground_under};
use lists::{Copies, NoMemory};
use meaning::types::{Atom, Ground, Val};
use std::alloc::Global;

/// The assignment of a list of values, one for each variable, by number.
#[derive(Drop)]
struct Listed<'a> {
    vals: &'a [Val],
}

impl Assigns for Listed<'_> {
    ghost value_at = { λ listed. at listed.vals.now };

    ghost covers = { λ listed x. x < length listed.vals.now };

    fn value(&self, alloc: Global, variable: u32) -> Result<Val, NoMemory> {
        self.vals[variable as usize].copy(alloc)
    }
}

/// The facts that the atoms are, in order, where the variables have these values.
pub fn facts_at(alloc: Global, atoms: &[Atom], vals: &[Val]) -> Result<Vec<Ground>, NoMemory>
    requires { bound atoms.now ≤ length vals.now }
    ensures { IfOk result (λ facts. facts.items ≡ map (ground (at vals.now)) atoms.now) }
{
    ground_under(alloc, atoms, &Listed { vals })
}
