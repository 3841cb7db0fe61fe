// What exposures read of methods.
ghost use Rattle.std.specs.Prelude.{◌≡◌, ◌↔◌, IsTrue, IfOk};
ghost use Rattle.accessible_copy.specs.Ways.{ways_of};

use lists::{Copies, Exact, NoMemory, Places};
use meaning::types::Method;
use std::alloc::Global;

/// The relation and the input places of a method.
#[derive(Drop)]
pub struct Way {
    pub rel: u32,
    pub inputs: Places,
}

/// The ways of the methods, in order.
pub(crate) fn ways_of(alloc: Global, methods: &[Method]) -> Result<Vec<Way>, NoMemory>
    ensures { IfOk result (λ ways. ways.items ≡ ways_of methods.now) }
{
    let mut ways = Vec::new(alloc);
    for method in methods {
        ways.push(Way {
            rel: method.rel,
            inputs: method.inputs.copy(alloc)?,
        })?;
    }
    Ok(ways)
}

/// Whether these are the ways of the methods. Takes no memory.
pub(crate) fn are_ways(ways: &[Way], methods: &[Method]) -> bool
    ensures { IsTrue result ↔ (ways.now ≡ ways_of methods.now) }
{
    let mut rest = ways;
    let mut others = methods;
    while let ([way, more @ ..], [method, left @ ..]) = (rest, others) {
        if way.rel != method.rel || !way.inputs.same(&method.inputs) {
            return false;
        }
        rest = more;
        others = left;
    }
    rest.is_empty() && others.is_empty()
}
