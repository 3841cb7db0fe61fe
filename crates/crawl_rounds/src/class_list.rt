//! The classes of a schema's methods.

ghost use Rattle.std.specs.Prelude.{◌≡◌, map, IfOk};
ghost use Rattle.crawl_rounds.specs.Rounds.{AreClasses};
ghost use Rattle.crawl_rounds.specs.Lent.{lent_class, class_of};

use lists::{NoMemory, Places};
use meaning::types::Method;
use std::alloc::Global;

/// The relations and inputs of the methods, each once and in ascending order, with the inputs lent.
pub fn classes(alloc: Global, methods: &[Method]) -> Result<Vec<(u32, &Places)>, NoMemory>
    ensures { IfOk result (λ found. AreClasses methods.now (map lent_class found.items)) }
{
    let mut found = lent(alloc, methods)?;
    found.sort_unstable();
    found.dedup();
    Ok(found)
}

// The classes as they stand, one for each method.
fn lent(alloc: Global, methods: &[Method]) -> Result<Vec<(u32, &Places)>, NoMemory>
    ensures { IfOk result (λ found. map lent_class found.items ≡ map class_of methods.now) }
{
    let mut found = Vec::with_capacity(alloc, methods.len())?;
    for method in methods {
        found.push((method.rel, &method.inputs))?;
    }
    Ok(found)
}
