// The classes of methods.

use crawl_rounds::classes;
use lists::Places;
use std::alloc::Global;
use std::test::Fail;
use tgd_reader::read_schema;

/// Two methods are of one class: a relation and inputs.
const METHODS: &str = "relation r(a, b)
relation s(c)
method one on s(c) cost 1
method by_b on r(b) cost 1
method all on r() cost 1
method other on s(c) cost 2
";

const CLASSES: [(u32, &[u32]); 3] = [(0, &[]), (0, &[1]), (1, &[0])];

fn are_classes(found: &[(u32, &Places)]) -> bool {
    if found.len() != CLASSES.len() {
        return false;
    }
    for (class, wanted) in found.iter().zip(&CLASSES) {
        if class.0 != wanted.0 || class.1.as_slice() != wanted.1 {
            return false;
        }
    }
    true
}

fn finds_classes(alloc: Global) -> Result<bool, Fail> {
    let schema = read_schema(alloc, METHODS.as_bytes())?;
    let found = classes(alloc, schema.methods.as_slice())?;
    Ok(are_classes(&found))
}

#[test]
fn classes_come_once_and_ascend(rt: HostRuntime) -> Result<(), Fail> {
    assert!(rt; finds_classes(rt.alloc())?);
    Ok(())
}
