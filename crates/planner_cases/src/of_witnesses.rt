// Refutations that are read: the line that does not fit, and a text that is one.
use explain::{WitnessReadFault, read_witness};
use std::alloc::Global;
use std::test::Fail;
use tgd_reader::read_schema;

/// One relation with two columns.
const SCHEMA: &str = "relation r(a, b)\n";

/// Texts, and the line of each that does not fit, counted from 1, or 0 where it is a refutation.
const TEXTS: [(&str, u32); 4] = [
    // a relation that the schema lacks
    ("no plan\nanswer '1'\nfirst\nq('1')\n", 4),
    // no line behind the fourth
    ("no plan\nanswer '1'\nfirst\nsecond\n", 5),
    // one value for two columns
    ("no plan\nanswer '1'\nfirst\nr('1')\nsecond\nend\n", 4),
    ("no plan\nanswer '1'\nfirst\nr('1', '2')\nsecond\nend\n", 0),
];

fn unfit_line(alloc: Global, text: &str) -> Result<u32, Fail> {
    if text.len() > 1000 {
        return Err(Fail::from("a text has more than 1000 bytes"));
    }
    let schema = read_schema(alloc, SCHEMA.as_bytes())?;
    match read_witness(alloc, text.as_bytes(), &schema) {
        Ok(_) => Ok(0),
        Err(WitnessReadFault::Line { line }) => Ok(line),
        Err(_) => Err(Fail::from("the text is not UTF-8, or memory ran out")),
    }
}

#[test]
fn a_refutation_is_read_up_to_the_line_that_does_not_fit(rt: HostRuntime) -> Result<(), Fail> {
    for (text, line) in TEXTS {
        assert_eq!(rt; unfit_line(rt.alloc(), text)?, line, "{text}");
    }
    Ok(())
}
