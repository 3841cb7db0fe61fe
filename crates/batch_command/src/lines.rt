// The text of a decision behind the line of its query.
ghost use Rattle.std.specs.Prelude.{◌≡◌, ◌++◌, IfOk, OnOk};
ghost use Rattle.batch_command.specs.Deciding.{query_line, IsNumbered};

use access_schema::Schema;
use explain::decision_text;
use findings::Decision;
use lists::{Bytes, NoMemory};
use pq_text::print_number;
use std::alloc::Global;

/// The text of the decision on the query of this number, behind the line of the query.
pub fn numbered_text(
    alloc: Global,
    number: u32,
    decision: &Decision,
    schema: &Schema,
) -> Result<Bytes, NoMemory>
    ensures { IfOk result (IsNumbered number schema.now decision.now) }
{
    let text = decision_text(alloc, decision, schema)?;
    let mut whole = Vec::new(alloc);
    push_query_line(&mut whole, number)?;
    whole.extend_from_slice(text.as_slice())?;
    Ok(Bytes::from_vec(whole))
}

// The line in front of a decision.
fn push_query_line(text: &mut Vec<u8>, number: u32) -> Result<(), NoMemory>
    ensures { OnOk result (text.new.items ≡ text.old.items ++ query_line number) }
{
    text.extend_from_slice(b"# query ")?;
    print_number(text, number as u64)?;
    text.extend_from_slice(b"\n")
}
