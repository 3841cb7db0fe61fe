// Numbers in texts.
ghost use Rattle.std.specs.Prelude.{◌≡◌, ◌++◌, OnOk};
ghost use Rattle.std.specs.Fmt.{decimal};
ghost use Rattle.pq_text.specs.Utf8.{KeepsUtf8};

use lists::NoMemory;
use pq_text::print_number;

/// Appends the digits of a number.
pub fn push_number(out: &mut Vec<u8>, number: u64) -> Result<(), NoMemory>
    ensures text { OnOk result (out.new.items ≡ out.old.items ++ decimal number) }
    ensures utf8 { OnOk result (KeepsUtf8 out.old.items out.new.items) }
{
    print_number(out, number)
}
