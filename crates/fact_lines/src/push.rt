// What texts are made of: each call appends to a text, which stays one.
ghost use Rattle.std.specs.Prelude.{◌≡◌, ◌++◌, OnOk};
ghost use Rattle.pq_text.specs.Utf8.{KeepsUtf8};

use lists::NoMemory;

/// Appends a text as it is.
pub fn push_str(out: &mut Vec<u8>, text: &str) -> Result<(), NoMemory>
    ensures text { OnOk result (out.new.items ≡ out.old.items ++ text.now) }
    ensures utf8 { OnOk result (KeepsUtf8 out.old.items out.new.items) }
{
    out.extend_from_slice(text.as_bytes())?;
    Ok(())
}
