// Bytes as a text.
ghost use Rattle.std.specs.Prelude.{◌≡◌, ◌<◌, ◌^◌, length, IfOk, IfErr, IsOk};
ghost use Rattle.std.specs.Str.{IsUtf8};
ghost use Rattle.pq_text.specs.Utf8.{IsFirstBad};

/// The bytes as a text, or the offset of the first byte that begins no UTF-8 character.
pub fn read_utf8(bytes: &[u8]) -> Result<&str, u32>
    requires { length bytes.now < 2 ^ 32 }
    ensures text { IfOk result (λ text. text.now ≡ bytes.now) }
    ensures succeeds { IsUtf8 bytes.now → IsOk result }
    ensures fault { IfErr result (λ offset. IsFirstBad bytes.now offset) }
{
    match str::from_utf8(bytes) {
        Ok(text) => Ok(text),
        Err(fault) => Err(fault.valid_up_to() as u32),
    }
}
