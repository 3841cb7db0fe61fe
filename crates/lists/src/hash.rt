// Hashes of texts.
ghost use Rattle.std.specs.Prelude.{◌≡◌};
ghost use Rattle.lists.specs.Hash.{mix};

/// A hash with a text mixed in, byte by byte.
pub fn mix(hash: u64, bytes: &[u8]) -> u64
    ensures { result ≡ mix hash bytes.now }
{
    let mut mixed = hash;
    for byte in bytes {
        mixed = mixed
            .wrapping_mul(1099511628211)
            .wrapping_add(u64::from(*byte));
    }
    mixed
}
