// Equality that is identity.
ghost use Rattle.std.specs.Prelude.{◌≡◌, ◌↔◌, IsTrue};

/// A type whose test for equality says exactly whether two values are the same.
///
/// `==` under the bound `PartialEq` says only what that type's own test says.
pub trait Exact {
    /// Whether the two values are the same.
    fn same(&self, other: &Self) -> bool
        ensures { IsTrue result ↔ (self.now ≡ other.now) };
}

impl Exact for u8 {
    fn same(&self, other: &u8) -> bool {
        *self == *other
    }
}

impl Exact for u32 {
    fn same(&self, other: &u32) -> bool {
        *self == *other
    }
}

impl Exact for u64 {
    fn same(&self, other: &u64) -> bool {
        *self == *other
    }
}
