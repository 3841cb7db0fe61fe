// Copies of values.
ghost use Rattle.std.specs.Prelude.{◌≡◌, IfOk};

use std::alloc::{AllocError, Global};

/// A type that gives a copy of a value, where memory is found.
///
/// `Clone` of std promises nothing of the copy under a bound; this trait promises that it is the same value.
pub trait Copies: Drop {
    /// A copy of the value.
    fn copy(&self, alloc: Global) -> Result<Self, AllocError>
        ensures { IfOk result (λ same. same ≡ self.now) };
}

impl Copies for u8 {
    fn copy(&self, _alloc: Global) -> Result<u8, AllocError> {
        Ok(*self)
    }
}

impl Copies for u32 {
    fn copy(&self, _alloc: Global) -> Result<u32, AllocError> {
        Ok(*self)
    }
}

impl Copies for u64 {
    fn copy(&self, _alloc: Global) -> Result<u64, AllocError> {
        Ok(*self)
    }
}

impl<T: Copies> Copies for Option<T> {
    fn copy(&self, alloc: Global) -> Result<Option<T>, AllocError> {
        match self {
            Some(value) => Ok(Some(value.copy(alloc)?)),
            None => Ok(None),
        }
    }
}
