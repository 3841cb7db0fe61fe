// Hashers that begin with a number.
use meaning::types::Ground;
use std::hash::{BuildHasher, DefaultHasher, Hash, Hasher};

/// Makes hashers that begin with a number. No clause says anything of the number.
#[derive(Clone, Copy)]
pub struct Keyed {
    first: DefaultHasher,
}

impl Keyed {
    /// That of this number. Takes no memory.
    pub fn new(key: u64) -> Keyed {
        let mut first = DefaultHasher::new();
        first.write_u64(key);
        Keyed { first }
    }
}

impl BuildHasher for Keyed {
    type Hasher = DefaultHasher;

    ghost build_hasher = { λ s. s.first };

    fn build_hasher(&self) -> DefaultHasher {
        self.first
    }
}

/// A hash of all these facts. Takes no memory.
pub fn digest(facts: &[Ground]) -> u64 {
    let mut hasher = DefaultHasher::new();
    for fact in facts {
        fact.hash(&mut hasher);
    }
    hasher.finish()
}
