// The entries of a log, and exposed facts with their methods.
use meaning::types::{Firing, Ground};

/// How many facts of each kind and known values there are, and the next label.
#[derive(Clone, Copy, Debug)]
pub struct Sizes {
    pub base: usize,
    pub exposed: usize,
    pub copy: usize,
    pub known: usize,
    pub next: u32,
}

/// A firing, with the sizes before it.
#[derive(Drop)]
pub struct Entry {
    pub firing: Firing,
    pub before: Sizes,
}

/// An exposed fact, with the number of the method that exposed it: contracts see the exposed facts of a proof as a list of these.
#[derive(Drop)]
pub struct Exposed {
    pub method: u32,
    pub fact: Ground,
}

/// A number of firings in a log.
#[derive(Clone, Copy, Debug, PartialEq, Eq)]
pub struct Mark {
    pub firings: u64,
}
