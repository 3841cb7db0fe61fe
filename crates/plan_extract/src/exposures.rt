// An exposure, lent.
use meaning::types::{Ground, Method};

/// A labelled fact, and the access method that exposes it.
#[derive(Clone, Copy)]
pub struct Exposure<'a> {
    pub method: &'a Method,
    pub fact: &'a Ground,
}
