// How far the requests of a round were made.
ghost use Rattle.std.specs.Prelude.{◌≡◌};

/// The number of a class, of a beginning of its rows, and of a last value behind that, from which on requests are to be
/// made.
#[derive(Clone, Copy)]
pub struct Cursor {
    pub class: usize,
    pub row: usize,
    pub value: usize,
}

impl Cursor {
    /// The one before the first request of a class.
    pub fn at_class(class: usize) -> Cursor
        ensures { result ≡ record { class = class; row = 0; value = 0 } }
    {
        Cursor {
            class,
            row: 0,
            value: 0,
        }
    }
}
