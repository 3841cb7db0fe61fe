// A sink of bytes.
ghost use Rattle.std.specs.Prelude.{◌≡◌, ◌<◌, ◌≤◌, ◌++◌, List, ℕ, Option, option_map, length, take, IfOk, OnErr, IsErrOf};
ghost use Rattle.source_trait.specs.Causes.{Rose};

/// Why a piece is not taken.
#[derive(Clone, Copy, Debug, PartialEq, Eq)]
pub enum SinkFault {
    Failed,
    NoMemory,
}

/// A place where bytes are written to.
pub trait Sink {
    /// The bytes that it took so far, where they are told.
    ghost taken: { Self → Option (List ℕ) };

    /// How often a write failed.
    ghost faults: { Self → ℕ };

    /// Takes the first bytes of the piece, at least one where there is one, and says how many.
    fn write(&mut self, piece: &[u8]) -> Result<usize, SinkFault>
        ensures within { IfOk result (λ n. n ≤ length piece.now) }
        ensures some { IfOk result (λ n. 0 < length piece.now → 0 < n) }
        ensures taken { IfOk result (λ n. taken self.new ≡ option_map (λ bytes. bytes ++ take n piece.now) (taken self.old)) }
        ensures refused { OnErr result (taken self.new ≡ taken self.old) }
        ensures failed { IsErrOf result SinkFault.Failed → Rose (faults self.old) (faults self.new) }
        ensures later { faults self.old ≤ faults self.new };
}
