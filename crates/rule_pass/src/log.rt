// Where a pass writes its firings down.
ghost use Rattle.std.specs.Prelude.{◌≡◌, ◌+◌, ◌++◌, ◌∷◌, [], ℕ, length, OnOk, OnErr};
ghost use Rattle.std.proofs.lemmas.List.{length_push};
ghost use Rattle.meaning.specs.declared.types.Trigger.{Trigger};

use lists::NoMemory;
use meaning::types::{Trigger, Triggers};

/// A list of firings, to which a pass adds its own.
pub trait Log {
    /// The log with one more firing of a trigger, before which there were so many facts.
    ghost logged: { Self → Trigger → ℕ → Self };

    /// How many firings the log has, also of other kinds.
    ghost size: { Self → ℕ };

    /// How many firings the log has, also of other kinds. Takes no memory.
    fn firings(&self) -> usize
        ensures { result ≡ size self.now };

    /// Writes one more firing of a trigger down, before which there are so many facts. Where memory is refused, nothing
    /// changes.
    fn write_down(&mut self, trigger: Trigger, facts: usize) -> Result<(), NoMemory>
        ensures logged { OnOk result (self.new ≡ logged self.old trigger facts) }
        ensures refused { OnErr result (self.new ≡ self.old) };

    /// Takes the last firing back. Takes no memory.
    fn take_back(&mut self)
        ensures { (before : Self) (trigger : Trigger) (facts : ℕ) → self.old ≡ logged before trigger facts → self.new ≡ before };

    ghost grows: { (log : Self) (trigger : Trigger) (facts : ℕ) → size (logged log trigger facts) ≡ size log + 1 };
}

impl Log for Triggers {
    ghost logged = { λ log trigger facts. log ++ trigger ∷ [] };

    ghost size = { length };

    ghost grows = { λ log trigger facts. length_push log trigger };

    fn firings(&self) -> usize {
        self.len()
    }

    fn write_down(&mut self, trigger: Trigger, _facts: usize) -> Result<(), NoMemory> {
        self.push(trigger)?;
        Ok(())
    }

    fn take_back(&mut self) {
        let count = self.len();
        if count > 0 {
            self.truncate(count - 1);
        }
    }
}
