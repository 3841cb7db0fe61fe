// The log of a proof, to which passes write their firings: a path of states, each with what its firing adds.
ghost use Rattle.std.specs.Prelude.{◌≡◌, ◌+◌, ◌++◌, ◌∷◌, [], ℕ, OnOk, OnErr, length, take, slice_get, option_copied};
ghost use Rattle.std.proofs.lemmas.List.{length_push};
ghost use Rattle.meaning.specs.declared.types.Trigger.{Trigger};
ghost use Rattle.accessible_copy.specs.Written.{logged, firing_of, sizes_at};

use crate::entry::{Entry, Sizes};
use lists::NoMemory;
use meaning::types::{Firing, Trigger};
use rule_pass::Log;
use state_path::StatePath;
use std::alloc::Global;
use std::marker::Model;

/// Entries, which kind the next trigger is, and the sizes that passes of this kind leave as they are.
#[derive(Drop)]
pub struct History {
    entries: StatePath<Entry>,
    copies: bool,
    held: Sizes,
}

impl Model for History {
    ghost use Rattle.accessible_copy.specs.Written.{Written};

    ghost Value = { Written };

    ghost view = { λ h. record { entries = h.entries; copies = h.copies; held = h.held } };
}

impl History {
    /// No entries. Takes no memory.
    pub fn new(alloc: Global) -> History
        ensures { result.entries ≡ [] }
    {
        History {
            entries: StatePath::new(alloc),
            copies: false,
            held: Sizes {
                base: 0,
                exposed: 0,
                copy: 0,
                known: 0,
                next: 0,
            },
        }
    }

    /// Sets what the next triggers are. Takes no memory.
    pub fn begin(&mut self, copies: bool, held: Sizes)
        ensures { self.new ≡ record { entries = self.old.entries; copies = copies; held = held } }
    {
        self.copies = copies;
        self.held = held;
    }

    /// The entry with this number. Takes no memory.
    pub fn get(&self, number: usize) -> Option<&Entry>
        ensures { option_copied result ≡ slice_get self.now.entries number }
    {
        self.entries.get(number)
    }

    /// One more entry. Where memory is refused, nothing changes.
    pub fn push(&mut self, firing: Firing, before: Sizes) -> Result<(), NoMemory>
        ensures pushed { OnOk result (self.new ≡ record self.old { entries = self.old.entries ++ record { firing = firing; before = before } ∷ [] }) }
        ensures refused { OnErr result (self.new ≡ self.old) }
    {
        self.entries.push(Entry { firing, before })
    }

    /// Drops all entries behind the first `count`. Takes no memory.
    pub fn truncate(&mut self, count: usize)
        ensures { self.new ≡ record self.old { entries = take count self.old.entries } }
    {
        self.entries.truncate(count);
    }
}

/// The trigger as a firing of this kind.
fn firing_of(copies: bool, trigger: Trigger) -> Firing
    ensures { result ≡ firing_of copies trigger }
{
    if copies {
        Firing::Copy(trigger)
    } else {
        Firing::Base(trigger)
    }
}

/// The sizes with these of this kind.
fn sizes_at(copies: bool, now: Sizes, facts: usize, next: u32) -> Sizes
    ensures { result ≡ sizes_at copies now facts next }
{
    if copies {
        Sizes {
            copy: facts,
            next,
            ..now
        }
    } else {
        Sizes {
            base: facts,
            next,
            ..now
        }
    }
}

impl Log for History {
    ghost logged = { logged };

    ghost size = { λ log. length log.entries };

    ghost grows = { λ log trigger facts. length_push log.entries (record { firing = firing_of log.copies trigger; before = sizes_at log.copies log.held facts trigger.fresh }) };

    fn firings(&self) -> usize {
        self.entries.len()
    }

    fn write_down(&mut self, trigger: Trigger, facts: usize) -> Result<(), NoMemory> {
        let before = sizes_at(self.copies, self.held, facts, trigger.fresh);
        let firing = firing_of(self.copies, trigger);
        self.entries.push(Entry { firing, before })
    }

    fn take_back(&mut self) {
        self.entries.pop();
    }
}
