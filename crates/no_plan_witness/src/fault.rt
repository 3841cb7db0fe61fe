// Why a pair does not refute.
ghost use Rattle.std.specs.Prelude.{◌≡◌};
ghost use Rattle.no_plan_witness.specs.declared.fault.WitnessFault.TheVariants as fault;

use lists::NoMemory;
use meaning::types::Fact;

/// Which of the two instances of a pair.
#[derive(Clone, Copy, Debug, PartialEq, Eq)]
pub enum Which {
    First,
    Second,
}

/// Why a pair does not refute every plan: a lack of memory, which says nothing of the pair; the first rule that the first or the
/// second instance does not meet, by number; the first fact that is accessible of the first instance and not of the second; an
/// answer that is none on the first instance, or still one on the second.
#[derive(Drop)]
pub enum WitnessFault {
    NoMemory,
    RuleBroken { rule: u32, which: Which },
    NotIncluded { fact: Fact },
    NotAnswered,
    StillAnswered,
}

impl From<NoMemory> for WitnessFault {
    ghost from_gives = { λ _ e. e ≡ fault.NoMemory };

    fn from(_: NoMemory) -> Self {
        WitnessFault::NoMemory
    }
}
