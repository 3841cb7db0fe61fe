use findings::{Side, Verdict};
// The verdict of the trials of both sides.
ghost use Rattle.std.specs.Prelude.{◌≡◌};
ghost use Rattle.plan_check.specs.declared.trial.Tried.TheVariants.{Contained};
ghost use Rattle.plan_check.specs.Verdicts.{verdict_of};

use crate::trial::Tried;

/// The verdict where the selects of the statement and the branches of the plan were tried: a row that one side lacks, then the first trial
/// whose firings are spent, and otherwise that the plan is equivalent.
pub fn conclude(selects: Tried, branches: Tried) -> Verdict
    ensures { result ≡ verdict_of selects branches }
{
    match selects {
        Tried::Separated(instance, row) => Verdict::Loses(instance, row),
        Tried::Contained => conclude_branches(branches),
        Tried::Spent(number, log) => match branches {
            Tried::Separated(instance, row) => Verdict::Adds(instance, row),
            _ => Verdict::Undecided {
                side: Side::Select(number),
                log,
            },
        },
    }
}

fn conclude_branches(branches: Tried) -> Verdict
    ensures { result ≡ verdict_of Contained branches }
{
    match branches {
        Tried::Separated(instance, row) => Verdict::Adds(instance, row),
        Tried::Contained => Verdict::Equivalent,
        Tried::Spent(number, log) => Verdict::Undecided {
            side: Side::Branch(number),
            log,
        },
    }
}
