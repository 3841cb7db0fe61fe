// How the command `world` ends: laws on the definitions alone, as functions that do nothing.
ghost use Rattle.std.specs.Prelude.{◌≡◌, ◌<◌, ◌≤◌, ℕ, List, Result, length, take};
ghost use Rattle.access_schema.specs.declared.schema.Schema.{Schema};
ghost use Rattle.findings.specs.declared.decision.Decision.{Decision};
ghost use Rattle.source_trait.specs.Lanes.{LanesStay};
ghost use Rattle.source_trait.specs.declared.lanes.Lane.{Lane};
ghost use Rattle.middleware.specs.LaneBranches.{OnEach};
ghost use Rattle.command_io.specs.declared.exit_status.Status.{Status};
ghost use Rattle.command_io.specs.declared.outcome.Outcome.{Outcome};
ghost use Rattle.command_io.specs.declared.stop.Stop.{Stop};
ghost use Rattle.command_io.specs.declared.stop.Stop.TheVariants as stop;
ghost use Rattle.command_io.specs.Moments.{Moment, Outputs};
ghost use Rattle.command_words.specs.Words.{IsCommand};
ghost use Rattle.command_words.specs.Words.Command.{World};
ghost use Rattle.run_command.specs.Deciding.{IsDecided};
ghost use Rattle.run_command.specs.World.{WorldEnds, WorldStop};
ghost use Rattle.run_command.specs.declared.world.TheConstants.{FIRINGS, UNITS};
ghost use Rattle.pdq_core.specs.Runs.{Runs};
ghost use Rattle.world_laws.specs.World.{IsWorldSchema, world_statement};
ghost use Rattle.run_laws.specs.Deciding.{IsLeastPlan};
ghost use Rattle.pdq_core.specs.Generators.{HasGenerator};
ghost use Rattle.run_laws.specs.Ends.{WorldIsOver, RunIsOver};

use command_words::words_are_one_command;
use source_trait::Source;

/// The texts of a world are read, unless memory runs out.
pub fn worlds_are_read()
    ensures { (size : ℕ) (end : Stop) → size ≤ 10000 → WorldStop size end → end ≡ stop.Memory }
{}

/// The statement of a world is decided: there is a plan, whose one branch costs 8, and no branch that answers the statement costs less.
pub fn worlds_are_decided()
    ensures { (n : ℕ) (schema : Schema) (decision : Decision) → IsWorldSchema n schema → IsDecided schema world_statement FIRINGS UNITS decision
        → IsLeastPlan decision }
{}

/// A run of `world N` over one or more lanes with new generators ends with its line, of N rows and 7N + 1 requests, or with a failed
/// write, or with a lack of memory. The lanes stay, as every run ensures; nothing is supposed of their other kinds.
pub fn worlds_end<S: Source>()
    ensures command { (size : ℕ) (before after : Outputs) (old new : List (Lane S)) (result : Result Outcome Stop) → 1 ≤ size → size ≤ 10000
        → 0 < length old → OnEach old (HasGenerator S.seen) → LanesStay S.seen old new
        → WorldEnds S.seen size before after old new result → WorldIsOver size before after result }
    ensures words { (words : List (List ℕ)) (size workers : ℕ) (before after : Moment) (old new : List (Lane S)) (status : Status) →
        Runs S.seen words before after old new status → LanesStay S.seen old new → IsCommand words (World size workers)
        → 0 < length (take workers old) → OnEach (take workers old) (HasGenerator S.seen) → RunIsOver size before after status }
{
    words_are_one_command();
}
