//! What follows of a proof that is that of its log.
ghost use Rattle.std.specs.Prelude.{◌≡◌, ◌≤◌, ℕ, List, Contains};
ghost use Rattle.meaning.specs.declared.types.SchemaParts.{SchemaParts};
ghost use Rattle.meaning.specs.declared.types.Ground.{Ground};
ghost use Rattle.meaning.specs.declared.types.Method.{Method};
ghost use Rattle.meaning.specs.declared.types.Val.TheVariants.{Const, Label};
ghost use Rattle.meaning.specs.Matching.{MeetsAll, GroundsOf};
ghost use Rattle.meaning.specs.Runs.{IsRun, last_part, IsActiveExposure};
ghost use Rattle.accessible_copy.specs.Proving.{Proving, IsProofOf, log_of};
ghost use Rattle.accessible_copy.specs.Labels.{IsKnownOrMade};

/// The log is a run from the start to the state that the proof is in.
pub fn log_is_run()
    ensures { (schema : SchemaParts) (proof : Proving) → IsProofOf schema proof → IsRun schema proof.constants 0 proof.start (log_of proof) proof.end }
{}

/// Two proofs with the same start, constants and log are the same.
pub fn log_fixes()
    ensures { (schema : SchemaParts) (first second : Proving) → IsProofOf schema first → IsProofOf schema second →
        first.constants ≡ second.constants → first.start ≡ second.start → first.entries ≡ second.entries → first ≡ second }
{}

/// After the first exposure the base facts meet the rules, so that no base trigger is active.
pub fn base_meets()
    ensures { (schema : SchemaParts) (proof : Proving) → IsProofOf schema proof → 1 ≤ last_part 0 (log_of proof) →
        MeetsAll Const (GroundsOf proof.end.base) schema.rules }
{}

/// An exposure stays active where more facts are exposed, unless its own is.
pub fn exposure_stays()
    ensures { (schema : SchemaParts) (old new : Proving) (number : ℕ) (fact : Ground) (method : Method) →
        new.constants ≡ old.constants → new.end.base ≡ old.end.base →
        ((other : Ground) → Contains old.end.exposed other → Contains new.end.exposed other) →
        (Contains new.end.exposed fact → ⊥) →
        IsActiveExposure schema old.constants old.end number fact method →
        IsActiveExposure schema new.constants new.end number fact method }
{}

/// Each label of the copy is a known value, or a copy firing of the log made it: so one that no copy firing made is known.
pub fn copied_labels_are_known_or_made()
    ensures { (schema : SchemaParts) (proof : Proving) → IsProofOf schema proof → (fact : Ground) (k : ℕ) →
        Contains proof.end.copy fact → Contains fact.vals (Label k) → IsKnownOrMade schema proof k }
{}
