// Going back to an earlier proof.
ghost use Rattle.std.specs.Prelude.{◌≡◌, ◌≤◌, List, IsTrue, IfSome, length, take};
ghost use Rattle.meaning.specs.declared.types.SchemaParts.{SchemaParts};
ghost use Rattle.meaning.specs.declared.types.Ground.{Ground};
ghost use Rattle.meaning.specs.Values.{Value};
ghost use Rattle.accessible_copy.specs.declared.entry.Exposed.{Exposed as TheExposed};
ghost use Rattle.accessible_copy.specs.OpenFacts.{AreOpenFacts};
ghost use Rattle.accessible_copy.specs.Proving.{IsProofOf, IsOrdered};

use crate::entry::Mark;
use crate::open_facts::{OpenFacts, put};
use crate::proof::Proof;
use rule_pass::Log;

/// The number of firings in the log. Takes no memory.
pub fn mark(proof: &Proof) -> Mark
    ensures { result.firings ≡ length proof.now.entries }
{
    Mark {
        firings: proof.history.firings() as u64,
    }
}

/// Gives the proof of just so many first firings of the log. Takes no memory.
pub fn undo(proof: &mut Proof, mark: Mark)
    requires run { (schema : SchemaParts) × IsProofOf schema proof.old }
    requires mark { mark.firings ≤ length proof.old.entries }
    ensures run { (schema : SchemaParts) → IsProofOf schema proof.old → IsProofOf schema proof.new }
    ensures ordered { (schema : SchemaParts) → IsProofOf schema proof.old → IsOrdered schema proof.old → IsOrdered schema proof.new }
    ensures log { proof.new.entries ≡ take mark.firings proof.old.entries }
    ensures start { proof.new.start ≡ proof.old.start }
    ensures constants { proof.new.constants ≡ proof.old.constants }
{
    let count = mark.firings as usize;
    if let Some(entry) = proof.history.get(count) {
        let before = entry.before;
        let is_base = before.base >= proof.base.store().len();
        let kept = cut_open(proof.open_facts.take(), is_base, before.exposed);
        proof.base.cut_back(before.base, before.next);
        proof.copy.cut_back(before.copy, before.next);
        proof.known.truncate(before.exposed, before.known);
        proof.history.truncate(count);
        put(&mut proof.open_facts, kept);
    }
}

/// What is kept of the open facts after the first `count` exposures, if the base facts stay. Takes no memory.
fn cut_open(kept: Option<Box<OpenFacts>>, stays: bool, count: usize) -> Option<Box<OpenFacts>>
    ensures stays { IfSome result (λ after. IsTrue stays) }
    ensures cut { IfSome result (λ after. (facts : List Ground) (constants : List Value) (exposed : List TheExposed) →
        IfSome kept (λ before. AreOpenFacts facts constants exposed before.value) → AreOpenFacts facts constants (take count exposed) after.value) }
{
    match kept {
        Some(mut kept) if stays => {
            kept.cut_back(count);
            Some(kept)
        }
        _ => None,
    }
}
