// A visit of a set.
ghost use Rattle.std.specs.Prelude.{◌≡◌, ◌<◌, ◌≤◌, ◌⊎◌, Contains, IfOk, OnOk, IfSome, IfNone, Ok, true, false};
ghost use Rattle.access_schema.specs.Meaning.{meaning_of};
ghost use Rattle.accessible_copy.specs.Proving.{IsProofOf};
ghost use Rattle.accessible_copy.specs.Goals.{IsGoal};
ghost use Rattle.accessible_copy.specs.Known.{known_values};
ghost use Rattle.accessible_copy.specs.Methods.{IsMethodIndex};
ghost use Rattle.least_search.specs.declared.space.Move.{Move};
ghost use Rattle.least_search.specs.declared.space.End.TheVariants as end;
ghost use Rattle.least_search.specs.Ends.{GoesOn};
ghost use Rattle.exposure_search.specs.Tries.{IsMarked, Adds};
ghost use Rattle.exposure_search.specs.Making.{OnlyExposes, SameBase, IsActiveMove, IsServed, CannotMake, all_made};
ghost use Rattle.exposure_search.specs.Ahead.{CannotMatch, facts_along};
ghost use Rattle.exposure_search.specs.Exploring.{HasGoalAt, HasRunBeyond};
ghost use Rattle.exposure_search.specs.Aims.{space_of, IsAimed, LeadsTo};
ghost use Rattle.exposure_search.specs.Visiting.{IsVisitEnd, IsVisit, IsReached};

use crate::aiming::Aim;
use crate::candidates::moves_from;
use crate::going::go_along;
use crate::listing::active_moves;
use crate::looking::look;
use crate::quieting::{may_fire, may_match};
use crate::refuting::is_refuted;
use accessible_copy::{Match, Proof, goal, mark, settle, undo};
use least_search::{End, Move, Visit};
use lists::NoMemory;

/// Goes along the path, settles the copy there with at most `room` firings, looks for a match, undoes the copy firings, and lists
/// the moves of relevant facts from there that gain something and cost less than `below`.
///
/// Where the relations of the path's facts or a closing of these show that there is no goal, nothing is exposed: the moves are those of
/// candidates that can be made from these facts.
pub(crate) fn visit_set(
    aim: &Aim,
    proof: &mut Proof,
    path: &[Move],
    set: &[bool],
    room: u64,
    below: u64,
) -> Result<Visit, NoMemory>
    requires aimed { IsAimed aim.now proof.old }
    requires walk { LeadsTo (space_of aim.now proof.old) path.now set.now }
    ensures exposes { OnlyExposes (meaning_of aim.now.schema.now) proof.new }
    ensures same { SameBase proof.old proof.new }
    ensures visit { IfOk result (λ visit. IsVisit (space_of aim.now proof.old) path.now set.now room below visit) }
{
    let fires = may_fire(
        aim.schema.rules.as_slice(),
        aim.makers.as_slice(),
        aim.facts.as_slice(),
        path,
    );
    if !is_bare(aim, proof, path, set, fires)? {
        return visit_copy(aim, proof, path, set, fires, room, below);
    }
    let moves = moves_from(
        aim.alloc,
        aim.candidates.as_slice(),
        aim.facts.as_slice(),
        path,
        set,
        below,
    )?;
    Ok(Visit {
        end: End::NoGoal,
        fired: 0,
        moves,
    })
}

/// Whether the path's facts are seen to have no goal before they are exposed: by a closing where a rule on which a match can rest
/// `fires`, and else by their relations.
fn is_bare(
    aim: &Aim,
    proof: &Proof,
    path: &[Move],
    set: &[bool],
    fires: bool,
) -> Result<bool, NoMemory>
    requires aimed { IsAimed aim.now proof.now }
    requires walk { LeadsTo (space_of aim.now proof.now) path.now set.now }
    requires still { fires ≡ false → CannotMake aim.now.schema.now.rules aim.now.marks.makers.items (facts_along aim.now.facts.items path.now) }
    ensures { result ≡ Ok true → HasGoalAt (space_of aim.now proof.now) set.now → ⊥ }
{
    if fires {
        return is_refuted(aim, proof, path, set);
    }
    // read for its proof, as in `is_refuted`
    let _next = proof.next();
    Ok(!needs_look(aim, path))
}

/// Whether the copy has to be looked at: the path takes more firings than a run may have, or its facts have one of each relation of
/// some query's atoms.
fn needs_look(aim: &Aim, path: &[Move]) -> bool
    ensures { result ≡ false → CannotMatch aim.now.queries.now (facts_along aim.now.facts.items path.now) }
{
    let left = u64::from(aim.budget).saturating_sub(aim.bases);
    if path.len() as u64 > left {
        return true;
    }
    may_match(aim.queries.as_slice(), aim.facts.as_slice(), path)
}

/// Goes along the path, settles the copy there where a rule on which a match can rest `fires`, looks for a match, undoes the copy firings,
/// and lists the moves.
fn visit_copy(
    aim: &Aim,
    proof: &mut Proof,
    path: &[Move],
    set: &[bool],
    fires: bool,
    room: u64,
    below: u64,
) -> Result<Visit, NoMemory>
    requires aimed { IsAimed aim.now proof.old }
    requires walk { LeadsTo (space_of aim.now proof.old) path.now set.now }
    requires still { fires ≡ false → CannotMake aim.now.schema.now.rules aim.now.marks.makers.items (facts_along aim.now.facts.items path.now) }
    ensures exposes { OnlyExposes (meaning_of aim.now.schema.now) proof.new }
    ensures same { SameBase proof.old proof.new }
    ensures visit { IfOk result (λ visit. IsVisit (space_of aim.now proof.old) path.now set.now room below visit) }
{
    let (end, fired) = look_along(aim, proof, path, set, fires, room)?;
    let moves = moves_after(aim, proof, end, below)?;
    Ok(Visit { end, fired, moves })
}

/// Goes along the path, settles the copy there where a rule on which a match can rest `fires`, looks for a match, and undoes the copy
/// firings. How it ended, and how many firings were made.
fn look_along(
    aim: &Aim,
    proof: &mut Proof,
    path: &[Move],
    set: &[bool],
    fires: bool,
    room: u64,
) -> Result<(End, u64), NoMemory>
    requires aimed { IsAimed aim.now proof.old }
    requires walk { LeadsTo (space_of aim.now proof.old) path.now set.now }
    requires still { fires ≡ false → CannotMake aim.now.schema.now.rules aim.now.marks.makers.items (facts_along aim.now.facts.items path.now) }
    ensures exposes { OnlyExposes (meaning_of aim.now.schema.now) proof.new }
    ensures same { SameBase proof.old proof.new }
    ensures made { OnOk result (proof.new.exposed ≡ all_made proof.old.end.base path.now) }
    ensures ended { IfOk result (λ seen. IsVisitEnd (space_of aim.now proof.old) path.now set.now seen.0 seen.1) }
    ensures room { IfOk result (λ seen. seen.1 ≤ room) }
    ensures spent { IfOk result (λ seen. seen.0 ≡ end.UnitsSpent → seen.1 ≡ room) }
{
    go_along(
        aim.alloc,
        proof,
        aim.schema,
        aim.facts.as_slice(),
        aim.bases,
        path,
    )?;
    let made = mark(proof);
    let seen = look(
        aim.alloc,
        proof,
        aim.schema,
        fires,
        aim.queries,
        aim.head,
        aim.budget,
        room,
    );
    undo(proof, made);
    seen
}

/// The moves of relevant facts from a set that gain something and cost less than `below`, after a visit from which the search goes on.
fn moves_after(aim: &Aim, proof: &Proof, end: End, below: u64) -> Result<Vec<Move>, NoMemory>
    requires run { IsProofOf (meaning_of aim.now.schema.now) proof.now }
    requires facts { aim.now.facts.items ≡ proof.now.end.base }
    requires methods { IsMethodIndex aim.now.schema.now.methods aim.now.methods }
    ensures active { IfOk result (λ moves. (move : Move) → Contains moves.items move →
        IsActiveMove (meaning_of aim.now.schema.now) proof.now move × IsMarked aim.now.marks.relevant.items move.fact) }
    ensures all { IfOk result (λ moves. GoesOn end → (move : Move) → IsActiveMove (meaning_of aim.now.schema.now) proof.now move →
        IsMarked aim.now.marks.relevant.items move.fact →
        Adds (known_values proof.now.constants proof.now.end.exposed) proof.now.end.base aim.now.marks.needed.items move.fact →
        move.cost < below → IsServed moves.items move) }
{
    match end {
        End::Goal | End::UnitsSpent => Ok(Vec::new(aim.alloc)),
        End::NoGoal | End::FiringsSpent => {
            active_moves(
                aim.alloc,
                proof,
                aim.schema,
                &aim.methods,
                aim.facts.as_slice(),
                &aim.marks,
                below,
            )
        }
    }
}

/// Goes along the path, settles the copy there while the log has fewer than the budget's firings, and looks for a match.
pub(crate) fn reach_set(
    aim: &Aim,
    proof: &mut Proof,
    path: &[Move],
    set: &[bool],
) -> Result<Option<Match>, NoMemory>
    requires aimed { IsAimed aim.now proof.old }
    requires walk { LeadsTo (space_of aim.now proof.old) path.now set.now }
    ensures reached { IfOk result (λ found. IfSome found (λ m. IsReached (space_of aim.now proof.old) path.now proof.new)) }
    ensures found { IfOk result (λ found. IfSome found
        (λ m. IsGoal aim.now.queries.now proof.new.end.copy aim.now.head.now m.select m.assignment.vals)) }
    ensures none { IfOk result (λ found. IfNone found
        (HasRunBeyond (space_of aim.now proof.old) ⊎ (HasGoalAt (space_of aim.now proof.old) set.now → ⊥))) }
{
    go_along(
        aim.alloc,
        proof,
        aim.schema,
        aim.facts.as_slice(),
        aim.bases,
        path,
    )?;
    if mark(proof).firings > u64::from(aim.budget) {
        return Ok(None);
    }
    settle(aim.alloc, proof, aim.schema, true, aim.budget)?;
    // read for its proof, as in `is_refuted`
    let _next = proof.next();
    Ok(goal(aim.alloc, proof, aim.queries, aim.head)?)
}
