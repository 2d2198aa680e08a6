//! A text read back.
ghost use Rattle.std.specs.Prelude.{◌≡◌, ◌≢◌, ◌<◌, Err, IfOk, IfSome, MatchResult};
ghost use Rattle.std.specs.List.{AllByRecursion as Each};
ghost use Rattle.nz_blocks.specs.Outcomes.{OutcomeData, IsOutcome, number};
ghost use Rattle.nz_blocks.specs.Held.{IsHeld};
ghost use Rattle.nz_blocks.specs.Output.{text_of};

use crate::Outcome;
use crate::draft::{Draft, read_draft};
use crate::refusal::BlockRefusal;
use crate::shapes::is_shaped;
use crate::shapes_asked::answers_fit;
use crate::text::blocks;
use std::alloc::Global;

// The draft as an outcome, where it is one.
fn outcome_of(alloc: Global, draft: Draft) -> Result<Outcome, BlockRefusal>
    requires { IfSome draft.simplices (Each (Each (λ p. p < number draft.generators))) }
    ensures { MatchResult result (λ o. o ≡ draft) (λ e. e ≡ BlockRefusal.Bad → ¬ IsOutcome draft) }
{
    if !is_shaped(&draft) {
        return Err(BlockRefusal::Bad);
    }
    match answers_fit(alloc, &draft) {
        Ok(true) => {}
        Ok(false) => return Err(BlockRefusal::Bad),
        Err(_) => return Err(BlockRefusal::NoMemory),
    }
    Ok(Outcome {
        amb: draft.amb,
        level: draft.level,
        denominator: draft.denominator,
        modules: draft.modules,
        hilbert: draft.hilbert,
        degree_one: draft.degree_one,
        vertices: draft.vertices,
        rays: draft.rays,
        support: draft.support,
        equations: draft.equations,
        generators: draft.generators,
        simplices: draft.simplices,
        asked: draft.asked,
    })
}

/// The outcome of which this is the text; counts that are not written are 0. The text is read
/// leniently, the outcome that was read is written again, and the two texts are compared: so only
/// the exact text is taken.
pub fn read_blocks(alloc: Global, text: &[u8]) -> Result<Outcome, BlockRefusal>
    ensures ok { IfOk result (λ o. text_of o ≡ text.now) }
    ensures same { (o : OutcomeData) → IsOutcome o → IsHeld o → text_of o ≡ text.now → IfOk result (λ p. p ≡ o) }
    ensures bad { result ≡ Err BlockRefusal.Bad → (o : OutcomeData) → IsOutcome o → IsHeld o → text_of o ≢ text.now }
{
    let draft = match read_draft(alloc, text) {
        Ok(draft) => draft,
        Err(refusal) => return Err(refusal),
    };
    let outcome = match outcome_of(alloc, draft) {
        Ok(outcome) => outcome,
        Err(refusal) => return Err(refusal),
    };
    let again = match blocks(alloc, &outcome) {
        Ok(again) => again,
        Err(_) => return Err(BlockRefusal::NoMemory),
    };
    if again.as_slice() == text {
        return Ok(outcome);
    }
    Err(BlockRefusal::Bad)
}
