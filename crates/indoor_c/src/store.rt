// What a call leaves of the words.
ghost use Rattle.std.specs.Prelude.{◌≡◌};
ghost use Rattle.basis.specs.Left.{left};
ghost use Rattle.indoor_c.specs.Words.{no_words};
ghost use Rattle.indoor_c.specs.Calls.{filled, left_of};

use crate::phase_words::PhaseWords;
use crate::words;
use indoor_state::session::{Indoor, Outcome, Started};
use numbers::Numbered;
use width::halves;

// The state after a call, and the number that is answered. No call changes what the session was started with.
pub(crate) fn leave(words: &mut [u32; 13], outcome: Outcome) -> u64
    ensures { left result words.new ≡ left_of words.old outcome }
{
    let state = outcome.session.state;
    let numbers = PhaseWords::from(state.phase);
    words[words::PHASE] = numbers.phase;
    words[words::ASKED] = numbers.asked;
    words[words::WAIT] = numbers.wait;
    words[words::EMPTIED] = numbers.emptied;
    words[words::SILENCE] = u32::from(state.silence);
    words[words::RESENT] = u32::from(state.resends);
    words[words::REASON] = numbers.reason;
    u64::from(outcome.answer.number())
}

// A session that was made: every word of it, and how many bytes its start wrote.
pub(crate) fn fill(words: &mut [u32; 13], started: Started) -> usize
    ensures { left result words.new ≡ filled started.session started.written }
{
    let Indoor { plan, state } = started.session;
    let release = plan.release;
    let versions = release.versions;
    let numbers = PhaseWords::from(state.phase);
    *words = [
        u32::from(plan.settings.limit),
        u32::from(plan.settings.resends),
        plan.length,
        numbers.phase,
        numbers.asked,
        numbers.wait,
        numbers.emptied,
        u32::from(state.silence),
        u32::from(state.resends),
        numbers.reason,
        halves(release.vendor, release.product),
        halves(versions.first, versions.second),
        halves(versions.third, versions.fourth),
    ];
    started.written
}

// All zero, which is no session, and nothing written.
pub(crate) fn clear(words: &mut [u32; 13]) -> usize
    ensures { left result words.new ≡ left 0 no_words }
{
    *words = [0; words::WORDS];
    0
}
