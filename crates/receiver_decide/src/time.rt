// What the receiver does when time passes (01, The receiver's phases).
ghost use Rattle.std.specs.Prelude.{◌≡◌};
ghost use Rattle.receiver_rules.specs.Tick.{receiver_silence_of, receiver_tick_of};

use receiver_state::answer::Answer;
use receiver_state::phase::Phase;
use receiver_state::step::Tick;
use silence::{Event, Grown, Settings};

// Transfer asks for the next number with wait 0, Await repeats the closing answer.
// The parts of the session come one by one, as the definition takes them (`receiver_tick_of`).
#[tactic(auto, using(basis::specs::Pick::tests), unfolding(receiver_rules::specs::Tick::receiver_tick_of))]
pub fn pass(phase: Phase, silence: u16, elapsed: u16, resends: u8, settings: Settings) -> Tick
    ensures { result ≡ receiver_tick_of phase silence elapsed resends settings }
{
    match phase {
        Phase::Idle | Phase::Good(_) => {
            Tick {
                phase,
                silence,
                resends,
                answer: Answer::Passed,
            }
        }
        Phase::Transfer(p) => {
            let again = Answer::Asking {
                wait: 0,
                number: p.accepted.blocks,
            };
            on_grown(
                phase,
                again,
                silence::grow(silence, elapsed, resends, settings),
            )
        }
        Phase::Await(a) => {
            let again = Answer::Closed { number: a.blocks };
            on_grown(
                phase,
                again,
                silence::grow(silence, elapsed, resends, settings),
            )
        }
    }
}

// `again` is the response that a resend sends.
#[tactic(auto, using(basis::specs::Pick::tests), unfolding(receiver_rules::specs::Tick::receiver_silence_of, receiver_rules::specs::Tick::receiver_on_event))]
fn on_grown(phase: Phase, again: Answer, grown: Grown) -> Tick
    ensures { result ≡ receiver_silence_of phase again grown }
{
    let (phase, answer) = match grown.event {
        Event::Quiet => (phase, Answer::Passed),
        Event::Resend => (phase, again),
        Event::NoneLeft => (Phase::Idle, Answer::Passed),
    };
    Tick {
        phase,
        silence: grown.silence,
        resends: grown.resends,
        answer,
    }
}
