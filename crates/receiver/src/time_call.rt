// One time call. It borrows the output buffer alone, so only 27 can refuse it.
ghost use Rattle.std.specs.Prelude.{◌≡◌};
ghost use Rattle.basis.specs.Left.{left};
ghost use Rattle.receiver_rules.specs.Hearing.{sent_of};
ghost use Rattle.receiver_rules.specs.Respond.{receiver_bytes_of};
ghost use Rattle.receiver_rules.specs.Time.{receiver_time_of};

use crate::respond::respond;
use receiver_decide::pass;
use receiver_state::answer::Answer;
use receiver_state::session::{Outcome, Receiver};
use wire::codes;

#[tactic(auto, using(basis::specs::Pick::tests), unfolding(receiver_rules::specs::Time::receiver_time_of, receiver_rules::specs::Time::receiver_elapsed_of))]
pub fn time(session: Receiver, elapsed: u16, out: &mut [u8]) -> Outcome
    ensures { left result out.new ≡ receiver_time_of session elapsed out.old }
{
    if out.len() < codes::LONGEST {
        return Outcome::unwritten(session, Answer::BufferShort);
    }
    let tick = pass(
        session.phase,
        session.silence,
        elapsed,
        session.resends,
        session.settings,
    );
    let written = prompt(out, session, tick.answer);
    Outcome {
        session: Receiver {
            phase: tick.phase,
            silence: tick.silence,
            resends: tick.resends,
            ..session
        },
        answer: tick.answer,
        written,
    }
}

// Most time calls only count silence: nothing is sent then, and the identity is not read.
#[tactic(auto, using(basis::specs::Pick::tests), unfolding(receiver_state::specs::Answer::reply_of, receiver_rules::specs::Respond::reply_bytes))]
fn prompt(out: &mut [u8], session: Receiver, answer: Answer) -> usize
    ensures { left result out.new ≡ sent_of (receiver_bytes_of session answer) out.old }
{
    if matches!(answer, Answer::Passed) {
        return 0;
    }
    respond(out, session, answer)
}
