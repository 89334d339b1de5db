// One response: the lent lengths are tested, the message is read, the step is decided, and then the next request is written
// (01, Numbers we answer: 28, 27, 20, and then the step's own).
ghost use Rattle.std.specs.Prelude.{◌≡◌};
ghost use Rattle.basis.specs.Left.{left};
ghost use Rattle.indoor_rules.specs.Response.{indoor_response_of};

use crate::send::carry_out;
use indoor_decide::decide;
use indoor_state::answer::Answer;
use indoor_state::session::{Indoor, Outcome};
use wire::codes;

#[tactic(auto, using(basis::specs::Pick::tests, indoor_rules::proofs::Front::done_in_front), unfolding(indoor_rules::specs::Response::indoor_response_of, indoor_rules::specs::Response::response_read_of))]
pub fn response(session: Indoor, file: &[u8], response: &[u8], out: &mut [u8]) -> Outcome
    ensures { left result out.new ≡ indoor_response_of session file.now response.now out.old }
{
    if file.len() != session.plan.length as usize {
        return Outcome::unwritten(session, Answer::FileLength);
    }
    let Some(front) = out.first_chunk_mut::<{ codes::LONGEST }>() else {
        return Outcome::unwritten(session, Answer::BufferShort);
    };
    let Ok(valid) = reading::read_response(response) else {
        return Outcome::unwritten(session, Answer::Malformed);
    };
    let step = decide(session.plan, session.state, valid);
    carry_out(session.plan, step, file, front)
}
