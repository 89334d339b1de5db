// One time call. It borrows the file and the output buffer, so that 28 and 27 can refuse it. Their tests stand in the call for a response too:
// each returns from its own call.
ghost use Rattle.std.specs.Prelude.{◌≡◌};
ghost use Rattle.basis.specs.Left.{left};
ghost use Rattle.indoor_rules.specs.Time.{indoor_time_of};

use crate::send::carry_out;
use indoor_decide::pass;
use indoor_state::answer::Answer;
use indoor_state::session::{Indoor, Outcome};
use wire::codes;

#[tactic(auto, using(basis::specs::Pick::tests, indoor_rules::proofs::Front::done_in_front), unfolding(indoor_rules::specs::Time::indoor_time_of))]
pub fn time(session: Indoor, file: &[u8], elapsed: u16, out: &mut [u8]) -> Outcome
    ensures { left result out.new ≡ indoor_time_of session file.now elapsed out.old }
{
    if file.len() != session.plan.length as usize {
        return Outcome::unwritten(session, Answer::FileLength);
    }
    let Some(front) = out.first_chunk_mut::<{ codes::LONGEST }>() else {
        return Outcome::unwritten(session, Answer::BufferShort);
    };
    let step = pass(session.plan, session.state, elapsed);
    carry_out(session.plan, step, file, front)
}
