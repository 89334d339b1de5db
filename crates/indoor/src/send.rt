// What a step leaves: the session after it, and the request that goes out with its answer, in the front of the lent buffer
// (01, Numbers we answer).
ghost use Rattle.std.specs.Prelude.{◌≡◌};
ghost use Rattle.basis.specs.Left.{left};
ghost use Rattle.wire.specs.Written.{request_bytes};
ghost use Rattle.lent.specs.Written.{returns_written};
ghost use Rattle.indoor_rules.specs.Send.{block_bytes, indoor_bytes_of};
ghost use Rattle.indoor_rules.specs.Session.{indoor_done};

use indoor_state::answer::{Answer, Sends};
use indoor_state::plan::Plan;
use indoor_state::session::{Indoor, Outcome};
use indoor_state::step::Step;
use wire::codes;
use wire::request::Request;

// As many bytes as the longest message has.
pub(crate) type Front = [u8; codes::LONGEST];

pub(crate) fn carry_out(plan: Plan, step: Step, file: &[u8], out: &mut Front) -> Outcome
    ensures { left result out.new ≡ indoor_done plan step file.now out.old }
{
    let written = send(plan, step.answer, file, out);
    Outcome {
        session: Indoor {
            plan,
            state: step.state,
        },
        answer: step.answer,
        written,
    }
}

#[tactic(auto, unfolding(indoor_rules::specs::Send::sends_bytes))]
fn send(plan: Plan, answer: Answer, file: &[u8], out: &mut Front) -> usize
    ensures { left result out.new ≡ returns_written (indoor_bytes_of plan file.now answer) out.old }
{
    match answer.sends() {
        None => 0,
        Some(Sends::GetFwId) => message(Request::GetFwId, out),
        Some(Sends::Initiate) => message(Request::Initiate(plan.release.versions), out),
        Some(Sends::Block(number)) => block(number, file, out),
        Some(Sends::Validate) => message(Request::Validate, out),
        Some(Sends::Abort) => message(Request::Abort, out),
    }
}

// A request without a block, or the head of a DATA request. The receiver does so with a response: what they share is `Message::send`.
pub(crate) fn message(request: Request, out: &mut Front) -> usize
    ensures { left result out.new ≡ returns_written (request_bytes request) out.old }
{
    let message = writing::write_request(request);
    let _ = message.send(out);
    message.len
}

// DATA: its head, and then the block as a part of the lent file.
fn block(number: u16, file: &[u8], out: &mut Front) -> usize
    ensures { left result out.new ≡ returns_written (block_bytes file.now number) out.old }
{
    let part = image::block_at(file, number);
    let size = part.len();
    let head = message(Request::Data { number, size }, out);
    let _ = lent::put(out, head, part);
    head + size
}
