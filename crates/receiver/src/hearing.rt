// What a request does, but for its response: the lent lengths are tested, the message is read, the step is decided, and its block is put into
// the image (01, Numbers we answer: 28, 27, 26, 20, and then the step's own). The identity is no part of it: only one response has it.
ghost use Rattle.std.specs.Prelude.{◌≡◌, Ok};
ghost use Rattle.basis.specs.Left.{left};
ghost use Rattle.wire.specs.Request.{parsed_request_of as message_of};
ghost use Rattle.receiver_rules.specs.Decide.{receiver_decide_of};
ghost use Rattle.receiver_rules.specs.Hearing.{receiver_done, heard_read_of, heard_of};

use crate::store::apply;
use receiver_decide::{decide, out_of_range};
use receiver_state::answer::Answer;
use receiver_state::phase::Phase;
use receiver_state::step::Heard;
use receiver_state::verdict::Given;
use wire::codes;
use wire::request::Request;

// An answer in `Err` changes nothing: silence and resends are not set to zero either.
// What is lent comes part by part, since the contract says of each what it is left with; so do the phase and the capacity, for a caller that
// has the rest of the session in words (`harsolvek_receiver_request_raw`).
#[tactic(auto, using(basis::specs::Pick::tests), unfolding(receiver_rules::specs::Hearing::heard_of))]
pub fn hear(
    phase: Phase,
    capacity: u32,
    image: &mut [u8],
    request: &[u8],
    given: Given,
    room: usize,
) -> Result<Heard, Answer>
    ensures { left result image.new ≡ heard_of phase capacity image.old request.now given.readiness given.verdict room }
{
    if image.len() != capacity as usize {
        return Err(Answer::ImageLength);
    }
    if room < codes::LONGEST {
        return Err(Answer::BufferShort);
    }
    if out_of_range(given) {
        return Err(Answer::OutOfRange);
    }
    read(phase, capacity, image, request, given)
}

#[tactic(auto, using(basis::specs::Pick::tests), unfolding(receiver_rules::specs::Hearing::heard_read_of))]
fn read(
    phase: Phase,
    capacity: u32,
    image: &mut [u8],
    request: &[u8],
    given: Given,
) -> Result<Heard, Answer>
    ensures { left result image.new ≡ heard_read_of phase capacity (message_of request.now) image.old request.now given.readiness given.verdict }
{
    let parsed = reading::read_request(request);
    let Ok(valid) = parsed else {
        return Err(Answer::Malformed);
    };
    Ok(take(phase, capacity, image, request, valid, given))
}

// `valid` is what was just read in the request. That a block which is put into the image is part of it needs no test: it is a theorem
// (`decide_has`, docs/DECISIONS.md), which needs the clause.
fn take(
    phase: Phase,
    capacity: u32,
    image: &mut [u8],
    request: &[u8],
    valid: Request,
    given: Given,
) -> Heard
    requires { message_of request.now ≡ Ok valid }
    ensures { left (Ok result) image.new ≡ receiver_done (receiver_decide_of phase valid capacity given.readiness given.verdict) image.old request.now }
{
    let step = decide(phase, valid, capacity, given);
    apply(image, request, step.store);
    Heard {
        phase: step.phase,
        answer: step.answer,
    }
}
