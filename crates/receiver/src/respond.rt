// The response that goes out with an answer, in the first bytes of the lent buffer (01, Numbers we answer).
ghost use Rattle.std.specs.Prelude.{◌≡◌};
ghost use Rattle.basis.specs.Left.{left};
ghost use Rattle.wire.specs.Written.{response_bytes};
ghost use Rattle.lent.specs.Written.{returns_written};
ghost use Rattle.receiver_rules.specs.Respond.{reply_bytes, receiver_bytes_of};
ghost use Rattle.receiver_rules.specs.Hearing.{has_identity, no_identity, sent_of, identity_sent_of, answer_sent_of};

use receiver_decide::reply;
use receiver_state::answer::Answer;
use receiver_state::session::Receiver;
use wire::codes;
use wire::request::Versions;
use wire::response::{Identity, Response};
use wire::status::Status;

// A buffer of this length has room for every response.
type Room = [u8; codes::LONGEST];

pub(crate) fn respond(out: &mut [u8], session: Receiver, answer: Answer) -> usize
    ensures { left result out.new ≡ sent_of (receiver_bytes_of session answer) out.old }
{
    if has_identity(answer) {
        return send_identity(out, session.identity);
    }
    send_answer(out, session.capacity, answer)
}

// The answer to GET_FW_ID alone. A caller whose identity is not at hand asks first and then sends one way or the other: a function that is
// handed a closure for the identity would have to require that it may be called.
pub fn has_identity(answer: Answer) -> bool
    ensures { result ≡ has_identity answer }
{
    matches!(answer, Answer::Identified)
}

// The response with the identity, to GET_FW_ID. A buffer that is too short is not written.
#[tactic(auto, using(basis::specs::Pick::tests), unfolding(receiver_state::specs::Answer::get_fw_id_reply, receiver_rules::specs::Hearing::identity_sent_of, receiver_rules::specs::Respond::reply_bytes))]
pub fn send_identity(out: &mut [u8], identity: Identity) -> usize
    ensures { left result out.new ≡ identity_sent_of identity out.old }
{
    let Some(room) = out.first_chunk_mut() else {
        return 0;
    };
    let status = u8::from(Status::Ok);
    write(room, Response::GetFwId { status, identity })
}

// The response of every other answer: none of them has the identity.
#[tactic(auto, using(basis::specs::Pick::tests), unfolding(receiver_rules::specs::Hearing::answer_sent_of))]
pub fn send_answer(out: &mut [u8], capacity: u32, answer: Answer) -> usize
    ensures { left result out.new ≡ answer_sent_of capacity answer out.old }
{
    let Some(room) = out.first_chunk_mut() else {
        return 0;
    };
    deliver(room, reply(answer, no_identity(), capacity))
}

fn no_identity() -> Identity
    ensures { result ≡ no_identity }
{
    let versions = Versions {
        first: 0,
        second: 0,
        third: 0,
        fourth: 0,
    };
    Identity {
        vendor: 0,
        product: 0,
        hardware: 0,
        silicon: 0,
        versions,
        bank: 0,
        flags1: 0,
        flags2: 0,
        flags3: 0,
        flags4: 0,
    }
}

// Each kind is written by itself: the compiler then knows how long it is, and copies no more than that.
#[tactic(auto, using(basis::specs::Pick::tests), unfolding(receiver_rules::specs::Respond::reply_bytes))]
fn deliver(room: &mut Room, reply: Option<Response>) -> usize
    ensures { left result room.new ≡ returns_written (reply_bytes reply) room.old }
{
    match reply {
        None => 0,
        Some(Response::GetFwId { status, identity }) => write(
            room,
            Response::GetFwId { status, identity },
        ),
        Some(Response::Initiate { status, wait, size }) => write(
            room,
            Response::Initiate { status, wait, size },
        ),
        Some(
            Response::Data {
                status,
                wait,
                number,
            },
        ) => write(
            room,
            Response::Data {
                status,
                wait,
                number,
            },
        ),
        Some(
            Response::Validate {
                status,
                wait,
                success,
            },
        ) => write(
            room,
            Response::Validate {
                status,
                wait,
                success,
            },
        ),
        Some(Response::NotBuilt) => write(room, Response::NotBuilt),
    }
}

// Inlined into each of its callers, which know the kind.
#[inline(always)]
fn write(room: &mut Room, response: Response) -> usize
    ensures { left result room.new ≡ returns_written (response_bytes response) room.old }
{
    let message = writing::write_response(response);
    let written = message.len;
    let _ = message.send(room);
    written
}
