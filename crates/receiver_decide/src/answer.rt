// The response that goes out with an answer (01, Numbers we answer).
ghost use Rattle.std.specs.Prelude.{◌≡◌};
ghost use Rattle.receiver_state.specs.Answer.{get_fw_id_reply, initiate_reply, data_reply, validate_reply, reply_of};

use receiver_state::answer::Answer;
use wire::codes;
use wire::response::{Identity, Response};
use wire::status::Status;

// Status, wait and later fields of the response, for every case.
#[tactic(auto, using(basis::specs::Pick::tests), unfolding(receiver_state::specs::Answer::reply_of))]
pub fn reply(answer: Answer, identity: Identity, capacity: u32) -> Option<Response>
    ensures { result ≡ reply_of identity capacity answer }
{
    match answer {
        Answer::Identified => get_fw_id_reply(identity),
        Answer::Offered { wait } => initiate_reply(Status::Ok, wait, capacity),
        Answer::Asking { wait, number } => data_reply(Status::Ok, wait, number),
        Answer::Closed { number } => data_reply(Status::Ok, codes::UNABLE, number),
        Answer::Success => validate_reply(Status::Ok, 0, true),
        Answer::Later { wait } => validate_reply(Status::Ok, wait, false),
        Answer::UnexpectedInitiate => initiate_reply(Status::UnexpectedRequest, codes::UNABLE, 0),
        Answer::UnexpectedData => data_reply(Status::UnexpectedRequest, codes::UNABLE, 0),
        Answer::UnexpectedValidate => validate_reply(
            Status::UnexpectedRequest,
            codes::UNABLE,
            false,
        ),
        Answer::NotDue { due } => data_reply(Status::Ok, 0, due),
        Answer::PassesCapacity => data_reply(Status::Address, codes::UNABLE, 0),
        Answer::WrongFile => data_reply(Status::File, codes::UNABLE, 0),
        Answer::VerdictBad => validate_reply(Status::Ok, 0, false),
        Answer::Aborted
        | Answer::Passed
        | Answer::Malformed
        | Answer::Unexpected
        | Answer::OutOfRange
        | Answer::BufferShort
        | Answer::ImageLength => None,
    }
}

// A function for each type of response: each fills fields of its own, so that no type parameter would make them one.
#[tactic(auto, using(basis::specs::Pick::tests), unfolding(receiver_state::specs::Answer::get_fw_id_reply))]
fn get_fw_id_reply(identity: Identity) -> Option<Response>
    ensures { result ≡ get_fw_id_reply identity }
{
    let status = u8::from(Status::Ok);
    Some(Response::GetFwId { status, identity })
}

#[tactic(auto, using(basis::specs::Pick::tests), unfolding(receiver_state::specs::Answer::initiate_reply))]
fn initiate_reply(status: Status, wait: u8, size: u32) -> Option<Response>
    ensures { result ≡ initiate_reply status wait size }
{
    let status = u8::from(status);
    Some(Response::Initiate { status, wait, size })
}

#[tactic(auto, using(basis::specs::Pick::tests), unfolding(receiver_state::specs::Answer::data_reply))]
fn data_reply(status: Status, wait: u8, number: u16) -> Option<Response>
    ensures { result ≡ data_reply status wait number }
{
    let status = u8::from(status);
    Some(Response::Data {
        status,
        wait,
        number,
    })
}

#[tactic(auto, using(basis::specs::Pick::tests), unfolding(receiver_state::specs::Answer::validate_reply))]
fn validate_reply(status: Status, wait: u8, success: bool) -> Option<Response>
    ensures { result ≡ validate_reply status wait success }
{
    let status = u8::from(status);
    Some(Response::Validate {
        status,
        wait,
        success,
    })
}
