// Each request as bytes (001 T5-3 to T5-12).
ghost use Rattle.std.specs.Prelude.{◌≡◌};
ghost use Rattle.wire.specs.Written.{request_bytes, bare_bytes, initiate_bytes, head_bytes};
ghost use Rattle.writing.specs.Message.{message_of};

use crate::message::{Message, made};
use wire::codes;
use wire::request::{Request, Versions};

// Of a DATA request this is its head of four bytes, which the block follows. What is not built is written as nothing.
#[tactic(auto, using(basis::specs::Pick::tests), unfolding(wire::specs::Written::request_bytes))]
pub fn write_request(request: Request) -> Message
    ensures { result ≡ message_of (request_bytes request) }
{
    match request {
        Request::GetFwId => bare(codes::GET_FW_ID),
        Request::Initiate(versions) => initiate(versions),
        Request::Data { number, size: _ } => head(number),
        Request::Validate => bare(codes::VALIDATE),
        Request::Abort => bare(codes::ABORT),
        Request::NotBuilt => made(&[]),
    }
}

#[tactic(auto, unfolding(wire::specs::Written::bare_bytes))]
fn bare(t: u8) -> Message
    ensures { result ≡ message_of (bare_bytes t) }
{
    made(&[codes::VERSION, t])
}

#[tactic(auto, unfolding(wire::specs::Written::initiate_bytes))]
fn initiate(v: Versions) -> Message
    ensures { result ≡ message_of (initiate_bytes v) }
{
    let [first, first_high] = v.first.to_le_bytes();
    let [second, second_high] = v.second.to_le_bytes();
    let [third, third_high] = v.third.to_le_bytes();
    let [fourth, fourth_high] = v.fourth.to_le_bytes();
    made(&[
        codes::VERSION,
        codes::INITIATE,
        first,
        first_high,
        second,
        second_high,
        third,
        third_high,
        fourth,
        fourth_high,
    ])
}

#[tactic(auto, unfolding(wire::specs::Written::head_bytes))]
fn head(number: u16) -> Message
    ensures { result ≡ message_of (head_bytes number) }
{
    let [low, high] = number.to_le_bytes();
    made(&[codes::VERSION, codes::DATA, low, high])
}
