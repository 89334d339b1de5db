// Each response as bytes (001 T5-16 to T5-24). Reserved bits are zero (001 section 1.4.2.8).
ghost use Rattle.std.specs.Prelude.{◌≡◌};
ghost use Rattle.wire.specs.Written.{response_bytes, identified_bytes, initiated_bytes, receipt_bytes, validated_bytes};
ghost use Rattle.writing.specs.Message.{message_of};

use crate::message::{Message, made};
use fields::cleared;
use wire::codes;
use wire::response::{Identity, Response};

// What is not built is written as nothing.
#[tactic(auto, using(basis::specs::Pick::tests), unfolding(wire::specs::Written::response_bytes))]
pub fn write_response(response: Response) -> Message
    ensures { result ≡ message_of (response_bytes response) }
{
    match response {
        Response::GetFwId { status, identity } => identified(status, identity),
        Response::Initiate { status, wait, size } => initiated(status, wait, size),
        Response::Data {
            status,
            wait,
            number,
        } => receipt(status, wait, number),
        Response::Validate {
            status,
            wait,
            success,
        } => validated(status, wait, success),
        Response::NotBuilt => made(&[]),
    }
}

#[tactic(auto, unfolding(wire::specs::Written::identified_bytes))]
fn identified(status: u8, identity: Identity) -> Message
    ensures { result ≡ message_of (identified_bytes status identity) }
{
    let i = cleared(identity);
    let [vendor, vendor_high] = i.vendor.to_le_bytes();
    let [product, product_high] = i.product.to_le_bytes();
    let [first, first_high] = i.versions.first.to_le_bytes();
    let [second, second_high] = i.versions.second.to_le_bytes();
    let [third, third_high] = i.versions.third.to_le_bytes();
    let [fourth, fourth_high] = i.versions.fourth.to_le_bytes();
    made(&[
        codes::VERSION,
        codes::GET_FW_ID_RESPONSE,
        status,
        vendor,
        vendor_high,
        product,
        product_high,
        i.hardware,
        i.silicon,
        first,
        first_high,
        second,
        second_high,
        third,
        third_high,
        fourth,
        fourth_high,
        i.bank,
        i.flags1,
        i.flags2,
        i.flags3,
        i.flags4,
    ])
}

#[tactic(auto, unfolding(wire::specs::Written::initiated_bytes))]
fn initiated(status: u8, wait: u8, size: u32) -> Message
    ensures { result ≡ message_of (initiated_bytes status wait size) }
{
    let [low, middle, high, _] = size.to_le_bytes();
    made(&[
        codes::VERSION,
        codes::INITIATE_RESPONSE,
        status,
        wait,
        low,
        middle,
        high % 16,
    ])
}

#[tactic(auto, unfolding(wire::specs::Written::receipt_bytes))]
fn receipt(status: u8, wait: u8, number: u16) -> Message
    ensures { result ≡ message_of (receipt_bytes status wait number) }
{
    let [low, high] = number.to_le_bytes();
    made(&[
        codes::VERSION,
        codes::DATA_RESPONSE,
        status,
        wait,
        0,
        low,
        high,
    ])
}

#[tactic(auto, unfolding(wire::specs::Written::validated_bytes))]
fn validated(status: u8, wait: u8, success: bool) -> Message
    ensures { result ≡ message_of (validated_bytes status wait success) }
{
    made(&[
        codes::VERSION,
        codes::VALIDATE_RESPONSE,
        status,
        wait,
        u8::from(success),
    ])
}
