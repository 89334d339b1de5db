// A response, by its length, version and type (001 T5-16 to T5-28). Reserved bits are ignored (001 section 1.4.2.8).
ghost use Rattle.std.specs.Prelude.{◌≡◌, length};
ghost use Rattle.wire.specs.Codes.{get_fw_id_response_length};
ghost use Rattle.wire.specs.Identity.{identity_in};
ghost use Rattle.wire.specs.Response.{parsed_response_of, response_of_type, identified_in, initiated_in, receipt_in, validated_in};

use crate::header::has_header;
use crate::number::{versions_at, word_at};
use fields::cleared;
use wire::codes;
use wire::malformed::Malformed;
use wire::response::{Identity, Response};

// It shares the test of the header with `read_request`, and nothing behind it: each has codes, lengths and a type of its own.
#[tactic(auto, using(basis::specs::Pick::tests), unfolding(wire::specs::Response::parsed_response_of))]
pub fn read_response(msg: &[u8]) -> Result<Response, Malformed>
    ensures { result ≡ parsed_response_of msg.now }
{
    if !has_header(msg) {
        return Err(Malformed);
    }
    typed(msg, msg[1])
}

#[tactic(auto, using(basis::specs::Pick::tests), unfolding(wire::specs::Response::response_of_type))]
fn typed(msg: &[u8], t: u8) -> Result<Response, Malformed>
    ensures { result ≡ response_of_type msg.now t }
{
    match t {
        codes::GET_FW_ID_RESPONSE => identified(msg),
        codes::INITIATE_RESPONSE => initiated(msg),
        codes::DATA_RESPONSE => receipt(msg),
        codes::VALIDATE_RESPONSE => validated(msg),
        codes::DATA_PAUSE_RESPONSE | codes::VENDOR_SPECIFIC_RESPONSE => Ok(Response::NotBuilt),
        _ => Err(Malformed),
    }
}

#[tactic(auto, using(basis::specs::Pick::tests), unfolding(wire::specs::Response::identified_in))]
fn identified(msg: &[u8]) -> Result<Response, Malformed>
    ensures { result ≡ identified_in msg.now }
{
    if msg.len() != codes::GET_FW_ID_RESPONSE_LENGTH {
        return Err(Malformed);
    }
    let status = msg[2];
    let identity = cleared(identity_in(msg));
    Ok(Response::GetFwId { status, identity })
}

// 001 T5-18.
fn identity_in(msg: &[u8]) -> Identity
    requires { length msg.now ≡ get_fw_id_response_length }
    ensures { result ≡ identity_in msg.now }
{
    let vendor = word_at(msg, 3);
    let product = word_at(msg, 5);
    let versions = versions_at(msg, 9);
    Identity {
        vendor,
        product,
        hardware: msg[7],
        silicon: msg[8],
        versions,
        bank: msg[17],
        flags1: msg[18],
        flags2: msg[19],
        flags3: msg[20],
        flags4: msg[21],
    }
}

// The sum is the definition's own (`initiated_in`), of a number of 20 bits.
#[tactic(auto, using(basis::specs::Pick::tests), unfolding(wire::specs::Response::initiated_in))]
fn initiated(msg: &[u8]) -> Result<Response, Malformed>
    ensures { result ≡ initiated_in msg.now }
{
    if msg.len() != codes::INITIATE_RESPONSE_LENGTH {
        return Err(Malformed);
    }
    let size = u32::from(word_at(msg, 4)) + 65536 * u32::from(msg[6] % 16);
    Ok(Response::Initiate {
        status: msg[2],
        wait: msg[3],
        size,
    })
}

#[tactic(auto, using(basis::specs::Pick::tests), unfolding(wire::specs::Response::receipt_in))]
fn receipt(msg: &[u8]) -> Result<Response, Malformed>
    ensures { result ≡ receipt_in msg.now }
{
    if msg.len() != codes::DATA_RESPONSE_LENGTH {
        return Err(Malformed);
    }
    let number = word_at(msg, 5);
    Ok(Response::Data {
        status: msg[2],
        wait: msg[3],
        number,
    })
}

fn validated(msg: &[u8]) -> Result<Response, Malformed>
    ensures { result ≡ validated_in msg.now }
{
    if msg.len() != codes::VALIDATE_RESPONSE_LENGTH {
        return Err(Malformed);
    }
    Ok(Response::Validate {
        status: msg[2],
        wait: msg[3],
        success: msg[4] % 2 == 1,
    })
}
