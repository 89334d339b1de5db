// A request, by its length, version and type (001 T5-3 to T5-15).
ghost use Rattle.std.specs.Prelude.{◌≡◌};
ghost use Rattle.wire.specs.Request.{parsed_request_of, request_of_type, bare_in, initiate_in, data_in};

use crate::header::has_header;
use crate::number::{versions_at, word_at};
use wire::codes;
use wire::malformed::Malformed;
use wire::request::Request;

#[tactic(auto, using(basis::specs::Pick::tests), unfolding(wire::specs::Request::parsed_request_of))]
pub fn read_request(msg: &[u8]) -> Result<Request, Malformed>
    ensures { result ≡ parsed_request_of msg.now }
{
    if !has_header(msg) {
        return Err(Malformed);
    }
    typed(msg, msg[1])
}

#[tactic(auto, using(basis::specs::Pick::tests), unfolding(wire::specs::Request::request_of_type))]
fn typed(msg: &[u8], t: u8) -> Result<Request, Malformed>
    ensures { result ≡ request_of_type msg.now t }
{
    match t {
        codes::GET_FW_ID => bare(msg, Request::GetFwId),
        codes::INITIATE => initiate(msg),
        codes::DATA => block(msg),
        codes::VALIDATE => bare(msg, Request::Validate),
        codes::ABORT => bare(msg, Request::Abort),
        codes::DATA_NR | codes::DATA_PAUSE | codes::VENDOR_SPECIFIC => Ok(Request::NotBuilt),
        _ => Err(Malformed),
    }
}

fn bare(msg: &[u8], request: Request) -> Result<Request, Malformed>
    ensures { result ≡ bare_in msg.now request }
{
    if msg.len() != codes::HEADER {
        return Err(Malformed);
    }
    Ok(request)
}

#[tactic(auto, using(basis::specs::Pick::tests), unfolding(wire::specs::Request::initiate_in))]
fn initiate(msg: &[u8]) -> Result<Request, Malformed>
    ensures { result ≡ initiate_in msg.now }
{
    if msg.len() != codes::INITIATE_LENGTH {
        return Err(Malformed);
    }
    Ok(Request::Initiate(versions_at(msg, 2)))
}

#[tactic(auto, using(basis::specs::Pick::tests), unfolding(wire::specs::Request::data_in))]
fn block(msg: &[u8]) -> Result<Request, Malformed>
    ensures { result ≡ data_in msg.now }
{
    let n = msg.len();
    if n < codes::DATA_HEAD {
        return Err(Malformed);
    }
    Ok(Request::Data {
        number: word_at(msg, 2),
        size: n - codes::DATA_HEAD,
    })
}
