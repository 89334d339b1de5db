// What the bytes of a message are read as.
use crate::{requests, responses};
use saying::Said;
use wire::malformed::Malformed;

#[derive(Clone, Copy)]
pub(crate) enum Kind {
    Request,
    Response,
}

impl Kind {
    pub(crate) fn named(word: &[u8]) -> Option<Kind> {
        match word {
            b"request" => Some(Kind::Request),
            b"response" => Some(Kind::Response),
            _ => None,
        }
    }

    pub(crate) fn is_valid(self, msg: &[u8]) -> bool {
        match self {
            Kind::Request => reading::read_request(msg).is_ok(),
            Kind::Response => reading::read_response(msg).is_ok(),
        }
    }

    pub(crate) fn show(self, msg: &[u8]) -> Said {
        match self {
            Kind::Request => reading::read_request(msg).map_or_else(malformed, requests::show),
            Kind::Response => reading::read_response(msg).map_or_else(malformed, responses::show),
        }
    }
}

// 01, Numbers we answer.
fn malformed(_: Malformed) -> Said {
    Said::nothing().text(b" 20")
}
