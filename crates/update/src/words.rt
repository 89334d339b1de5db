// A message in a few words (001 chapter 5).
use std::fmt;
use wire::malformed::Malformed;
use wire::request::{Request, Versions};
use wire::response::Response;

// FWVersion1 to FWVersion4, with points between them.
#[derive(Clone, Copy)]
pub(crate) struct Version(pub Versions);

impl fmt::Display for Version {
    fn fmt<W: fmt::Write>(&self, f: &mut fmt::Formatter<W>) -> fmt::Result {
        let Versions {
            first,
            second,
            third,
            fourth,
        } = self.0;
        write!(f, "{first}.{second}.{third}.{fourth}")
    }
}

#[derive(Clone, Copy)]
pub(crate) struct Asked(pub Result<Request, Malformed>);

impl fmt::Display for Asked {
    fn fmt<W: fmt::Write>(&self, f: &mut fmt::Formatter<W>) -> fmt::Result {
        let Ok(request) = self.0 else {
            return write!(f, "malformed");
        };
        match request {
            Request::GetFwId => write!(f, "GET_FW_ID"),
            Request::Initiate(offered) => write!(f, "INITIATE, {}", Version(offered)),
            Request::Data { number, size } => write!(f, "DATA {number}, {size} bytes"),
            Request::Validate => write!(f, "VALIDATE"),
            Request::Abort => write!(f, "ABORT"),
            Request::NotBuilt => write!(f, "not built"),
        }
    }
}

#[derive(Clone, Copy)]
pub(crate) struct Told(pub Result<Response, Malformed>);

impl fmt::Display for Told {
    // A wait of 255 asks for nothing more: the transfer is closed (001 T5-22).
    fn fmt<W: fmt::Write>(&self, f: &mut fmt::Formatter<W>) -> fmt::Result {
        let Ok(response) = self.0 else {
            return write!(f, "malformed");
        };
        match response {
            Response::GetFwId {
                status: _,
                identity,
            } => write!(f, "GET_FW_ID, {}", Version(identity.versions)),
            Response::Initiate {
                status: _,
                wait: _,
                size: _,
            } => write!(f, "INITIATE"),
            Response::Data {
                status: _,
                wait: wire::codes::UNABLE,
                number: _,
            } => write!(f, "DATA, closed"),
            Response::Data {
                status: _,
                wait: _,
                number,
            } => write!(f, "DATA, asks for {number}"),
            Response::Validate {
                status: _,
                wait: _,
                success: true,
            } => write!(f, "VALIDATE, success"),
            Response::Validate {
                status: _,
                wait: _,
                success: false,
            } => write!(f, "VALIDATE"),
            Response::NotBuilt => write!(f, "not built"),
        }
    }
}
