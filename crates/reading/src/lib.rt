// Bytes read as update messages: any byte string is answered, and nothing is read past its end.
#![tactic(auto)]

mod header;
mod number;
mod request;
mod response;

pub use request::read_request;
pub use response::read_response;
