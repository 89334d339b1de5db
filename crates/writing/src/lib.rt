// Update messages written as bytes: an array by value with its length, and the one routine that puts it into a lent buffer.
#![tactic(auto)]

mod message;
mod request;
mod response;

pub use message::{Message, TooShort};
pub use request::write_request;
pub use response::write_response;
