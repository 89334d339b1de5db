// The update messages: what each one says, and the codes that it says it with (001 T5-1 to T5-29).
#![tactic(auto)]

pub mod codes;
pub mod malformed;
pub mod request;
pub mod response;
pub mod status;
