// The indoor end's calls: a session's start, one response, one time call (01, The indoor end's phases).
#![tactic(auto)]

mod response_call;
mod send;
mod start_call;
mod time_call;

pub use response_call::response;
pub use start_call::start;
pub use time_call::time;
