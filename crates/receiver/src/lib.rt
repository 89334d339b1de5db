// The receiver's calls: a session's start, and what borrows memory: one request, one time call, the image sum
// (01, The receiver's phases).
#![tactic(auto)]

mod hearing;
mod request_call;
mod respond;
mod start_call;
mod store;
mod sum_call;
mod time_call;

pub use hearing::hear;
pub use request_call::request;
pub use respond::{has_identity, send_answer, send_identity};
pub use start_call::start;
pub use sum_call::sum;
pub use time_call::time;
