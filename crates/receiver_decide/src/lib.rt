// What the receiver decides: on a request which phase comes next, what is answered and where a block goes, and what time does. Nothing here
// touches memory (01, The receiver's phases).
#![tactic(auto)]

mod answer;
mod phase;
mod range;
mod request;
mod time;

pub use answer::reply;
pub use phase::{accepted, nothing_accepted};
pub use range::out_of_range;
pub use request::decide;
pub use time::pass;
