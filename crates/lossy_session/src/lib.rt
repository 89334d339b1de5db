// A session over a line that loses and repeats: how both ends start, time that passes there, and whether the image is the file.
#![tactic(auto)]

mod judge_call;
mod pass_call;
mod start_call;

pub use judge_call::{Judged, judge};
pub use pass_call::{Passed, pass};
pub use start_call::{Limits, NotStarted, start};
