// What the indoor end decides on a response and when time passes: its next state and what it answers. Nothing here touches memory
// (01, The indoor end's phases).
#![tactic(auto)]

mod compare;
mod response;
mod sent;
mod step;
mod time;

pub use response::decide;
pub use time::pass;
