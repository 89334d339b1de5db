// A clean line that runs: both ends from their start until nothing is on its way, each message delivered once, in the order sent, with no
// waits and a good verdict (demand 3's clean line).
#![tactic(auto)]

mod ends;
mod ran;
mod session;

pub use ends::Ends;
pub use ran::{Ended, NotRun, number};
pub use session::run;
