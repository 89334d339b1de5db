// Both ends on a line that loses and repeats: what one of them writes in a call is then on its way.
#![tactic(auto)]

mod called;
mod ends;

pub use called::{Called, Indoors, Roof};
pub use ends::Ends;
