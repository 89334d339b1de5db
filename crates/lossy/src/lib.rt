// A line that loses and repeats messages by a seed, with both ends on it: one message goes, and arrives or is lost.
#![tactic(auto)]

mod carry_call;

pub use carry_call::{Carried, carry};
