// What becomes of a message on a line that loses and repeats, by a seed.
#![tactic(auto)]

mod called;
mod luck;
mod way;
mod went;

pub use called::{Answered, answers};
pub use luck::{Arrival, Going, Luck, Odds};
pub use way::Way;
pub use went::{Lost, Missed, Went};
