// Bytes put into lent memory at a place, and what a call returns that writes into a lent buffer.
#![tactic(auto)]

mod outcome;
mod placing;

pub use outcome::Outcome;
pub use placing::{NoRoom, put};
