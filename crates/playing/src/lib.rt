// A recording played on a mailbox: one record, and a part of a recording (01, Replay program).
#![tactic(auto)]

mod part;
mod step;
mod turn;
mod whole;

pub use part::{Played, Stop, play};
pub use turn::{Turn, play_record};
pub use whole::{begin, closing};
