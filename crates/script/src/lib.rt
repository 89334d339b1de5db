// The script of the vectors as it is read: its lines that ask for an answer, and their words, numbers and bytes.
#![tactic(auto)]

mod digit;
mod field;
mod heading;
mod number;
mod parts;
mod run;
mod spelling;
mod words;

pub use field::{Field, NoNumber};
pub use heading::asks;
pub use number::decimal;
pub use parts::{from, part_of, upto};
pub use spelling::{ROOM, Spelled, spell};
pub use words::{first, rest};

// Room for a script. A script may have one byte less, so that one that is too long is seen and refused, not cut.
pub const TEXT_ROOM: usize = 131072;

pub const TEXT_MOST: usize = 131071;
