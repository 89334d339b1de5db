// The text that a program of the vectors prints after a line of its script, put together by value, piece by piece; only the program
// prints.
#![tactic(auto)]

mod decimal;
mod hex;
mod memory;
mod said;

pub use memory::look;
pub use said::Said;
