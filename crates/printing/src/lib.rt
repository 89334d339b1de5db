// The line that a record prints: CCI, a space, the answer's number, a newline; and the line that ends a replay (01, Replay program).
#![tactic(auto)]

pub mod hex;
mod text;

pub use text::{LONGEST, Line, line_of, none, stop};
