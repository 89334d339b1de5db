// Records of a recording, read at a place and written into a lent buffer (01, Replay program).
#![tactic(auto)]

mod kinds;
mod reader;
mod record;
mod writer;

pub use reader::{Ending, Found, next};
pub use record::Record;
pub use writer::{TooShort, write};
