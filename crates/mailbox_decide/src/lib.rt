// What the mailbox decides on a write, on a report of the port and on a change, and what CCI then says. Nothing here touches memory (01, The mailbox).
#![tactic(auto)]

mod bits;
mod changes;
mod command;
mod connectors;
mod notice;
mod refusal;
mod report;
mod status;
mod step;

pub use bits::cci;
pub use command::write;
pub use connectors::count;
pub use notice::change;
pub use report::{fail, succeed};
pub use step::{kept, refused};
