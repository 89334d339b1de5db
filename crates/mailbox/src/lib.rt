// The mailbox of the indoor computer to its port controller: its start, a write, a report of the port, a change, and what is read
// (01, The mailbox; 000 sections 3 and 4).
#![tactic(auto)]

mod event;
mod mailbox;
mod settle_call;

pub use event::{change, report_failure, report_success, write, write_step};
pub use mailbox::{cci, fresh, message_in};
pub use settle_call::settle;
