// The mailbox for C: its calls on a state of ten words and on MESSAGE_IN, both where they lie (include/harsolvek.h).
#![tactic(auto)]

mod change;
mod event;
mod failure;
mod notifying;
mod place;
mod reading;
mod start;
mod status;
mod success;
mod test;
mod waiting;
mod words;
mod write;

// Words that are no mailbox's: 29, as for a count of which none is made.
// A number, since each call for C answers one (`mailbox_called`).
pub(crate) const NO_MAILBOX: u64 = 29;
