// The mailbox's types: its state, what it answers, what a write is judged by and what is decided (01, The mailbox; 01, Numbers we answer).
#![tactic(auto)]

pub mod answer;
pub mod mailbox;
pub mod situation;
pub mod state;
pub mod status;
pub mod step;
