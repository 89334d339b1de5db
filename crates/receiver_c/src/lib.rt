// The receiver's C boundary: its calls on a session of fourteen words that the caller lends (include/harsolvek.h).
#![tactic(auto)]

mod is_session;
mod pack;
mod request_call;
mod start_call;
mod store;
mod sum_call;
mod time_call;
mod unpack;
mod verdict;
mod words;
