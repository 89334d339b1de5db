// The indoor end for C: its calls on a session of thirteen lent words (include/harsolvek.h).
#![tactic(auto)]

mod is_session;
mod phase_words;
mod response_call;
mod start_call;
mod store;
mod time_call;
mod unpack;
mod words;
