// The receiver's types: its state, what comes with a request, what it answers and what is decided (01, The receiver's phases; 01, Numbers we
// answer).
#![tactic(auto)]

pub mod answer;
pub mod phase;
pub mod session;
pub mod step;
pub mod sum;
pub mod verdict;
