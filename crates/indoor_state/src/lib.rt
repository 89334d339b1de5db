// The indoor end's types: its state, what it answers and what goes out with it (01, The indoor end's phases; 01, Numbers we answer).
#![tactic(auto)]

pub mod answer;
pub mod phase;
pub mod plan;
pub mod session;
pub mod step;
