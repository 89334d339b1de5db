// What is decided on an event: the next state, the answer, and what happens to MESSAGE_IN.
use crate::answer::Answer;
use crate::state::State;

// 01, The mailbox: start and ACK keep MESSAGE_IN; reset, cancel and a completion without data zero it; a success fills it.
#[derive(Clone, Copy)]
pub enum MessageEffect {
    Kept,
    ZeroedAtReset,
    ZeroedAtCancel,
    ZeroedAtCompletion,
    Filled,
}

#[derive(Clone, Copy)]
pub struct Step {
    pub state: State,
    pub answer: Answer,
    pub effect: MessageEffect,
}
