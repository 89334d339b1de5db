// What is decided on a response, and when time passes.
use crate::answer::Answer;
use crate::phase::State;

#[derive(Clone, Copy)]
pub struct Step {
    pub state: State,
    pub answer: Answer,
}
