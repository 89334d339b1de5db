// What is decided on a request, and when time passes.
use crate::answer::Answer;
use crate::phase::Phase;

// `store`: the request's block is put into the image, at 256 × this number.
#[derive(Clone, Copy)]
pub struct Step {
    pub phase: Phase,
    pub answer: Answer,
    pub store: Option<u16>,
}

// The phase after a request that was heard, and its answer.
#[derive(Clone, Copy)]
pub struct Heard {
    pub phase: Phase,
    pub answer: Answer,
}

#[derive(Clone, Copy)]
pub struct Tick {
    pub phase: Phase,
    pub silence: u16,
    pub resends: u8,
    pub answer: Answer,
}
