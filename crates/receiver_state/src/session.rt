// A session of the receiver: what it was started with, its state, and what a call returns.
use crate::answer::Answer;
use crate::phase::Phase;
use silence::Settings;
use wire::response::Identity;

// `silence` is in milliseconds, and `resends` counts the resends made since the last well-formed request.
// `capacity` is cast where a length is held against it: there is no From between u32 and usize.
#[derive(Clone, Copy)]
pub struct Receiver {
    pub settings: Settings,
    pub identity: Identity,
    pub capacity: u32,
    pub phase: Phase,
    pub silence: u16,
    pub resends: u8,
}

// What a request and a time call return.
pub type Outcome = lent::Outcome<Receiver, Answer>;
