// The mailbox by value, with its MESSAGE_IN inside, what a call returns of it, and why there is none (01, The mailbox).
ghost use Rattle.std.specs.Prelude.{◌≡◌};
ghost use Rattle.mailbox_state.specs.Connectors.{no_mailbox_number_of};

use crate::answer::Answer;
use crate::state::State;
use numbers::Numbered;

#[derive(Clone, Copy)]
pub struct Mailbox {
    pub state: State,
    pub message: [u8; 256],
}

// It has no count of written bytes, as `lent::Outcome` has: MESSAGE_IN is within the mailbox.
#[derive(Clone, Copy)]
pub struct Outcome {
    pub mailbox: Mailbox,
    pub answer: Answer,
}

// Of a count of connectors that no mailbox has.
#[derive(Clone, Copy)]
pub struct NoMailbox;

impl Numbered for NoMailbox {
    ghost number_of = { no_mailbox_number_of };

    fn number(self) -> u8 {
        29
    }
}
