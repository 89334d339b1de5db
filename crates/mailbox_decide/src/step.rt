// What is decided on an event that is taken, and on one that is refused.
ghost use Rattle.std.specs.Prelude.{◌≡◌, Ok};
ghost use Rattle.mailbox_state.specs.Step.{mailbox_step, refused};
ghost use Rattle.mailbox_state.specs.declared.step.MessageEffect.TheVariants.{Kept};

use mailbox_state::answer::{Answer, Refusal};
use mailbox_state::state::State;
use mailbox_state::step::{MessageEffect, Step};

pub(crate) fn taken(state: State, effect: MessageEffect) -> Step
    ensures { result ≡ mailbox_step state (Ok tt) effect }
{
    Step {
        state,
        answer: Ok(()),
        effect,
    }
}

// Nothing changes, whatever is answered.
pub fn kept(state: State, answer: Answer) -> Step
    ensures { result ≡ mailbox_step state answer Kept }
{
    Step {
        state,
        answer,
        effect: MessageEffect::Kept,
    }
}

// A refusal keeps everything.
pub fn refused(state: State, refusal: Refusal) -> Step
    ensures { result ≡ refused state refusal }
{
    kept(state, Err(refusal))
}
