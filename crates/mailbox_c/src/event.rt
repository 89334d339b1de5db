// An event of the mailbox that the words say: what it decides, carried out on the lent memory.
ghost use Rattle.std.specs.Prelude.{◌≡◌, true, false};
ghost use Rattle.mailbox_state.specs.declared.step.Step.{Step};
ghost use Rattle.mailbox_c.specs.Words.{state_at, is_mailbox};
ghost use Rattle.mailbox_c.specs.Calls.{mailbox_called, step_leaves};

use crate::NO_MAILBOX;
use crate::test::is_mailbox;
use crate::words::{state_at, store};
use mailbox_state::state::State;
use mailbox_state::step::Step;
use numbers::Numbered;

// The one end of every event. A refused step stores what stood there. The words and MESSAGE_IN are lent apart, as the calls for C have them.
pub(crate) fn event<F: FnOnce(State) -> Step>(
    words: &mut [u32; 10],
    message_in: &mut [u8; 256],
    bytes: &[u8],
    decide: F,
) -> u64
    requires { F.IsAlwaysCallable decide }
    ensures none { is_mailbox words.old ≡ false → mailbox_called result words.new message_in.new ≡ mailbox_called 29 words.old message_in.old }
    ensures decided { is_mailbox words.old ≡ true → (step : Step) × F.post decide (state_at words.old) step × (mailbox_called result words.new message_in.new ≡ step_leaves words.old message_in.old step bytes.now) }
{
    if !is_mailbox(words) {
        return NO_MAILBOX;
    }
    let step = decide(state_at(words));
    store(words, step.state);
    mailbox::settle(message_in, step.effect, bytes);
    u64::from(step.answer.number())
}
