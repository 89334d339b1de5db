// The port's failure.
ghost use Rattle.std.specs.Prelude.{◌≡◌};
ghost use Rattle.mailbox_c.specs.Calls.{mailbox_called, harsolvek_mailbox_failure};

use crate::event::event;

#[tactic(auto, unfolding(basis::specs::Pick::pick))]
#[unsafe(no_mangle)]
pub extern "C" fn harsolvek_mailbox_failure_raw(
    words: &mut [u32; 10],
    message_in: &mut [u8; 256],
) -> u64
    ensures { mailbox_called result words.new message_in.new ≡ harsolvek_mailbox_failure words.old message_in.old }
{
    let decide = |state| mailbox_decide::fail(state);
    event(words, message_in, b"", decide)
}
