// The port's success.
ghost use Rattle.std.specs.Prelude.{◌≡◌};
ghost use Rattle.mailbox_c.specs.Calls.{mailbox_called, harsolvek_mailbox_success};

use crate::event::event;

#[tactic(auto, unfolding(basis::specs::Pick::pick))]
#[unsafe(no_mangle)]
pub extern "C" fn harsolvek_mailbox_success_raw(
    words: &mut [u32; 10],
    message_in: &mut [u8; 256],
    bytes: &[u8],
) -> u64
    ensures { mailbox_called result words.new message_in.new ≡ harsolvek_mailbox_success words.old message_in.old bytes.now }
{
    let decide = |state| mailbox_decide::succeed(state, bytes.len());
    event(words, message_in, bytes, decide)
}
