// A write of CONTROL.
ghost use Rattle.std.specs.Prelude.{◌≡◌};
ghost use Rattle.mailbox_c.specs.Calls.{mailbox_called, harsolvek_mailbox_write};

use crate::event::event;

#[tactic(auto, unfolding(basis::specs::Pick::pick))]
#[unsafe(no_mangle)]
pub extern "C" fn harsolvek_mailbox_write_raw(
    words: &mut [u32; 10],
    message_in: &mut [u8; 256],
    control: &[u8],
) -> u64
    ensures { mailbox_called result words.new message_in.new ≡ harsolvek_mailbox_write words.old message_in.old control.now }
{
    let decide = |state| mailbox::write_step(state, control);
    event(words, message_in, b"", decide)
}
