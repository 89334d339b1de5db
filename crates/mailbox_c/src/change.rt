// A change on a connector.
ghost use Rattle.std.specs.Prelude.{◌≡◌};
ghost use Rattle.mailbox_c.specs.Calls.{mailbox_called, harsolvek_mailbox_change};

use crate::event::event;
use width::to_byte;

#[tactic(auto, using(crate::proofs::Narrowing::called_narrow), unfolding(basis::specs::Pick::pick))]
#[unsafe(no_mangle)]
pub extern "C" fn harsolvek_mailbox_change_raw(
    words: &mut [u32; 10],
    message_in: &mut [u8; 256],
    connector: u32,
    reason: u16,
) -> u64
    ensures { mailbox_called result words.new message_in.new ≡ harsolvek_mailbox_change words.old message_in.old connector reason }
{
    let decide = |state| mailbox_decide::change(state, to_byte(connector), reason);
    event(words, message_in, b"", decide)
}
