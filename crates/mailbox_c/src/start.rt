// How many words a state has, and a fresh mailbox.
ghost use Rattle.std.specs.Prelude.{◌≡◌};
ghost use Rattle.mailbox_c.specs.Calls.{harsolvek_mailbox_layout1, mailbox_called, harsolvek_mailbox_fresh};

use crate::place;
use numbers::Numbered;
use width::to_byte;

const WORDS: u64 = 10;

#[unsafe(no_mangle)]
pub extern "C" fn harsolvek_mailbox_layout_1() -> u64
    ensures { result ≡ harsolvek_mailbox_layout1 }
{
    WORDS
}

// Beside a 29 every word is 0.
#[unsafe(no_mangle)]
pub extern "C" fn harsolvek_mailbox_fresh_raw(
    words: &mut [u32; 10],
    message_in: &mut [u8; 256],
    connectors: u32,
) -> u64
    ensures { mailbox_called result words.new message_in.new ≡ harsolvek_mailbox_fresh connectors }
{
    *words = [0; 10];
    *message_in = [0; 256];
    match mailbox_decide::count(to_byte(connectors)) {
        Ok(count) => {
            words[place::CONNECTORS] = u32::from(count);
            0
        }
        Err(refusal) => u64::from(refusal.number()),
    }
}
