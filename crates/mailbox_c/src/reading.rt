// What is read of a mailbox: CCI, and whether it is one.
ghost use Rattle.std.specs.Prelude.{◌≡◌};
ghost use Rattle.basis.specs.Flag.{byte_of};
ghost use Rattle.mailbox_c.specs.Words.{is_mailbox};
ghost use Rattle.mailbox_c.specs.Calls.{cci_read, harsolvek_mailbox_cci};

use crate::NO_MAILBOX;
use crate::test::is_mailbox;
use crate::words::state_at;

#[tactic(auto, unfolding(basis::specs::Pick::pick))]
#[unsafe(no_mangle)]
pub extern "C" fn harsolvek_mailbox_cci_raw(words: &[u32; 10], cci: &mut u32) -> u64
    ensures { cci_read result cci.new ≡ harsolvek_mailbox_cci words.now }
{
    if !is_mailbox(words) {
        *cci = 0;
        return NO_MAILBOX;
    }
    let state = state_at(words);
    let status = state.status;
    *cci = mailbox_decide::cci(status, state.changes.shown);
    0
}

#[unsafe(no_mangle)]
pub extern "C" fn harsolvek_mailbox_is_mailbox_raw(words: &[u32; 10]) -> u64
    ensures { result ≡ byte_of (is_mailbox words.now) }
{
    u64::from(is_mailbox(words))
}
