// How a mailbox starts, and what is read of one.
ghost use Rattle.std.specs.Prelude.{◌≡◌};
ghost use Rattle.mailbox_rules.specs.Mailbox.{fresh_mailbox, mailbox_fresh_of, message_in_of, mailbox_cci_of};

use mailbox_state::mailbox::{Mailbox, NoMailbox};
use mailbox_state::state::{Changes, Notifications, State};
use mailbox_state::status::CommandStatus;

// 29 for a count that no mailbox has (01, The mailbox).
#[tactic(auto, unfolding(mailbox_rules::specs::Mailbox::mailbox_fresh_of))]
pub fn fresh(count: u8) -> Result<Mailbox, NoMailbox>
    ensures { result ≡ mailbox_fresh_of count }
{
    mailbox_decide::count(count).map(with_connectors)
}

// CCI 0, notifications off, none shown, nothing running.
#[tactic(auto, unfolding(mailbox_rules::specs::Mailbox::fresh_mailbox, mailbox_rules::specs::MessageIn::zero_message_in))]
fn with_connectors(count: u8) -> Mailbox
    ensures { result ≡ fresh_mailbox count }
{
    Mailbox {
        state: State {
            connectors: count,
            notifications: Notifications::Off,
            status: CommandStatus::Nothing,
            changes: Changes {
                shown: 0,
                waiting: [false; 8],
            },
        },
        message: [0; 256],
    }
}

pub fn cci(mailbox: Mailbox) -> u32
    ensures { result ≡ mailbox_cci_of mailbox }
{
    let state = mailbox.state;
    mailbox_decide::cci(state.status, state.changes.shown)
}

pub fn message_in(mailbox: Mailbox) -> [u8; 256]
    ensures { result ≡ message_in_of mailbox }
{
    mailbox.message
}
