// The state that the words say, and the words with another state's: in the order of include/harsolvek.h.
ghost use Rattle.std.specs.Prelude.{◌≡◌};
ghost use Rattle.mailbox_c.specs.Words.{command_at, state_at, laid};

use crate::notifying::{mask_of, notifications_of, on_of};
use crate::place;
use crate::status::{data_length, running, status_code, status_of};
use crate::waiting::{bits_of, flags_of};
use mailbox_state::state::{Changes, State};
use mailbox_state::status::Command;

// A word that is too wide for its field is cut; `is_mailbox` says whether one is.
// A `TryFrom` could fail, and would have to say what the state is then; the definition cuts the words too (`state_at`).
#[tactic(auto, unfolding(crate::specs::Words::state_at))]
pub(crate) fn state_at(words: &[u32; 10]) -> State
    ensures { result ≡ state_at words.now }
{
    let notifications = notifications_of(
        words[place::NOTIFICATIONS],
        (words[place::MASK] % 65536) as u16,
    );
    let command = command_at(words);
    let status = status_of(
        words[place::STATUS],
        (words[place::LENGTH] % 256) as u8,
        command,
    );
    let changes = Changes {
        shown: (words[place::SHOWN] % 256) as u8,
        waiting: flags_of(words[place::WAITING]),
    };
    State {
        connectors: (words[place::CONNECTORS] % 256) as u8,
        notifications,
        status,
        changes,
    }
}

fn command_at(words: &[u32; 10]) -> Command
    ensures { result ≡ command_at words.now }
{
    Command {
        code: (words[place::CODE] % 256) as u8,
        connector: (words[place::CONNECTOR] % 256) as u8,
        reset_type: (words[place::RESET_TYPE] % 256) as u8,
    }
}

// The connectors are fixed at the start, so their word stays.
#[tactic(auto, unfolding(crate::specs::Words::laid))]
pub(crate) fn store(words: &mut [u32; 10], state: State)
    ensures { words.new ≡ laid words.old state }
{
    let notifications = state.notifications;
    let status = state.status;
    let command = running(status);
    let waiting = state.changes.waiting;
    words[place::SHOWN] = u32::from(state.changes.shown);
    words[place::WAITING] = bits_of(waiting);
    words[place::NOTIFICATIONS] = on_of(notifications);
    words[place::MASK] = u32::from(mask_of(notifications));
    words[place::STATUS] = status_code(status);
    words[place::LENGTH] = u32::from(data_length(status));
    words[place::CODE] = u32::from(command.code);
    words[place::CONNECTOR] = u32::from(command.connector);
    words[place::RESET_TYPE] = u32::from(command.reset_type);
}
