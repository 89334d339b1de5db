// The status of the last command as numbers, and back.
ghost use Rattle.std.specs.Prelude.{◌≡◌};
ghost use Rattle.mailbox_c.specs.Status.{status_code_of, data_length_of, running_of, status_of};

use mailbox_state::status::{Command, CommandStatus};

// Numbers, since the layout of the words has them (include/harsolvek.h).
const NOTHING: u32 = 0;

const RESET_DONE: u32 = 1;

pub(crate) const BUSY: u32 = 2;

pub(crate) const COMPLETED: u32 = 3;

const FAILED: u32 = 4;

const NOT_SUPPORTED: u32 = 5;

const CANCELLED: u32 = 6;

pub(crate) const ACKNOWLEDGED: u32 = 7;

const NO_COMMAND: Command = Command {
    code: 0,
    connector: 0,
    reset_type: 0,
};

pub(crate) fn status_code(status: CommandStatus) -> u32
    ensures { result ≡ status_code_of status }
{
    match status {
        CommandStatus::Nothing => NOTHING,
        CommandStatus::ResetDone => RESET_DONE,
        CommandStatus::Busy(_) => BUSY,
        CommandStatus::Completed { length: _ } => COMPLETED,
        CommandStatus::Failed => FAILED,
        CommandStatus::NotSupported => NOT_SUPPORTED,
        CommandStatus::Cancelled => CANCELLED,
        CommandStatus::Acknowledged => ACKNOWLEDGED,
    }
}

// 0 where a status has no data.
pub(crate) fn data_length(status: CommandStatus) -> u8
    ensures { result ≡ data_length_of status }
{
    match status {
        CommandStatus::Completed { length } => length,
        _ => 0,
    }
}

// All 0 where no command runs.
pub(crate) fn running(status: CommandStatus) -> Command
    ensures { result ≡ running_of status }
{
    match status {
        CommandStatus::Busy(command) => command,
        _ => NO_COMMAND,
    }
}

// A code that no status has is read as Nothing; `is_status` says whether there is one. No TryFrom, since the definition has a status for every
// code, and a code has a length and a command beside it.
#[tactic(auto, using(basis::specs::Pick::tests), unfolding(crate::specs::Status::status_of, crate::specs::Status::rest_of))]
pub(crate) fn status_of(code: u32, length: u8, command: Command) -> CommandStatus
    ensures { result ≡ status_of code length command }
{
    match code {
        BUSY => CommandStatus::Busy(command),
        COMPLETED => CommandStatus::Completed { length },
        RESET_DONE => CommandStatus::ResetDone,
        FAILED => CommandStatus::Failed,
        NOT_SUPPORTED => CommandStatus::NotSupported,
        CANCELLED => CommandStatus::Cancelled,
        ACKNOWLEDGED => CommandStatus::Acknowledged,
        _ => CommandStatus::Nothing,
    }
}
