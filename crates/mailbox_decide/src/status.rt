// What is read off the status of the last command, and off the notifications (01, The mailbox).
ghost use Rattle.std.specs.Prelude.{◌≡◌};
ghost use Rattle.mailbox_state.specs.Status.{runs_of, due_of};
ghost use Rattle.mailbox_state.specs.State.{off_of};

use mailbox_state::state::Notifications;
use mailbox_state::status::CommandStatus;

#[tactic(auto, unfolding(mailbox_state::specs::Status::runs_of))]
pub(crate) fn runs(status: CommandStatus) -> bool
    ensures { result ≡ runs_of status }
{
    matches!(status, CommandStatus::Busy(_))
}

// Every completion and cancel waits for ACK_CC_CI with bit 17 set.
#[tactic(auto, unfolding(mailbox_state::specs::Status::due_of))]
pub(crate) fn due(status: CommandStatus) -> bool
    ensures { result ≡ due_of status }
{
    matches!(
        status,
        CommandStatus::Completed { .. }
            | CommandStatus::Failed
            | CommandStatus::NotSupported
            | CommandStatus::Cancelled
    )
}

#[tactic(auto, unfolding(mailbox_state::specs::State::off_of))]
pub(crate) fn off(notifications: Notifications) -> bool
    ensures { result ≡ off_of notifications }
{
    matches!(notifications, Notifications::Off)
}
