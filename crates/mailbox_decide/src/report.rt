// A report of the port: 7, then 8 (01, Numbers we answer).
ghost use Rattle.std.specs.Prelude.{◌≡◌};
ghost use Rattle.mailbox_rules.specs.Report.{success_step_of, failure_step_of};

use crate::command::with_status;
use crate::status::runs;
use crate::step::refused;
use mailbox_state::answer::Refusal;
use mailbox_state::state::State;
use mailbox_state::status::CommandStatus;
use mailbox_state::step::{MessageEffect, Step};

// 000 Table A-2: MAX_DATA_LENGTH is 255, the most that a byte holds.
#[tactic(auto, using(basis::specs::Pick::tests), unfolding(mailbox_rules::specs::Report::success_step_of))]
pub fn succeed(state: State, length: usize) -> Step
    ensures { result ≡ success_step_of state length }
{
    if !runs(state.status) {
        return refused(state, Refusal::NothingRuns);
    }
    let Ok(length) = u8::try_from(length) else {
        return refused(state, Refusal::DataTooLong);
    };
    with_status(
        state,
        CommandStatus::Completed { length },
        MessageEffect::Filled,
    )
}

#[tactic(auto, using(basis::specs::Pick::tests), unfolding(mailbox_rules::specs::Report::failure_step_of))]
pub fn fail(state: State) -> Step
    ensures { result ≡ failure_step_of state }
{
    if !runs(state.status) {
        return refused(state, Refusal::NothingRuns);
    }
    with_status(
        state,
        CommandStatus::Failed,
        MessageEffect::ZeroedAtCompletion,
    )
}
