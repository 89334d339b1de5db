// One write of CONTROL (01, The mailbox).
ghost use Rattle.std.specs.Prelude.{◌≡◌, Ok};
ghost use Rattle.basis.specs.Pick.{pick};
ghost use Rattle.mailbox_rules.specs.Changes.{next_shown_of};
ghost use Rattle.mailbox_rules.specs.Write.{with_status, resets, acknowledges, enables, command_of, starts_command, taken_step_of, control_step_of};
ghost use Rattle.mailbox_state.specs.Step.{mailbox_step};

use crate::changes::next;
use crate::notice::there;
use crate::refusal::{refusal, situation};
use crate::step::{refused, taken};
use commands::control::Control;
use commands::table::{Class, Entry, look};
use mailbox_state::state::{Changes, Notifications, State};
use mailbox_state::status::{Command, CommandStatus};
use mailbox_state::step::{MessageEffect, Step};

// 002, Table A-1.
const CONNECTOR_RESET: u8 = 0x03;

#[tactic(auto, unfolding(mailbox_rules::specs::Write::judged_step_of))]
pub fn write(state: State, control: Control) -> Step
    ensures { result ≡ control_step_of state control }
{
    let entry = look(control.code);
    match refusal(entry.class, situation(state, control)) {
        Ok(()) => step(state, entry, control),
        Err(refusal) => refused(state, refusal),
    }
}

// One arm for each class: a table of functions or a closure would take from the caller what only the class says.
#[tactic(auto, unfolding(mailbox_rules::specs::Write::taken_step_of))]
fn step(state: State, entry: Entry, control: Control) -> Step
    ensures { result ≡ taken_step_of state entry.class entry.connector control }
{
    match entry.class {
        Class::Reset => reset(state),
        Class::Cancel => with_status(
            state,
            CommandStatus::Cancelled,
            MessageEffect::ZeroedAtCancel,
        ),
        Class::Acknowledge => acknowledge(state, control.change),
        Class::Enable => enable(state, control.mask),
        Class::Run => start(state, entry.connector, control),
        Class::NotSupported => with_status(
            state,
            CommandStatus::NotSupported,
            MessageEffect::ZeroedAtCompletion,
        ),
    }
}

// A taken event that changes nothing but the status.
pub(crate) fn with_status(state: State, status: CommandStatus, effect: MessageEffect) -> Step
    ensures { result ≡ mailbox_step (with_status state status) (Ok tt) effect }
{
    taken(State { status, ..state }, effect)
}

fn reset(state: State) -> Step
    ensures { result ≡ resets state }
{
    let state = State {
        notifications: Notifications::Off,
        status: CommandStatus::ResetDone,
        changes: Changes {
            shown: 0,
            waiting: [false; 8],
        },
        ..state
    };
    taken(state, MessageEffect::ZeroedAtReset)
}

fn acknowledge(state: State, change: bool) -> Step
    ensures { result ≡ acknowledges state change }
{
    let state = State {
        status: CommandStatus::Acknowledged,
        changes: after(state.changes, change),
        ..state
    };
    taken(state, MessageEffect::Kept)
}

// With bit 16 set the connector shown is cleared too.
#[tactic(auto, using(basis::specs::Pick::tests))]
fn after(changes: Changes, change: bool) -> Changes
    ensures { result ≡ pick change (next_shown_of changes) changes }
{
    if change { next(changes) } else { changes }
}

fn enable(state: State, mask: u16) -> Step
    ensures { result ≡ enables state mask }
{
    let state = State {
        notifications: Notifications::On { mask },
        status: CommandStatus::Completed { length: 0 },
        ..state
    };
    taken(state, MessageEffect::ZeroedAtCompletion)
}

#[tactic(auto, using(basis::specs::Pick::tests), unfolding(mailbox_rules::specs::Write::starts_command))]
fn start(state: State, needs: bool, control: Control) -> Step
    ensures { result ≡ starts_command state needs control }
{
    let there = there(control.connector, state.connectors);
    if needs & !there {
        return with_status(
            state,
            CommandStatus::Failed,
            MessageEffect::ZeroedAtCompletion,
        );
    }
    with_status(
        state,
        CommandStatus::Busy(command(needs, control)),
        MessageEffect::Kept,
    )
}

fn command(needs: bool, control: Control) -> Command
    ensures { result ≡ command_of needs control }
{
    Command {
        code: control.code,
        connector: where_needed(needs, control.connector),
        reset_type: where_needed(control.code == CONNECTOR_RESET, control.reset_type),
    }
}

#[tactic(auto, using(basis::specs::Pick::tests))]
fn where_needed(needed: bool, field: u8) -> u8
    ensures { result ≡ pick needed field 0 }
{
    if needed { field } else { 0 }
}
