// What comes to a mailbox: a write of CONTROL, a report of the port, a change on a connector (01, The mailbox).
ghost use Rattle.std.specs.Prelude.{◌≡◌};
ghost use Rattle.mailbox_rules.specs.Events.{writes, succeeds, fails, changes, write_step_of, step_returns, event_of};

use crate::settle_call::settle;
use commands::control::take_apart;
use mailbox_decide::refused;
use mailbox_state::answer::Refusal;
use mailbox_state::mailbox::{Mailbox, Outcome};
use mailbox_state::state::State;
use mailbox_state::step::Step;

pub fn write(mailbox: Mailbox, control: &[u8]) -> Outcome
    ensures { result ≡ event_of mailbox (writes control.now) }
{
    settled(mailbox, write_step(mailbox.state, control), b"")
}

pub fn report_success(mailbox: Mailbox, bytes: &[u8]) -> Outcome
    ensures { result ≡ event_of mailbox (succeeds bytes.now) }
{
    let step = mailbox_decide::succeed(mailbox.state, bytes.len());
    settled(mailbox, step, bytes)
}

pub fn report_failure(mailbox: Mailbox) -> Outcome
    ensures { result ≡ event_of mailbox fails }
{
    let step = mailbox_decide::fail(mailbox.state);
    settled(mailbox, step, b"")
}

pub fn change(mailbox: Mailbox, connector: u8, reason: u16) -> Outcome
    ensures { result ≡ event_of mailbox (changes connector reason) }
{
    let step = mailbox_decide::change(mailbox.state, connector, reason);
    settled(mailbox, step, b"")
}

// What a write decides without MESSAGE_IN: for a caller that has it elsewhere.
#[tactic(auto, unfolding(mailbox_rules::specs::Events::parsed_step_of))]
pub fn write_step(state: State, control: &[u8]) -> Step
    ensures { result ≡ write_step_of state control.now }
{
    match take_apart(control) {
        Ok(fields) => mailbox_decide::write(state, fields),
        Err(_) => refused(state, Refusal::ControlLength),
    }
}

fn settled(mailbox: Mailbox, step: Step, bytes: &[u8]) -> Outcome
    ensures { result ≡ step_returns mailbox step bytes.now }
{
    let mut message = mailbox.message;
    settle(&mut message, step.effect, bytes);
    Outcome {
        mailbox: Mailbox {
            state: step.state,
            message,
        },
        answer: step.answer,
    }
}
