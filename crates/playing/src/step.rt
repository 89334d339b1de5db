// What a record decides, the line that it prints, and MESSAGE_IN after it, in its place: no record copies those 256 bytes.
ghost use Rattle.std.specs.Prelude.{◌≡◌, []};
ghost use Rattle.mailbox_rules.specs.MessageIn.{settled_of};
ghost use Rattle.mailbox_rules.specs.Events.{event_step_of};
ghost use Rattle.playing.specs.Turn.{event_in};
ghost use Rattle.playing.specs.Step.{zeroed_of, line_after};

use mailbox_state::answer::Answer;
use mailbox_state::state::State;
use mailbox_state::step::{MessageEffect, Step};
use numbers::Numbered;
use printing::{Line, line_of};
use recording::Record;

// Four kinds, and for each its rule with what the record holds: the match is the table (01, Replay program).
#[tactic(auto, unfolding(crate::specs::Turn::event_in))]
pub(crate) fn step_of(state: State, record: Record) -> Step
    ensures { result ≡ event_step_of state (event_in «record») }
{
    match record {
        Record::Control(control) => mailbox::write_step(state, &control),
        Record::Change { connector, reason } => mailbox_decide::change(state, connector, reason),
        Record::Success { length } => mailbox_decide::succeed(state, usize::from(length)),
        Record::Failure => mailbox_decide::fail(state),
    }
}

pub(crate) fn line_after(state: State, answer: Answer) -> Line
    ensures { result ≡ line_after state answer }
{
    let status = state.status;
    let cci = mailbox_decide::cci(status, state.changes.shown);
    line_of(cci, answer.number())
}

// The bytes of a recorded success are zeros (01, Replay program), so that MESSAGE_IN is zeroed where it would be filled.
pub(crate) fn settle_zeros(message: &mut [u8; 256], effect: MessageEffect)
    ensures { message.new ≡ settled_of message.old (zeroed_of effect) [] }
{
    mailbox::settle(message, zeroed(effect), b"");
}

fn zeroed(effect: MessageEffect) -> MessageEffect
    ensures { result ≡ zeroed_of effect }
{
    match effect {
        MessageEffect::Filled => MessageEffect::ZeroedAtCompletion,
        other => other,
    }
}
