// One record played on a mailbox.
ghost use Rattle.std.specs.Prelude.{◌≡◌};
ghost use Rattle.playing.specs.Turn.{turn_of};

use crate::step::{line_after, settle_zeros, step_of};
use mailbox_state::answer::Answer;
use mailbox_state::mailbox::Mailbox;
use printing::Line;
use recording::Record;

#[derive(Clone, Copy)]
pub struct Turn {
    pub mailbox: Mailbox,
    pub answer: Answer,
    pub line: Line,
}

pub fn play_record(mailbox: Mailbox, record: Record) -> Turn
    ensures { result ≡ turn_of mailbox «record» }
{
    let before = mailbox.state;
    let mut message = mailbox.message;
    let step = step_of(before, record);
    let state = step.state;
    let answer = step.answer;
    let line = line_after(state, answer);
    let effect = step.effect;
    settle_zeros(&mut message, effect);
    Turn {
        mailbox: Mailbox { state, message },
        answer,
        line,
    }
}
