// A part of a recording played into a lent output.
ghost use Rattle.std.specs.Prelude.{◌≡◌};
ghost use Rattle.basis.specs.Left.{left};
ghost use Rattle.playing.specs.Part.{play_of};

use crate::step::{line_after, settle_zeros, step_of};
use mailbox_state::mailbox::Mailbox;
use recording::Ending;

// Why no further record was played: none is found at the place, or its line does not fit into the output. Full is a reason too, which the None
// of an Option would not be.
#[derive(Clone, Copy, Debug, PartialEq, Eq)]
pub enum Stop {
    Ended(Ending),
    Full,
}

// The next record is at `taken`, and the next line goes to `written`.
#[derive(Clone, Copy)]
pub struct Played {
    pub mailbox: Mailbox,
    pub taken: usize,
    pub written: usize,
    pub stop: Stop,
}

pub fn play(mailbox: Mailbox, part: &[u8], out: &mut [u8]) -> Played
    ensures { left result out.new ≡ play_of mailbox part.now out.old }
{
    // MESSAGE_IN apart: it is lent on its own, and settled where it lies.
    let Mailbox {
        mut state,
        mut message,
    } = mailbox;
    let mut taken = 0;
    let mut written = 0;
    // A loop and no iterator: a line that does not fit leaves it too, with its record not played.
    let stop = loop {
        let found = match recording::next(part, taken) {
            Ok(found) => found,
            Err(ending) => break Stop::Ended(ending),
        };
        let step = step_of(state, found.record);
        let line = line_after(step.state, step.answer);
        let text = line.text();
        if out.len() - written < text.len() {
            break Stop::Full;
        }
        let _ = lent::put(out, written, text);
        settle_zeros(&mut message, step.effect);
        state = step.state;
        taken = found.next;
        written += text.len();
    };
    Played {
        mailbox: Mailbox { state, message },
        taken,
        written,
        stop,
    }
}
