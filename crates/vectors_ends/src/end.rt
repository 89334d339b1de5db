// One end: its session, and how much memory is lent to it.
use crate::bench;
use crate::session::Session;
use lent::Outcome;
use numbers::Numbered;
use saying::Said;
use script::Field;

// How many bytes are lent: of the image or the file, and of the output buffer.
#[derive(Clone, Copy)]
pub(crate) struct Lent {
    pub memory: usize,
    pub buffer: usize,
}

// There is no session before the first start, and none after one that is refused.
#[derive(Clone, Copy)]
pub(crate) struct End<S> {
    pub session: Option<S>,
    pub lent: Lent,
}

impl<S: Session> End<S> {
    pub(crate) fn empty() -> End<S> {
        End {
            session: None,
            lent: Lent {
                memory: 0,
                buffer: 0,
            },
        }
    }

    // How much of the image or the file, and then of the buffer, the calls from here on borrow: for 28 and 27 (01, Numbers we answer).
    pub(crate) fn lend(&mut self, words: &[u8]) -> Option<Said> {
        let memory = Field::none().next(words, bench::MEMORY).ok()?;
        let buffer = memory.next(words, bench::BUFFER).ok()?;
        if !buffer.is_last(words) {
            return None;
        }
        self.lent = Lent {
            memory: memory.value,
            buffer: buffer.value,
        };
        Some(Said::nothing().text(b" lent"))
    }

    // After a call, whose session the lines from here on start from.
    pub(crate) fn ended<A: Numbered>(&mut self, outcome: Outcome<S, A>, buffer: &[u8]) -> Said {
        let message = script::upto(buffer, outcome.written);
        self.left(outcome.answer.number(), outcome.session, message)
    }

    // The call's number, the message that it wrote, and the session.
    pub(crate) fn left(&mut self, number: u8, session: S, message: &[u8]) -> Said {
        self.session = Some(session);
        let said = Said::nothing().number(u64::from(number)).text(b" :");
        session.state(S::wrote(said, message).text(b" :"))
    }
}
