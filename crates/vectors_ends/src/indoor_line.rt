// A line of a session of the indoor end (01, The indoor end's phases).
use crate::bench::{Bench, UNWRITTEN};
use crate::indoor_call;
use numbers::Numbered;
use saying::Said;

impl Bench<'_, '_, '_> {
    pub(crate) fn indoor_line(&mut self, line: &[u8]) -> Option<Said> {
        let words = script::rest(line);
        match script::first(line) {
            b"lend" => self.indoor.lend(words),
            b"try" => self.try_indoor(words.get(1..)?),
            word => self.call_indoor(word, words),
        }
    }

    // A call whose resulting session is dropped, so that the next line starts from the same session.
    fn try_indoor(&mut self, line: &[u8]) -> Option<Said> {
        let before = self.indoor;
        let said = self.call_indoor(script::first(line), script::rest(line));
        self.indoor = before;
        said
    }

    // The call gets only the lent parts of the file and the buffer.
    fn call_indoor(&mut self, word: &[u8], words: &[u8]) -> Option<Said> {
        match word {
            b"start" => {
                self.buffer.fill(UNWRITTEN);
                self.start_indoor(words)
            }
            b"response" | b"blocks" | b"time" => {
                self.buffer.fill(UNWRITTEN);
                self.step_indoor(word, words)
            }
            _ => None,
        }
    }

    // A start ends the session before it, also where it is refused (29, 46, 27): then there is no session.
    fn start_indoor(&mut self, words: &[u8]) -> Option<Said> {
        let lent = self.indoor.lent;
        let file = script::upto(self.file, lent.memory);
        let buffer = &mut *self.buffer;
        let room = script::part_of(buffer, lent.buffer);
        let started = indoor_call::start(words, file, &mut buffer[..room])?;
        let number = started.number();
        match started {
            Ok(made) => {
                let message = script::upto(buffer, made.written);
                Some(self.indoor.left(number, made.session, message))
            }
            Err(_) => {
                self.indoor.session = None;
                Some(Said::nothing().number(u64::from(number)))
            }
        }
    }

    fn step_indoor(&mut self, word: &[u8], words: &[u8]) -> Option<Said> {
        let Some(indoor) = self.indoor.session else {
            return Some(Said::nothing().text(b" no session"));
        };
        let lent = self.indoor.lent;
        let file = script::upto(self.file, lent.memory);
        let buffer = &mut *self.buffer;
        let room = script::part_of(buffer, lent.buffer);
        let outcome = indoor_call::step(word, words, indoor, file, &mut buffer[..room])?;
        Some(self.indoor.ended(outcome, buffer))
    }
}
