// The mailbox that lines work on, if there is one (01, The mailbox).
use crate::{mailbox_call, mailbox_outcome, recording_line};
use mailbox_state::mailbox::Mailbox;
use numbers::Numbered;
use saying::Said;
use script::Field;

#[derive(Clone, Copy)]
pub(crate) struct Bench {
    pub mailbox: Option<Mailbox>,
}

impl Bench {
    // None where the line is not understood. Only a line of the mailbox changes what is held.
    pub(crate) fn answer(&mut self, line: &[u8]) -> Option<Said> {
        let words = script::rest(line);
        match script::first(line) {
            b"mailbox" => self.mailbox_line(words.get(1..)?),
            b"record" => recording_line::record(words),
            b"replay" => recording_line::replay(words),
            _ => None,
        }
    }

    fn mailbox_line(&mut self, line: &[u8]) -> Option<Said> {
        let words = script::rest(line);
        match script::first(line) {
            b"new" => self.new(words),
            word @ (b"write" | b"success" | b"failure" | b"change" | b"message") => {
                self.called(word, words)
            }
            _ => None,
        }
    }

    // The new mailbox takes the place of the one before, also where it is refused (29): then there is none.
    fn new(&mut self, words: &[u8]) -> Option<Said> {
        let count = Field::none().next(words, 255).ok()?;
        if !count.is_last(words) {
            return None;
        }
        let fresh = mailbox::fresh(count.byte());
        self.mailbox = fresh.ok();
        Some(match fresh {
            Ok(mailbox) => mailbox_outcome::text(0, mailbox),
            Err(refusal) => Said::nothing().number(u64::from(refusal.number())),
        })
    }

    fn called(&mut self, word: &[u8], words: &[u8]) -> Option<Said> {
        let Some(mailbox) = self.mailbox else {
            return Some(Said::nothing().text(b" no mailbox"));
        };
        if word == b"message".as_slice() {
            return saying::look(words, &mailbox::message_in(mailbox));
        }
        let outcome = mailbox_call::run(word, words, mailbox)?;
        self.mailbox = Some(outcome.mailbox);
        Some(mailbox_outcome::text(outcome.answer.number(), outcome.mailbox))
    }
}
