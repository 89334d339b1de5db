// A line of a session of the receiver (01, The receiver's phases).
use crate::bench::{Bench, UNWRITTEN};
use crate::end::{End, Lent};
use crate::receiver_call;
use crate::session::Session;
use numbers::Numbered;
use receiver_state::sum::ImageLength;
use saying::Said;
use script::Field;
use wire::codes;
use wire::request::Versions;
use wire::response::Identity;

impl Bench<'_, '_, '_> {
    pub(crate) fn receiver_line(&mut self, word: &[u8], words: &[u8]) -> Option<Said> {
        match word {
            b"start" => self.start_receiver(words),
            b"ask" | b"blocks" | b"time" | b"sum" => self.call_receiver(word, words),
            b"lend" => self.receiver.lend(words),
            b"image" => saying::look(words, self.image),
            b"buffer" => saying::look(words, self.buffer),
            _ => None,
        }
    }

    // A start ends the session before it, also where it is refused (29): then there is no session.
    fn start_receiver(&mut self, words: &[u8]) -> Option<Said> {
        let limit = Field::none().next(words, 65535).ok()?;
        let resends = limit.next(words, 255).ok()?;
        let capacity = resends.next(words, 9999999).ok()?;
        if !capacity.is_last(words) {
            return None;
        }
        let started = receiver::start(limit.word(), resends.byte(), identity(), capacity.value);
        self.receiver = End {
            session: started.ok(),
            lent: Lent {
                memory: capacity.value,
                buffer: codes::LONGEST,
            },
        };
        let said = Said::nothing().number(u64::from(started.number()));
        Some(match started {
            Ok(session) => session.state(said.text(b" :")),
            Err(_) => said,
        })
    }

    // The call gets only the lent parts of the image and the buffer.
    fn call_receiver(&mut self, word: &[u8], words: &[u8]) -> Option<Said> {
        let Some(receiver) = self.receiver.session else {
            return Some(Said::nothing().text(b" no session"));
        };
        self.buffer.fill(UNWRITTEN);
        let lent = self.receiver.lent;
        let image = &mut *self.image;
        let buffer = &mut *self.buffer;
        let capacity = script::part_of(image, lent.memory);
        let room = script::part_of(buffer, lent.buffer);
        if word == b"sum".as_slice() {
            return receiver_call::sum(words, receiver, &image[..capacity]).map(sum_text);
        }
        let outcome = receiver_call::step(
            word,
            words,
            receiver,
            &mut image[..capacity],
            &mut buffer[..room],
        )?;
        Some(self.receiver.ended(outcome, buffer))
    }
}

// Every bit that 001 T5-18 calls reserved is set, so that a GET_FW_ID response shows them cleared.
pub(crate) fn identity() -> Identity {
    Identity {
        vendor: 0x1234,
        product: 0xABCD,
        hardware: 0x56,
        silicon: 0xFF,
        versions: Versions {
            first: 0x0102,
            second: 0x0304,
            third: 0x0506,
            fourth: 0x0708,
        },
        bank: 0x09,
        flags1: 0xFF,
        flags2: 0xFF,
        flags3: 0xFF,
        flags4: 0xFF,
    }
}

fn sum_text(summed: Result<u16, ImageLength>) -> Said {
    let said = Said::nothing().number(u64::from(summed.number()));
    match summed {
        Ok(sum) => said.text(b" :").number(u64::from(sum)),
        Err(_) => said,
    }
}
