// What a script's lines work on: the memories that are lent, and both ends.
use crate::clean_line;
use crate::end::End;
use indoor_state::session::Indoor;
use receiver_state::session::Receiver;
use saying::Said;
use wire::codes;

// One byte more than the largest image or file, so that a script can lend too much (01, Sizes and numbers).
pub(crate) const MEMORY: usize = codes::IMAGE_SIZE_MOST + 1;

pub(crate) const BUFFER: usize = script::ROOM;

// Every byte of the image at first, and of the buffer before every call, so that what is written shows.
pub(crate) const UNWRITTEN: u8 = 0xEE;

#[derive(Drop)]
pub(crate) struct Bench<'f, 'i, 'b> {
    pub file: &'f [u8],
    pub image: &'i mut [u8],
    pub buffer: &'b mut [u8],
    pub receiver: End<Receiver>,
    pub indoor: End<Indoor>,
}

impl<'f, 'i, 'b> Bench<'f, 'i, 'b> {
    pub(crate) fn empty(file: &'f [u8], image: &'i mut [u8], buffer: &'b mut [u8]) -> Self {
        Bench {
            file,
            image,
            buffer,
            receiver: End::empty(),
            indoor: End::empty(),
        }
    }

    // None where the line is not understood. A line of one end leaves the other alone.
    pub(crate) fn answer(&mut self, line: &[u8]) -> Option<Said> {
        let words = script::rest(line);
        match script::first(line) {
            b"indoor" => self.indoor_line(words.get(1..)?),
            b"clean" => {
                let file = self.file;
                let image = &mut *self.image;
                clean_line::answer(words, file, image)
            }
            word => self.receiver_line(word, words),
        }
    }
}
