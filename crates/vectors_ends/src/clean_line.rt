// A whole session of both ends over a clean line, on the image and the file that the sessions of one end borrow too.
use crate::{bench, receiver_line, release, session};
use clean::{Ended, NotRun};
use saying::Said;
use script::Field;

// The run gets only the lent parts of the file and the image.
pub(crate) fn answer(words: &[u8], file: &[u8], image: &mut [u8]) -> Option<Said> {
    let limit = Field::none().next(words, 65535).ok()?;
    let resends = limit.next(words, 255).ok()?;
    let capacity = resends.next(words, bench::MEMORY).ok()?;
    let length = capacity.next(words, bench::MEMORY).ok()?;
    let release = release::behind(length, words)?;
    let file = script::upto(file, length.value);
    let room = script::part_of(image, capacity.value);
    let ran = clean::run(
        limit.word(),
        resends.byte(),
        receiver_line::identity(),
        release,
        file,
        &mut image[..room],
    );
    let said = run_text(ran);
    // An image shorter than the file does not begin with it.
    if image[..room].starts_with(file) {
        return Some(said.text(b" : file"));
    }
    Some(said.text(b" : no file"))
}

fn run_text(ran: Result<Ended, NotRun>) -> Said {
    let said = Said::nothing().number(u64::from(clean::number(ran)));
    match ran {
        Err(_) => said,
        Ok(ended) => session::indoor_phase(said.text(b" :"), ended.phase)
            .text(b" :")
            .number(u64::from(ended.requests)),
    }
}
