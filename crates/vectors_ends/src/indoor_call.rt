// The indoor end's calls, on the file and the buffer as they are lent: a start, a response, blocks asked for in a row, time. None where the line
// is not understood.
use crate::release;
use indoor_state::session::{Indoor, Outcome, StartRefused, Started};
use script::Field;
use wire::codes;

pub(crate) fn start(
    words: &[u8],
    file: &[u8],
    buffer: &mut [u8],
) -> Option<Result<Started, StartRefused>> {
    let limit = Field::none().next(words, 65535).ok()?;
    let resends = limit.next(words, 255).ok()?;
    let release = release::behind(resends, words)?;
    Some(indoor::start(limit.word(), resends.byte(), release, file, buffer))
}

// The calls that need a session. They get no Bench, of whose memories they borrow a part alone.
pub(crate) fn step(
    word: &[u8],
    words: &[u8],
    indoor: Indoor,
    file: &[u8],
    buffer: &mut [u8],
) -> Option<Outcome> {
    match word {
        b"response" => response(words, indoor, file, buffer),
        b"blocks" => blocks(words, indoor, file, buffer),
        b"time" => time(words, indoor, file, buffer),
        _ => None,
    }
}

fn response(words: &[u8], indoor: Indoor, file: &[u8], buffer: &mut [u8]) -> Option<Outcome> {
    let response = script::spell(words)?;
    Some(indoor::response(indoor, file, response.as_bytes(), buffer))
}

// DATA responses without a wait, which ask for the blocks from the first number to the last. Only the last one's answer is printed.
fn blocks(words: &[u8], indoor: Indoor, file: &[u8], buffer: &mut [u8]) -> Option<Outcome> {
    let first = Field::none().next(words, 65535).ok()?;
    let last = first.next(words, 65535).ok()?;
    if !last.is_last(words) || last.value < first.value {
        return None;
    }
    let mut outcome = ask_for(indoor, first.word(), file, buffer);
    for number in first.word()..last.word() {
        outcome = ask_for(outcome.session, number + 1, file, buffer);
    }
    Some(outcome)
}

fn ask_for(indoor: Indoor, number: u16, file: &[u8], buffer: &mut [u8]) -> Outcome {
    let [low, high] = number.to_le_bytes();
    let mut response = [0u8; codes::DATA_RESPONSE_LENGTH];
    response[0] = codes::VERSION;
    response[1] = codes::DATA_RESPONSE;
    response[5] = low;
    response[6] = high;
    indoor::response(indoor, file, &response, buffer)
}

fn time(words: &[u8], indoor: Indoor, file: &[u8], buffer: &mut [u8]) -> Option<Outcome> {
    let elapsed = Field::none().next(words, 65535).ok()?;
    if !elapsed.is_last(words) {
        return None;
    }
    Some(indoor::time(indoor, file, elapsed.word(), buffer))
}
