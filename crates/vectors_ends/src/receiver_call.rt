// The receiver's calls, on the memories as they are lent: a request, whole blocks in a row, time, the sum. None where the line is not understood.
use crate::verdict;
use receiver_state::session::{Outcome, Receiver};
use receiver_state::sum::ImageLength;
use receiver_state::verdict::{Given, Verdict};
use script::Field;
use wire::codes;

// The calls that leave a session. They are not one with those of the indoor end, which borrow other memories, and they get no Bench, of whose
// memories they borrow a part alone.
pub(crate) fn step(
    word: &[u8],
    words: &[u8],
    receiver: Receiver,
    image: &mut [u8],
    buffer: &mut [u8],
) -> Option<Outcome> {
    match word {
        b"ask" => ask(words, receiver, image, buffer),
        b"blocks" => blocks(words, receiver, image, buffer),
        b"time" => time(words, receiver, buffer),
        _ => None,
    }
}

// The readiness wait, the verdict, and then the request's bytes.
fn ask(words: &[u8], receiver: Receiver, image: &mut [u8], buffer: &mut [u8]) -> Option<Outcome> {
    let readiness = Field::none().next(words, 255).ok()?;
    let behind = script::from(words, readiness.end).get(1..)?;
    let given = Given {
        readiness: readiness.byte(),
        verdict: verdict::verdict_of(script::first(behind))?,
    };
    let request = script::spell(script::rest(behind))?;
    Some(receiver::request(receiver, image, request.as_bytes(), given, buffer))
}

// The next whole blocks, as many as the line says. Only the last one's answer is printed.
fn blocks(
    words: &[u8],
    receiver: Receiver,
    image: &mut [u8],
    buffer: &mut [u8],
) -> Option<Outcome> {
    let count = Field::none().next(words, 9999).ok()?;
    if !count.is_last(words) || count.value == 0 {
        return None;
    }
    let mut outcome = block(receiver, image, buffer);
    for _ in 1..count.value {
        outcome = block(outcome.session, image, buffer);
    }
    Some(outcome)
}

// The block that is due. Each of its bytes is the low byte of its number, so that the image shows where each block lies.
fn block(receiver: Receiver, image: &mut [u8], buffer: &mut [u8]) -> Outcome {
    let [low, high] = receiver_decide::accepted(receiver.phase)
        .blocks
        .to_le_bytes();
    let mut request = [low; 260];
    request[..codes::DATA_HEAD].copy_from_slice(&[codes::VERSION, codes::DATA, low, high]);
    let given = Given {
        readiness: 0,
        verdict: Verdict::Good,
    };
    receiver::request(receiver, image, &request, given, buffer)
}

fn time(words: &[u8], receiver: Receiver, buffer: &mut [u8]) -> Option<Outcome> {
    let elapsed = Field::none().next(words, 65535).ok()?;
    if !elapsed.is_last(words) {
        return None;
    }
    Some(receiver::time(receiver, elapsed.word(), buffer))
}

pub(crate) fn sum(
    words: &[u8],
    receiver: Receiver,
    image: &[u8],
) -> Option<Result<u16, ImageLength>> {
    if !words.is_empty() {
        return None;
    }
    Some(receiver::sum(receiver, image))
}
