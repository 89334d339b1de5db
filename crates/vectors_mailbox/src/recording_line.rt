// Lines of a recording: their numbers, and then its bytes (01, Replay program).
use crate::{played, record};
use saying::Said;
use script::{Field, Spelled};

// What the lent memory holds before a call, so that what is written shows.
const UNWRITTEN: u8 = 0xEE;

// Enough for the longest recording that a line spells: 319 records, each with a line of 11 bytes, as every answer is one digit.
const OUTPUT: usize = 4000;

// Far behind every recording that a line spells.
const PLACE_MOST: usize = 1048576;

// The record at a place is read. The numbers are the place, and the room for the record that is written.
pub(crate) fn record(words: &[u8]) -> Option<Said> {
    let place = Field::none().next(words, PLACE_MOST).ok()?;
    let room = place.next(words, script::ROOM).ok()?;
    let recording = recording_behind(room, words)?;
    let mut output = [UNWRITTEN; script::ROOM];
    let lent = script::part_of(&output, room.value);
    Some(record::show(recording.as_bytes(), place.value, &mut output[..lent]))
}

// All records are played. The number is the room for the lines that are printed.
pub(crate) fn replay(words: &[u8]) -> Option<Said> {
    let room = Field::none().next(words, OUTPUT).ok()?;
    let recording = recording_behind(room, words)?;
    let mut output = [UNWRITTEN; OUTPUT];
    let lent = script::part_of(&output, room.value);
    Some(played::show(recording.as_bytes(), &mut output[..lent]))
}

// The bytes come after the room, which is the last of the numbers. A recording that fills the room of a line may be cut, and a part of it is
// not played for the whole.
fn recording_behind(room: Field, words: &[u8]) -> Option<Spelled> {
    let spelled = script::spell(script::from(words, room.end))?;
    if script::ROOM <= spelled.len {
        return None;
    }
    Some(spelled)
}
