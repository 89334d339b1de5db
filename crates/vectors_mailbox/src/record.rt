// A record that is read at a place of a recording, and written again (01, Replay program).
use crate::ending;
use numbers::Numbered;
use recording::{Found, Record};
use saying::Said;

pub(crate) fn show(recording: &[u8], at: usize, buffer: &mut [u8]) -> Said {
    match recording::next(recording, at) {
        Err(ending) => ending::add(Said::nothing(), ending),
        Ok(Found { record, next }) => {
            let said = read_text(record).text(b" :").number(next as u64);
            write(said, record, buffer)
        }
    }
}

fn read_text(record: Record) -> Said {
    let said = Said::nothing();
    match record {
        Record::Control(control) => said.text(b" Control").all(&control),
        Record::Change { connector, reason } => said
            .text(b" Change")
            .number(u64::from(connector))
            .number(u64::from(reason)),
        Record::Success { length } => said.text(b" Success").number(u64::from(length)),
        Record::Failure => said.text(b" Failure"),
    }
}

// All of the room is printed, so that a byte which is not written shows too.
fn write(said: Said, record: Record, buffer: &mut [u8]) -> Said {
    let written = recording::write(record, buffer);
    said.text(b" :")
        .number(u64::from(written.number()))
        .text(b" :")
        .shown(buffer)
}
