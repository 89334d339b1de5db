// The record at a place of a recording, for C.
ghost use Rattle.std.specs.Prelude.{◌≡◌};
ghost use Rattle.recording_c.specs.Reads.{numbers, numbers_of, ending_number_of, reading, reading_of, harsolvek_record_read};

use crate::kinds;
use recording::{Ending, Found, Record};

// A record as C has it, struct harsolvek_record.
#[derive(Clone, Copy, Default)]
struct Numbers {
    kind: u32,
    reason: u16,
    connector: u8,
    length: u8,
    control: [u8; 8],
}

#[derive(Clone, Copy)]
struct Reading {
    // enum harsolvek_found
    number: u64,
    numbers: Numbers,
    next: usize,
}

#[unsafe(no_mangle)]
pub extern "C" fn harsolvek_record_read_raw(
    recording: &[u8],
    at: usize,
    kind: &mut u32,
    reason: &mut u16,
    connector: &mut u8,
    length: &mut u8,
    control: &mut [u8; 8],
    next: &mut usize,
) -> u64
    ensures { reading result (numbers kind.new reason.new connector.new length.new control.new) next.new ≡ harsolvek_record_read recording.now at }
{
    let reading = reading_of(recording::next(recording, at), at);
    let numbers = reading.numbers;
    let bytes = numbers.control;
    *kind = numbers.kind;
    *reason = numbers.reason;
    *connector = numbers.connector;
    *length = numbers.length;
    *control = bytes;
    *next = reading.next;
    reading.number
}

// Where no record is found, the next is looked for at the same place.
#[tactic(auto, unfolding(crate::specs::Reads::reading_of))]
fn reading_of(read: Result<Found, Ending>, at: usize) -> Reading
    ensures { result ≡ reading_of at read }
{
    match read {
        Ok(found) => Reading {
            number: 0,
            numbers: numbers_of(found.record),
            next: found.next,
        },
        Err(ending) => Reading {
            number: ending_number(ending),
            numbers: Numbers::default(),
            next: at,
        },
    }
}

// The numbers of enum harsolvek_found, which C reads.
fn ending_number(ending: Ending) -> u64
    ensures { result ≡ ending_number_of ending }
{
    match ending {
        Ending::Whole => 1,
        Ending::Cut => 2,
        Ending::UnknownKind => 3,
    }
}

// What the kind does not have is 0.
#[tactic(auto, unfolding(crate::specs::Reads::numbers_of))]
fn numbers_of(record: Record) -> Numbers
    ensures { result ≡ numbers_of «record» }
{
    match record {
        Record::Control(control) => Numbers {
            kind: kinds::CONTROL,
            control,
            ..Numbers::default()
        },
        Record::Change { connector, reason } => Numbers {
            kind: kinds::CHANGE,
            reason,
            connector,
            ..Numbers::default()
        },
        Record::Success { length } => Numbers {
            kind: kinds::SUCCESS,
            length,
            ..Numbers::default()
        },
        Record::Failure => Numbers {
            kind: kinds::FAILURE,
            ..Numbers::default()
        },
    }
}
