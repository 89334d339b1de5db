// A record written into a lent buffer, for C.
ghost use Rattle.std.specs.Prelude.{◌≡◌};
ghost use Rattle.recording_c.specs.Writes.{wrote, given_of, harsolvek_record_write};

use crate::{BUFFER_SHORT, RECORD_MOST, kinds};
use numbers::Numbered;
use recording::Record;

// A kind that there is not is malformed (01, Numbers we answer). A number, since the call for C answers one.
const MALFORMED: u64 = 20;

#[unsafe(no_mangle)]
#[tactic(auto, using(basis::specs::Pick::tests), unfolding(crate::specs::Writes::harsolvek_record_write))]
pub extern "C" fn harsolvek_record_write_raw(
    kind: u32,
    reason: u16,
    connector: u8,
    length: u8,
    control: &[u8; 8],
    out: &mut [u8],
    written: &mut usize,
) -> u64
    ensures { wrote result written.new out.new ≡ harsolvek_record_write kind reason connector length control.now out.old }
{
    *written = 0;
    if out.len() < RECORD_MOST {
        return BUFFER_SHORT;
    }
    let Some(record) = given_of(kind, reason, connector, length, control) else {
        return MALFORMED;
    };
    let done = recording::write(record, out);
    *written = done.unwrap_or(0);
    u64::from(done.number())
}

// The record that C hands in, if its kind is one.
#[tactic(auto, using(basis::specs::Pick::tests), unfolding(crate::specs::Writes::given_of))]
fn given_of(kind: u32, reason: u16, connector: u8, length: u8, control: &[u8; 8]) -> Option<Record>
    ensures { result ≡ given_of kind reason connector length control.now }
{
    match kind {
        kinds::CONTROL => Some(Record::Control(*control)),
        kinds::CHANGE => Some(Record::Change { connector, reason }),
        kinds::SUCCESS => Some(Record::Success { length }),
        kinds::FAILURE => Some(Record::Failure),
        _ => None,
    }
}
