// The record at a place of a recording.
ghost use Rattle.std.specs.Prelude.{◌≡◌};
ghost use Rattle.recording.specs.Reading.{next_record_of};

use crate::kinds;
use crate::record::Record;

// The record after it begins at `next`.
#[derive(Clone, Copy, Debug, PartialEq, Eq)]
pub struct Found {
    pub record: Record,
    pub next: usize,
}

// Why no record is found.
#[derive(Clone, Copy, Debug, PartialEq, Eq)]
pub enum Ending {
    // The recording ends here, after a whole record.
    Whole,
    // The recording ends within a record of a known kind.
    Cut,
    UnknownKind,
}

pub fn next(recording: &[u8], at: usize) -> Result<Found, Ending>
    ensures { result ≡ next_record_of recording.now at }
{
    let Some(rest) = recording.get(at..) else {
        return Err(Ending::Whole);
    };
    let first = first(rest)?;
    Ok(Found {
        next: at + first.next,
        ..first
    })
}

// The record at the start. A reason goes low byte first (01, Sizes and numbers).
#[tactic(auto, using(basis::specs::Pick::tests), unfolding(crate::specs::Reading::next_record_of))]
fn first(recording: &[u8]) -> Result<Found, Ending>
    ensures { result ≡ next_record_of recording.now 0 }
{
    let (record, next) = match *recording {
        [] => return Err(Ending::Whole),
        [kinds::CONTROL, a, b, c, d, e, f, g, h, ..] => {
            (
                Record::Control([a, b, c, d, e, f, g, h]),
                kinds::CONTROL_SIZE,
            )
        }
        [kinds::CHANGE, connector, low, high, ..] => {
            let reason = u16::from_le_bytes([low, high]);
            (Record::Change { connector, reason }, kinds::CHANGE_SIZE)
        }
        [kinds::SUCCESS, length, ..] => (Record::Success { length }, kinds::SUCCESS_SIZE),
        [kinds::FAILURE, ..] => (Record::Failure, kinds::FAILURE_SIZE),
        [kinds::CONTROL | kinds::CHANGE | kinds::SUCCESS, ..] => return Err(Ending::Cut),
        _ => return Err(Ending::UnknownKind),
    };
    Ok(Found { record, next })
}
