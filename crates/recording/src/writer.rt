// A record written into a lent buffer.
ghost use Rattle.std.specs.Prelude.{◌≡◌};
ghost use Rattle.basis.specs.Left.{left};
ghost use Rattle.recording.specs.Writing.{record_write_of, fitted_of, too_short_number_of};

use crate::kinds;
use crate::record::Record;
use numbers::Numbered;

// 01, Numbers we answer: below 9 bytes no record is written, also one that would fit.
const ROOM_LEAST: usize = kinds::CONTROL_SIZE;

// The buffer is too short, and nothing is written.
#[derive(Clone, Copy, Debug, PartialEq, Eq)]
pub struct TooShort;

impl Numbered for TooShort {
    ghost number_of = { too_short_number_of };

    fn number(self) -> u8 {
        27
    }
}

// How many bytes were written, at the buffer's start.
#[tactic(auto, using(basis::specs::Pick::tests), unfolding(crate::specs::Writing::record_write_of, crate::specs::Writing::record_bytes_of))]
pub fn write(record: Record, out: &mut [u8]) -> Result<usize, TooShort>
    ensures { left result out.new ≡ record_write_of «record» out.old }
{
    if out.len() < ROOM_LEAST {
        return Err(TooShort);
    }
    match record {
        Record::Control(control) => {
            let [a, b, c, d, e, f, g, h] = control;
            fit([kinds::CONTROL, a, b, c, d, e, f, g, h], out)
        }
        Record::Change { connector, reason } => {
            let [low, high] = reason.to_le_bytes();
            fit([kinds::CHANGE, connector, low, high], out)
        }
        Record::Success { length } => fit([kinds::SUCCESS, length], out),
        Record::Failure => fit([kinds::FAILURE], out),
    }
}

#[tactic(auto, using(basis::specs::Pick::tests), unfolding(crate::specs::Writing::fitted_of))]
fn fit<const N: usize>(bytes: [u8; N], out: &mut [u8]) -> Result<usize, TooShort>
    ensures { left result out.new ≡ fitted_of bytes.entry out.old }
{
    let Some(room) = out.first_chunk_mut::<N>() else {
        return Err(TooShort);
    };
    *room = bytes;
    Ok(N)
}
