// The records of a recording for C: read at a place, written into a lent buffer, and the lines that they print (include/harsolvek.h).
#![tactic(auto)]

mod kinds;
mod line_calls;
mod read_call;
mod write_call;

ghost use Rattle.std.specs.Prelude.{◌≡◌};
ghost use Rattle.recording_c.specs.Layout.{harsolvek_recording_layout};

// The bytes of the longest record, CONTROL's (01, Replay program).
pub(crate) const RECORD_MOST: usize = 9;

// 01, Numbers we answer: a buffer that is too short. A number, since a call for C answers one.
pub(crate) const BUFFER_SHORT: u64 = 27;

// The bytes of the longest record. The 1 of the name is raised when a parameter changes, so that a header and an archive which do not
// belong together are not linked.
#[unsafe(no_mangle)]
pub extern "C" fn harsolvek_recording_layout_1() -> u64
    ensures { result ≡ harsolvek_recording_layout }
{
    // There is no From of a usize for a u64.
    RECORD_MOST as u64
}
