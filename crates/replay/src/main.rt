// Plays the recording on standard input on a mailbox with two connectors, and prints a line for each record (01, Replay program).
#![tactic(auto)]

mod end;
mod progress;
mod say;

ghost use Rattle.std.specs.Prelude.{◌≡◌};
ghost use Rattle.replay.specs.Turns.{status_of, Ran};

use end::{End, end_of};
use progress::Progress;
use std::process::ExitCode;

// As much as is read at once.
const ROOM: usize = 65536;

// Room for the longest line to every byte of the buffer, so that no record waits for room, also where each has one byte.
const LINES: usize = printing::LONGEST * ROOM;

fn main(rt: HostRuntime) -> ExitCode {
    let mut buffer = [0u8; ROOM];
    let mut out = [0u8; LINES];
    let end = replay(&rt, &mut buffer, &mut out);
    say::tell(&rt, end);
    status(end)
}

// A read or a write that failed is a failure's status. Of what is told besides, tools/run makes one.
fn status(end: End) -> ExitCode
    ensures { result.status ≡ status_of end }
{
    match end {
        End::Closed(_) | End::TooManyReads => ExitCode::SUCCESS,
        End::ReadFailed | End::WriteFailed => ExitCode::FAILURE,
    }
}

// A proved loop has to end, and nothing says that a recording does: the turns are counted up to a number that no run comes to, and a run
// that did so would be told.
fn replay(rt: &HostRuntime, buffer: &mut [u8; ROOM], out: &mut [u8; LINES]) -> End
    ensures { Ran result }
{
    let mut progress = Progress::begin();
    for _ in 0..u64::MAX {
        if progress.end.is_some() {
            break;
        }
        progress = progress.turn(rt, buffer, out);
    }
    end_of(progress.end)
}
