// One whole update to watch: the file on standard input goes from the indoor end to the receiver over a line that loses and repeats
// messages by a seed. Arguments: the seed, how many in a hundred are lost and how many repeated, the four versions that the file is offered
// as and the four that the receiver reports, and `quiet` for the result alone.
#![tactic(auto)]

ghost use Rattle.std.specs.Prelude.{◌≤◌, length, IfOk};

mod counts;
mod given;
mod page;
mod phases;
mod report;
mod session;
mod turn;
mod view;
mod words;

use page::{Failed, Streams};
use std::io::{Error, Read};
use std::process::ExitCode;
use wire::codes;

// The largest image memory. The file has one byte more, so that a file that is too long is refused (46) and not cut.
const IMAGE: usize = codes::IMAGE_SIZE_MOST;

const FILE: usize = codes::IMAGE_SIZE_MOST + 1;

fn main(rt: HostRuntime) -> ExitCode {
    let to = Streams {
        out: rt.stdout(),
        err: rt.stderr(),
    };
    let mut file = [0u8; FILE];
    let mut image = [0u8; IMAGE];
    match over(&rt, to, &mut file, &mut image) {
        Ok(()) => ExitCode::SUCCESS,
        Err(Failed) => ExitCode::FAILURE,
    }
}

// The arrays become slices here, where their types give their lengths, so that no proof has to count a million bytes.
fn over(
    rt: &HostRuntime,
    to: Streams,
    file: &mut [u8; FILE],
    image: &mut [u8; IMAGE],
) -> Result<(), Failed> {
    update(rt, to, file, image)
}

fn update(rt: &HostRuntime, to: Streams, file: &mut [u8], image: &mut [u8]) -> Result<(), Failed> {
    let Some(given) = given::arguments(rt) else {
        given::usage(to);
        return Ok(());
    };
    let n = fill(&mut rt.stdin(), file).map_err(|error| to.fails("read", error))?;
    session::start(to, given, &file[..n], image)
}

// Reads until there is no room or the input ends, and returns how many bytes there are. How many reads that takes is not known before.
fn fill(from: &mut impl Read, file: &mut [u8]) -> Result<usize, Error>
    ensures { IfOk result (λ n. n ≤ length file.new) }
{
    let mut n = 0;
    for _ in 0..u64::MAX {
        let more = from.read(&mut file[n..])?;
        if more == 0 {
            break;
        }
        n += more;
    }
    Ok(n)
}
