// Reads a script of mailboxes and recordings, and prints behind each line what came of it (01, The mailbox; 01, Replay program).
#![tactic(auto)]

mod bench;
mod ending;
mod mailbox_call;
mod mailbox_outcome;
mod played;
mod record;
mod recording_line;
mod streams;

ghost use Rattle.std.specs.Prelude.{◌<◌, ◌≤◌, length, IfOk};

use bench::Bench;
use std::io::{Error, Read};
use std::process::ExitCode;
use streams::{Failed, Streams};

fn main(rt: HostRuntime) -> ExitCode {
    run(&rt)
}

// 0, or 1 where the script cannot be read or a line not be written. What standard error does not take is lost: there is nowhere else to tell it.
fn run(rt: &HostRuntime) -> ExitCode
    ensures { result.status < 2 }
{
    let to = Streams {
        out: rt.stdout(),
        err: rt.stderr(),
    };
    let mut text = [0u8; script::TEXT_ROOM];
    match script_of(
        &mut rt.stdin(),
        &to,
        &mut text,
        &mut Bench { mailbox: None },
    ) {
        Ok(()) => ExitCode::SUCCESS,
        Err(failed) => {
            let _ = eprintln!(rt; "{failed}");
            ExitCode::FAILURE
        }
    }
}

fn script_of(
    from: &mut impl Read,
    to: &Streams<impl Print, impl Print>,
    text: &mut [u8],
    bench: &mut Bench,
) -> Result<(), Failed> {
    let n = fill(from, text).map_err(Failed::Read)?;
    if script::TEXT_MOST < n {
        to.complain(b"no line is run: the script is above 131,071 bytes", b"");
        return Ok(());
    }
    for ended in text[..n].split_inclusive(|c| *c == b'\n') {
        line(to, ended.strip_suffix(b"\n").unwrap_or(ended), bench)?;
    }
    Ok(())
}

// Reads until there is no room or the input ends, and returns how many bytes there are.
fn fill(from: &mut impl Read, text: &mut [u8]) -> Result<usize, Error>
    ensures { IfOk result (λ n. n ≤ length text.new) }
{
    let mut n = 0;
    for _ in 0..u64::MAX {
        let more = from.read(&mut text[n..])?;
        if more == 0 {
            break;
        }
        n += more;
    }
    Ok(n)
}

fn line(
    to: &Streams<impl Print, impl Print>,
    line: &[u8],
    bench: &mut Bench,
) -> Result<(), Failed> {
    if script::asks(line) {
        return to.answered(line, bench.answer(line));
    }
    to.print(line)?;
    to.print(b"\n")
}
