// Reads a script of sessions of the receiver, of the indoor end and of both, and prints after each line what its call answered and left
// (01, The receiver's phases; 01, The indoor end's phases).
#![tactic(auto)]

mod bench;
mod clean_line;
mod end;
mod file;
mod indoor_call;
mod indoor_line;
mod receiver_call;
mod receiver_line;
mod release;
mod session;
mod streams;
mod verdict;

ghost use Rattle.std.specs.Prelude.{◌<◌, ◌≤◌, length, IfOk};

use bench::{BUFFER, Bench, MEMORY, UNWRITTEN};
use std::io::{Error, Read};
use std::process::ExitCode;
use streams::{Failed, Streams};

fn main(rt: HostRuntime) -> ExitCode {
    let mut file = [UNWRITTEN; MEMORY];
    let mut image = [UNWRITTEN; MEMORY];
    let mut buffer = [UNWRITTEN; BUFFER];
    over(&rt, &mut file, &mut image, &mut buffer)
}

// The arrays become slices here, where their types give their lengths, so that no proof has to count a million bytes.
fn over(
    rt: &HostRuntime,
    file: &mut [u8; MEMORY],
    image: &mut [u8; MEMORY],
    buffer: &mut [u8; BUFFER],
) -> ExitCode
    ensures { result.status < 2 }
{
    file::fill(file);
    run(rt, &mut Bench::empty(file, image, buffer))
}

// 0, or 1 where the script cannot be read or a line not be written. What standard error does not take is lost: there is nowhere else to tell it.
fn run(rt: &HostRuntime, bench: &mut Bench<'_, '_, '_>) -> ExitCode
    ensures { result.status < 2 }
{
    let to = Streams {
        out: rt.stdout(),
        err: rt.stderr(),
    };
    let mut text = [0u8; script::TEXT_ROOM];
    match script_of(&mut rt.stdin(), &to, &mut text, bench) {
        Ok(()) => ExitCode::SUCCESS,
        Err(failed) => {
            let _ = eprintln!(rt; "{failed}");
            ExitCode::FAILURE
        }
    }
}

fn script_of(
    from: &mut impl Read,
    to: &Streams<impl Print, impl Print>,
    text: &mut [u8],
    bench: &mut Bench<'_, '_, '_>,
) -> Result<(), Failed> {
    let n = fill(from, text).map_err(Failed::Read)?;
    if script::TEXT_MOST < n {
        to.complain(b"no line is run: the script is above 131,071 bytes", b"");
        return Ok(());
    }
    for ended in text[..n].split_inclusive(|c| *c == b'\n') {
        line(to, ended.strip_suffix(b"\n").unwrap_or(ended), bench)?;
    }
    Ok(())
}

// Reads until there is no room or the input ends, and returns how many bytes there are.
fn fill(from: &mut impl Read, text: &mut [u8]) -> Result<usize, Error>
    ensures { IfOk result (λ n. n ≤ length text.new) }
{
    let mut n = 0;
    for _ in 0..u64::MAX {
        let more = from.read(&mut text[n..])?;
        if more == 0 {
            break;
        }
        n += more;
    }
    Ok(n)
}

fn line(
    to: &Streams<impl Print, impl Print>,
    line: &[u8],
    bench: &mut Bench<'_, '_, '_>,
) -> Result<(), Failed> {
    if script::asks(line) {
        return to.answered(line, bench.answer(line));
    }
    to.print(line)?;
    to.print(b"\n")
}
