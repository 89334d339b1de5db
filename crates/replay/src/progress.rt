// One read after the other: the records that have come are played, their lines written, and what has come of a further one waits.
ghost use Rattle.std.specs.Prelude.{◌⊎◌, ◌≡◌, ◌+◌, ◌<◌, ◌≤◌, length, take, drop, None};
ghost use Rattle.playing.specs.Parts.{unknown_of};
ghost use Rattle.replay.specs.declared.end.End.TheVariants.{Closed, WriteFailed};
ghost use Rattle.replay.specs.Turns.{begins, over_of, held_most, turn_from, Goes, Came, Turned};

use crate::end::End;
use crate::{LINES, ROOM, say};
use mailbox_state::mailbox::Mailbox;
use playing::Stop;
use recording::Ending;
use std::io::Read;

// The first `held` bytes of the buffer are not played yet, and `stop` says why. There is no `end` while the program goes on.
#[derive(Clone, Copy)]
pub(crate) struct Progress {
    pub mailbox: Mailbox,
    pub held: usize,
    pub stop: Stop,
    pub end: Option<End>,
}

impl Progress {
    pub(crate) fn begin() -> Progress
        ensures { result ≡ begins }
    {
        Progress {
            mailbox: playing::begin(),
            held: 0,
            stop: Stop::Ended(Ending::Whole),
            end: None,
        }
    }

    // How much is held is a clause, and no invariant of the type: it holds of a run that goes on alone.
    // Both arrays come beside it in each step, since the contracts say of each what it is left with.
    // One read. There is room for a byte at least, so that where nothing has come the recording is at its end.
    pub(crate) fn turn(
        self,
        rt: &HostRuntime,
        buffer: &mut [u8; ROOM],
        out: &mut [u8; LINES],
    ) -> Progress
        requires held_le_held_most { self.held ≤ held_most }
        ensures held_le_held_most_2 { result.end ≡ None → result.held ≤ held_most }
        ensures turned { Turned (turn_from self buffer.old) out.old result buffer.new out.new }
    {
        let held = self.held;
        let got = read(rt, &mut buffer[held..]);
        self.came(rt, got, buffer, out)
    }

    // The read has brought so many bytes, or has failed.
    #[tactic(auto, using(crate::proofs::Answers::read_nothing))]
    fn came(
        self,
        rt: &HostRuntime,
        got: Option<usize>,
        buffer: &mut [u8; ROOM],
        out: &mut [u8; LINES],
    ) -> Progress
        requires held_in_bounds { self.held < length buffer.old }
        ensures held_le_held_most { result.end ≡ None → result.held ≤ held_most }
        ensures came { Came got self buffer.old out.old result buffer.new out.new }
    {
        match got {
            None => self.over(End::ReadFailed),
            Some(0) => self.closed(rt),
            Some(fresh) => self.played(rt, buffer, fresh.min(ROOM - self.held), out),
        }
    }

    // The bytes that waited and the `fresh` ones behind them are played, and their lines written at once. An unknown kind ends the replay,
    // whatever follows it.
    fn played(
        self,
        rt: &HostRuntime,
        buffer: &mut [u8; ROOM],
        fresh: usize,
        out: &mut [u8; LINES],
    ) -> Progress
        requires fresh_nonzero { 0 < fresh }
        requires fresh_in_bounds { self.held + fresh ≤ length buffer.old }
        ensures held_le_held_most { result.end ≡ None → result.held ≤ held_most }
        ensures goes { Goes (turn_from self buffer.old) (take fresh (drop self.held buffer.old)) out.old result buffer.new out.new }
    {
        // So no record waits for room.
        prove!(printing::LONGEST * buffer.len() <= out.len());
        let mailbox = self.mailbox;
        let filled = self.held + fresh;
        let played = playing::play(mailbox, &buffer[..filled], out);
        let written = played.written;
        let taken = played.taken;
        let stop = played.stop;
        if !say::lines(rt, &out[..written], mailbox, &buffer[..filled]) {
            return self.over(End::WriteFailed);
        }
        buffer.copy_within(taken..filled, 0);
        let next = Progress {
            mailbox: played.mailbox,
            held: filled - taken,
            stop,
            end: None,
        };
        if is_unknown(stop) {
            return next.closed(rt);
        }
        next
    }

    // The last line, if there is one, and no further turn.
    fn closed(self, rt: &HostRuntime) -> Progress
        ensures { (result ≡ over_of self WriteFailed) ⊎ (result ≡ over_of self (Closed self.stop)) }
    {
        let stop = self.stop;
        let line = playing::closing(stop);
        if !say::last(rt, line.text(), stop) {
            return self.over(End::WriteFailed);
        }
        self.over(End::Closed(stop))
    }

    fn over(self, end: End) -> Progress
        ensures { result ≡ over_of self end }
    {
        Progress {
            end: Some(end),
            ..self
        }
    }
}

// How many bytes a read of standard input has put at the start of `into`, or none where it failed, which is told.
fn read(rt: &HostRuntime, into: &mut [u8]) -> Option<usize> {
    match rt.stdin().read(into) {
        Ok(n) => Some(n),
        Err(error) => {
            let _ = eprintln!(rt; "read: {error}");
            None
        }
    }
}

fn is_unknown(stop: Stop) -> bool
    ensures { result ≡ unknown_of stop }
{
    matches!(stop, Stop::Ended(Ending::UnknownKind))
}
