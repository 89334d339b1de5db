// One turn: at most one message arrives or is lost, and then time passes at both ends.
ghost use Rattle.std.specs.Prelude.{◌≡◌};
ghost use Rattle.lossy_ends.specs.Over.{Over};

use crate::counts::Counts;
use crate::page::{Failed, Line};
use crate::phases::{IndoorEnd, Stands};
use crate::view::{self, View};
use crate::{phases, words};
use lossy::Carried;
use lossy_ends::Ends;
use lossy_session::Passed;
use luck::{Going, Lost, Luck};
use wire::codes;

// The milliseconds of a turn.
const TICK: u16 = 10;

// The milliseconds that these turns take.
pub(crate) fn clock(turns: u32) -> u64 {
    u64::from(turns) * u64::from(TICK)
}

// A session between two turns: both ends, the memory that is lent to them, what was counted, and the generator for the next message. That
// its ends are over the line is no ghost field, which Rattle does not have beside a field that is a `&mut`: each contract says it.
#[derive(Drop)]
pub(crate) struct Session<'a> {
    pub ends: Ends,
    pub file: &'a [u8],
    pub image: &'a mut [u8],
    pub up: [u8; codes::LONGEST],
    pub down: [u8; codes::LONGEST],
    pub counts: Counts,
    pub luck: Luck,
}

impl Session<'_> {
    // The message is printed before time passes, since an end may then write another one into its buffer. A line that cannot be written keeps
    // nothing back that the turn does.
    pub(crate) fn step(&mut self, view: View) -> Result<(), Failed>
        requires { Over self.old.file.now self.old.ends self.old.image.now self.old.up self.old.down }
        ensures over { Over self.old.file.now self.new.ends self.new.image.now self.new.up self.new.down }
        ensures file { self.new.file ≡ self.old.file }
    {
        let carried = lossy::carry(
            self.ends,
            self.luck,
            self.file,
            self.image,
            &mut self.up,
            &mut self.down,
        );
        let told = message(carried, view, &self.up, &self.down);
        let passed = lossy_session::pass(
            carried.ends,
            TICK,
            self.file,
            &mut self.up,
            &mut self.down,
        );
        let silent = silence(carried.ends, passed, view);
        self.ends = passed.ends;
        self.counts = self
            .counts
            .carried(carried.going, carried.went)
            .above(passed.above)
            .below(passed.below);
        self.luck = carried.going.luck;
        told.and(silent)
    }

    // The indoor end is done or has failed, and no ABORT is on its way.
    pub(crate) fn rests(&self) -> bool {
        phases::ended(self.ends.indoor.state.phase) && self.ends.up.bytes == 0
    }
}

// A line with the message that went, and what became of it.
fn message(carried: Carried, view: View, up: &[u8], down: &[u8]) -> Result<(), Failed> {
    let Some(arrived) = carried.went else {
        return Ok(());
    };
    if view.quiet {
        return Ok(());
    }
    let going = carried.going;
    let mut line = view.line(way(going));
    worded(&mut line, going, up, down);
    line.column(view::ANSWER);
    match arrived {
        Err(Lost) => line.add("lost"),
        Ok(answered) => {
            line.add(answered.number);
            line.column(view::PHASE);
            stands(&mut line, going.rises, carried.ends, view.blocks);
        }
    }
    view.print(line)
}

// The end that answered, and its phase.
fn stands(line: &mut Line, rises: bool, ends: Ends, blocks: u64) {
    if rises {
        let phase = ends.receiver.phase;
        return line.add(Stands { phase, blocks });
    }
    line.add(IndoorEnd(ends.indoor.state.phase))
}

fn way(going: Going) -> &'static str {
    match (going.rises, going.way.again) {
        (true, false) => "up",
        (true, true) => "up again",
        (false, false) => "down",
        (false, true) => "down again",
    }
}

// The message that went, in a few words.
fn worded(line: &mut Line, going: Going, up: &[u8], down: &[u8]) {
    if going.rises {
        let asked = reading::read_request(going.way.message(up));
        return line.add(words::Asked(asked));
    }
    let told = reading::read_response(going.way.message(down));
    line.add(words::Told(told))
}

// Prints what silence made the ends do.
fn silence(before: Ends, passed: Passed, view: View) -> Result<(), Failed> {
    let was_idle = phases::idle(before.receiver.phase);
    let is_idle = phases::idle(passed.ends.receiver.phase);
    let above = if !was_idle && is_idle {
        view.silence("the receiver gives up and is Idle")
    } else if passed.above.sent {
        view.silence("the receiver sends again")
    } else {
        Ok(())
    };
    // Time answers 0 or 40, and ABORT goes out with 40 (01, Numbers we answer).
    let below = if passed.below.number != 0 {
        view.silence("the indoor end gives up and sends ABORT: 40")
    } else if passed.below.sent {
        view.silence("the indoor end sends again")
    } else {
        Ok(())
    };
    above.and(below)
}
