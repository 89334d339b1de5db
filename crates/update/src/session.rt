// A whole session: both starts, and then turns until the indoor end is done or has failed.
ghost use Rattle.std.specs.Prelude.{◌≡◌};
ghost use Rattle.lossy_ends.specs.Over.{Over};

use crate::counts::Counts;
use crate::given::Given;
use crate::page::{Failed, Streams};
use crate::turn::Session;
use crate::view::View;
use crate::{report, turn};
use lossy_session::Limits;
use wire::codes;

// Both bounds of docs/HAZARDS.md, part 6: the receiver's limit and a round trip are below the indoor end's limit, since the receiver alone
// heals a loss in Transfer, and with its ten resends it is in Await for 2,200 ms, so still there for a VALIDATE that is sent again.
const ROOF: Limits = Limits {
    silence: 200,
    resends: 10,
};

const INDOORS: Limits = Limits {
    silence: 1000,
    resends: 10,
};

// Far above what a session takes: a silent line fails it, and the largest file has 4,096 blocks.
const TURNS_MOST: u32 = 10000000;

// Returns how many turns were taken.
fn carry(session: &mut Session, start_view: View) -> Result<u32, Failed>
    requires { Over session.old.file.now session.old.ends session.old.image.now session.old.up session.old.down }
    ensures over { Over session.old.file.now session.new.ends session.new.image.now session.new.up session.new.down }
    ensures file { session.new.file ≡ session.old.file }
{
    start_view.heading()?;
    let mut turns = 0;
    for turn in 1..=TURNS_MOST {
        if session.rests() {
            break;
        }
        session.step(start_view.at(turn::clock(turn)))?;
        turns = turn;
    }
    Ok(turns)
}

// The file goes to a receiver with this identity, offered as this release.
pub(crate) fn start(
    to: Streams,
    given: Given,
    file: &[u8],
    image: &mut [u8],
) -> Result<(), Failed> {
    let mut up = [0u8; codes::LONGEST];
    let started = lossy_session::start(
        ROOF,
        INDOORS,
        given.identity,
        given.release,
        file,
        image.len(),
        &mut up,
    );
    let ends = match started {
        Ok(ends) => ends,
        Err(refusal) => {
            report::refused(to, refusal);
            return Ok(());
        }
    };
    let session = Session {
        ends,
        file,
        image,
        up,
        down: [0u8; codes::LONGEST],
        counts: Counts::first(),
        luck: given.luck,
    };
    run(to, given.quiet, session)
}

// There is no From of a usize for a u64.
fn run(to: Streams, quiet: bool, mut session: Session) -> Result<(), Failed>
    requires { Over session.file.now session.ends session.image.now session.up session.down }
{
    let view = View {
        to,
        quiet,
        clock: 0,
        blocks: image::blocks_in(session.file.len()) as u64,
    };
    let turns = carry(&mut session, view)?;
    report::ended(to, session, turns)
}
