// A whole session: both starts, and then turns until nothing is on its way.
ghost use Rattle.std.specs.Prelude.{◌≡◌, length, Ok};
ghost use Rattle.basis.specs.Left.{left};
ghost use Rattle.receiver_rules.specs.Session.{receiver_start_of};
ghost use Rattle.line.specs.Line.{Wide};
ghost use Rattle.clean.specs.Run.{clean_run_of, clean_begun_of, clean_carried_of};
ghost use Rattle.clean.specs.On.{On};

use crate::ends::Ends;
use crate::ran::{Ended, NotRun};
use indoor_state::plan::Release;
use receiver_state::session::Receiver;
use wire::codes;
use wire::response::Identity;

// A file of 4,096 blocks, the most that there are, takes 4,100 requests; every session has ended by then.
const TURNS_MOST: u16 = 4100;

// The same limit and resend count for both ends.
pub fn run(
    limit: u16,
    resends: u8,
    identity: Identity,
    release: Release,
    file: &[u8],
    image: &mut [u8],
) -> Result<Ended, NotRun>
    ensures { left result image.new ≡ clean_run_of limit resends identity release file.now image.old }
{
    let started = receiver::start(limit, resends, identity, image.len());
    let receiver = started.map_err(|_| NotRun::Settings)?;
    begin(receiver, limit, resends, release, file, image)
}

// The same settings have made a receiver and the buffer has 260 bytes, so that of 29, 46 and 27 only 46 can be met.
fn begin(
    receiver: Receiver,
    limit: u16,
    resends: u8,
    release: Release,
    file: &[u8],
    image: &mut [u8],
) -> Result<Ended, NotRun>
    requires image_value { receiver_start_of limit resends receiver.identity (length image.old) ≡ Ok receiver }
    requires wide { Wide release receiver.identity }
    ensures { left result image.new ≡ clean_begun_of release receiver.identity file.now image.old }
{
    let mut up = [0u8; codes::LONGEST];
    let started = indoor::start(limit, resends, release, file, &mut up);
    let begun = started.map_err(|_| NotRun::FileSize)?;
    let ends = Ends {
        receiver,
        indoor: begun.session,
        underway: begun.written,
    };
    carry(ends, file, image, &mut up)
}

fn carry(begun: Ends, file: &[u8], image: &mut [u8], up: &mut [u8]) -> Result<Ended, NotRun>
    requires { On file.now image.old begun.indoor.plan.release begun.receiver.identity begun image.old up.old 0 }
    ensures { left result image.new ≡ clean_carried_of begun.indoor.plan.release begun.receiver.identity file.now image.old }
{
    let mut down = [0u8; codes::LONGEST];
    let mut ends = begun;
    for requests in 0..TURNS_MOST {
        if ends.underway == 0 {
            return Ok(ends.ended(requests));
        }
        ends = ends.turn(file, image, up, &mut down);
    }
    Ok(ends.ended(TURNS_MOST))
}
