// A session's start (01, Numbers we answer: 29, 46, 27).
ghost use Rattle.std.specs.Prelude.{◌≡◌, Ok};
ghost use Rattle.basis.specs.Left.{left};
ghost use Rattle.indoor_rules.specs.Start.{indoor_begun, indoor_start_of};

use crate::send::{Front, message};
use indoor_state::phase::{Phase, State};
use indoor_state::plan::{Plan, Release};
use indoor_state::session::{Indoor, StartRefused, Started};
use silence::Settings;
use wire::codes;
use wire::request::Request;

// From plain numbers, so that a session that is made here has settings that were tested. It writes GET_FW_ID.
#[tactic(auto, using(basis::specs::Pick::tests), unfolding(indoor_rules::specs::Start::indoor_started_of, indoor_rules::specs::Start::indoor_begin_of))]
pub fn start(
    limit: u16,
    resends: u8,
    release: Release,
    file: &[u8],
    out: &mut [u8],
) -> Result<Started, StartRefused>
    ensures { left result out.new ≡ indoor_start_of limit resends release file.now out.old }
{
    let settings = Settings::new(limit, resends)?;
    let length = file.len();
    if length == 0 || codes::IMAGE_SIZE_MOST < length {
        return Err(StartRefused::FileSize);
    }
    let Some(front) = out.first_chunk_mut::<{ codes::LONGEST }>() else {
        return Err(StartRefused::BufferShort);
    };
    let plan = Plan {
        settings,
        release,
        length: length as u32,
    };
    Ok(begun(plan, front))
}

fn begun(plan: Plan, out: &mut Front) -> Started
    ensures { left (Ok result) out.new ≡ indoor_begun plan out.old }
{
    let state = State {
        phase: Phase::Identify,
        silence: 0,
        resends: 0,
    };
    let written = message(Request::GetFwId, out);
    Started {
        session: Indoor { plan, state },
        written,
    }
}
