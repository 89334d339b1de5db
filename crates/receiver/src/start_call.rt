// A session's start. It borrows nothing (01, Numbers we answer: 29).
ghost use Rattle.std.specs.Prelude.{◌≡◌};
ghost use Rattle.receiver_rules.specs.Session.{receiver_start_of};

use receiver_state::phase::Phase;
use receiver_state::session::Receiver;
use silence::{OutOfLimits, Settings};
use wire::codes;
use wire::response::Identity;

// From plain numbers, so that a session that is made here has settings that were tested.
#[tactic(auto, using(basis::specs::Pick::tests), unfolding(receiver_rules::specs::Session::receiver_start_of, receiver_rules::specs::Session::receiver_fresh_of))]
pub fn start(
    limit: u16,
    resends: u8,
    identity: Identity,
    capacity: usize,
) -> Result<Receiver, OutOfLimits>
    ensures { result ≡ receiver_start_of limit resends identity capacity }
{
    if codes::IMAGE_SIZE_MOST < capacity {
        return Err(OutOfLimits);
    }
    let settings = Settings::new(limit, resends)?;
    Ok(Receiver {
        settings,
        identity,
        capacity: capacity as u32,
        phase: Phase::Idle,
        silence: 0,
        resends: 0,
    })
}
