// What a phase has accepted (01, The receiver's phases).
ghost use Rattle.std.specs.Prelude.{◌≡◌};
ghost use Rattle.receiver_state.specs.Phase.{nothing_accepted, accepted_of};

use receiver_state::phase::{Accepted, Phase};

pub fn nothing_accepted() -> Accepted
    ensures { result ≡ nothing_accepted }
{
    Accepted {
        blocks: 0,
        bytes: 0,
    }
}

// Idle holds no counts: going there sets accepted to zero.
pub fn accepted(phase: Phase) -> Accepted
    ensures { result ≡ accepted_of phase }
{
    match phase {
        Phase::Idle => nothing_accepted(),
        Phase::Transfer(p) => p.accepted,
        Phase::Await(a) | Phase::Good(a) => a,
    }
}
