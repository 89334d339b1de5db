// Both starts. The receiver's comes first, and the indoor end's writes the first request.
ghost use Rattle.std.specs.Prelude.{◌≡◌};
ghost use Rattle.basis.specs.Left.{left};
ghost use Rattle.lossy_session.specs.Refusal.{not_started_number_of};
ghost use Rattle.lossy_session.specs.Start.{both_start_of};
ghost use Rattle.lossy_session.specs.declared.start_call.NotStarted.TheVariants.{Roof, Indoors};

use indoor_state::plan::Release;
use indoor_state::session::StartRefused;
use lossy_ends::Ends;
use luck::Way;
use numbers::Numbered;
use silence::OutOfLimits;
use wire::response::Identity;

// An end's silence limit in milliseconds and its resends, not yet tested (29).
#[derive(Clone, Copy)]
pub struct Limits {
    pub silence: u16,
    pub resends: u8,
}

// The start that refused, and why.
#[derive(Clone, Copy)]
pub enum NotStarted {
    Roof(OutOfLimits),
    Indoors(StartRefused),
}

impl From<OutOfLimits> for NotStarted {
    ghost from_gives = { λ refusal refused. refused ≡ Roof refusal };

    fn from(limits: OutOfLimits) -> NotStarted {
        NotStarted::Roof(limits)
    }
}

impl From<StartRefused> for NotStarted {
    ghost from_gives = { λ refusal refused. refused ≡ Indoors refusal };

    fn from(start: StartRefused) -> NotStarted {
        NotStarted::Indoors(start)
    }
}

// 01, Numbers we answer.
impl Numbered for NotStarted {
    ghost number_of = { not_started_number_of };

    fn number(self) -> u8 {
        match self {
            NotStarted::Roof(refusal) => refusal.number(),
            NotStarted::Indoors(refusal) => refusal.number(),
        }
    }
}

// `capacity` is the length of the image memory.
#[tactic(auto, unfolding(crate::specs::Start::both_made_of, crate::specs::Start::joined_of))]
pub fn start(
    roof: Limits,
    indoors: Limits,
    identity: Identity,
    release: Release,
    file: &[u8],
    capacity: usize,
    up: &mut [u8],
) -> Result<Ends, NotStarted>
    ensures { left result up.new ≡ both_start_of roof indoors identity release file.now capacity up.old }
{
    let receiver = receiver::start(roof.silence, roof.resends, identity, capacity)?;
    let begun = indoor::start(indoors.silence, indoors.resends, release, file, up)?;
    Ok(Ends {
        receiver,
        indoor: begun.session,
        up: Way::sent(begun.written),
        down: Way::sent(0),
    })
}
