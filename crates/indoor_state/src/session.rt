// A session of the indoor end: what it was started with, its state, and what a call returns.
ghost use Rattle.std.specs.Prelude.{◌≡◌};
ghost use Rattle.indoor_state.specs.Session.{indoor_refused_number_of};
ghost use Rattle.indoor_state.specs.declared.session.StartRefused.TheVariants.{Settings};

use crate::answer::Answer;
use crate::phase::State;
use crate::plan::Plan;
use numbers::Numbered;
use silence::OutOfLimits;

#[derive(Clone, Copy)]
pub struct Indoor {
    pub plan: Plan,
    pub state: State,
}

// `written` is how many bytes of the output buffer the first request took.
#[derive(Clone, Copy)]
pub struct Started {
    pub session: Indoor,
    pub written: usize,
}

// Why no session is made.
#[derive(Clone, Copy)]
pub enum StartRefused {
    Settings,
    FileSize,
    BufferShort,
}

impl From<OutOfLimits> for StartRefused {
    ghost from_gives = { λ _ refused. refused ≡ Settings };

    fn from(_refusal: OutOfLimits) -> StartRefused {
        Self::Settings
    }
}

impl Numbered for StartRefused {
    ghost number_of = { indoor_refused_number_of };

    fn number(self) -> u8 {
        match self {
            StartRefused::Settings => 29,
            StartRefused::FileSize => 46,
            StartRefused::BufferShort => 27,
        }
    }
}

// What a response and a time call return.
pub type Outcome = lent::Outcome<Indoor, Answer>;
