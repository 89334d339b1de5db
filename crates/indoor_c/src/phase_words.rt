// A phase as words, and back.
ghost use Rattle.std.specs.Prelude.{◌≡◌};
ghost use Rattle.indoor_c.specs.PhaseWords.{indoor_phase_of, indoor_reason_of, is_failed_phase, is_indoor_phase, is_plain_phase, is_transfer_phase, phase_words, phase_words_of};

use crate::words::low;
use indoor_state::phase::{Phase, Progress, Reason};
use numbers::Numbered;
use width::HALF_MOST;

// A field for each word of a phase, by its name in include/harsolvek.h: in an array it would have its place alone.
#[derive(Clone, Copy)]
pub(crate) struct PhaseWords {
    pub phase: u32,
    pub asked: u32,
    pub wait: u32,
    pub emptied: u32,
    pub reason: u32,
}

// A number that a phase does not have is 0.
const IDENTIFIES: PhaseWords = PhaseWords {
    phase: IDENTIFY,
    asked: 0,
    wait: 0,
    emptied: 0,
    reason: 0,
};

const IDENTIFY: u32 = 0;

const INITIATE: u32 = 1;

const TRANSFER: u32 = 2;

pub(crate) const VALIDATE: u32 = 3;

const DONE: u32 = 4;

const FAILED: u32 = 5;

// 40 to 45 (01, Numbers we answer).
const REASON_LEAST: u32 = 40;

const REASON_MOST: u32 = 45;

impl From<Phase> for PhaseWords {
    ghost from_gives = { λ phase words. words ≡ phase_words_of phase };

    #[tactic(auto, unfolding(crate::specs::PhaseWords::phase_words_of))]
    fn from(phase: Phase) -> PhaseWords {
        match phase {
            Phase::Identify => IDENTIFIES,
            Phase::Initiate { wait } => PhaseWords::waiting(INITIATE, wait),
            Phase::Transfer(p) => PhaseWords {
                phase: TRANSFER,
                asked: u32::from(p.asked),
                wait: u32::from(p.wait),
                emptied: u32::from(p.emptied),
                ..IDENTIFIES
            },
            Phase::Validate { wait } => PhaseWords::waiting(VALIDATE, wait),
            Phase::Done => PhaseWords {
                phase: DONE,
                ..IDENTIFIES
            },
            Phase::Failed(reason) => PhaseWords {
                phase: FAILED,
                reason: u32::from(reason.number()),
                ..IDENTIFIES
            },
        }
    }
}

impl PhaseWords {
    // A phase that has a wait and no more.
    fn waiting(phase: u32, wait: u16) -> PhaseWords
        ensures { result ≡ phase_words phase 0 wait 0 0 }
    {
        PhaseWords {
            phase,
            wait: u32::from(wait),
            ..IDENTIFIES
        }
    }

    // A code that is no phase's is read as Identify; `is_phase` is false of it. No TryFrom, since the definition has a phase for every code.
    #[tactic(auto, using(basis::specs::Pick::tests), unfolding(crate::specs::PhaseWords::indoor_phase_of))]
    pub(crate) fn phase(self) -> Phase
        ensures { result ≡ indoor_phase_of self }
    {
        match self.phase {
            INITIATE => Phase::Initiate {
                wait: low(self.wait),
            },
            TRANSFER => Phase::Transfer(Progress {
                asked: low(self.asked),
                wait: low(self.wait),
                emptied: self.emptied == 1,
            }),
            VALIDATE => Phase::Validate {
                wait: low(self.wait),
            },
            DONE => Phase::Done,
            FAILED => Phase::Failed(reason_of(self.reason)),
            _ => Phase::Identify,
        }
    }

    // Whether the words are those of a phase.
    #[tactic(auto, using(basis::specs::Pick::tests), unfolding(crate::specs::PhaseWords::is_indoor_phase))]
    pub(crate) fn is_phase(self) -> bool
        ensures { result ≡ is_indoor_phase self }
    {
        match self.phase {
            TRANSFER => self.is_transfer(),
            FAILED => self.is_failed(),
            _ => self.is_plain(),
        }
    }

    #[tactic(auto, using(basis::specs::Pick::tests), unfolding(crate::specs::PhaseWords::is_transfer_phase))]
    fn is_transfer(self) -> bool
        ensures { result ≡ is_transfer_phase self }
    {
        self.asked <= HALF_MOST && self.wait <= HALF_MOST && self.reason == 0 && self.emptied <= 1
    }

    // Failed keeps nothing but its reason.
    #[tactic(auto, using(basis::specs::Pick::tests), unfolding(crate::specs::PhaseWords::is_failed_phase))]
    fn is_failed(self) -> bool
        ensures { result ≡ is_failed_phase self }
    {
        self.asked == 0
            && self.wait == 0
            && self.emptied == 0
            && REASON_LEAST <= self.reason
            && self.reason <= REASON_MOST
    }

    // The others have a wait, or nothing.
    #[tactic(auto, using(basis::specs::Pick::tests), unfolding(crate::specs::PhaseWords::is_plain_phase))]
    fn is_plain(self) -> bool
        ensures { result ≡ is_plain_phase self }
    {
        if self.asked != 0 || self.emptied != 0 || self.reason != 0 {
            return false;
        }
        match self.phase {
            INITIATE | VALIDATE => self.wait <= HALF_MOST,
            phase => self.wait == 0 && phase <= DONE,
        }
    }
}

// Of other numbers than 40 to 45 there is no reason; `is_phase` is false of them. No TryFrom, as for the phase (`indoor_reason_of`).
#[tactic(auto, using(basis::specs::Pick::tests), unfolding(crate::specs::PhaseWords::indoor_reason_of))]
fn reason_of(number: u32) -> Reason
    ensures { result ≡ indoor_reason_of number }
{
    match number {
        40 => Reason::Silence,
        41 => Reason::Refused,
        42 => Reason::NotNewer,
        43 => Reason::TooLarge,
        44 => Reason::WrongNumber,
        _ => Reason::NotValid,
    }
}
