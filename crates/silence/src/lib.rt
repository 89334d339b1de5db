// The silence limit and the resend count of a session, and the one expiry rule of both ends (01, Sizes and numbers).
#![tactic(auto)]

ghost use Rattle.std.specs.Prelude.{◌≡◌};
ghost use Rattle.silence.specs.Settings.{settings_of, limits_number_of};
ghost use Rattle.silence.specs.Expiry.{grown_of};

use numbers::Numbered;

// The limit in milliseconds, and how often a message may be sent again (001 T5-30, T5-31, T6-1).
#[derive(Clone, Copy)]
pub struct Settings {
    pub limit: u16,
    pub resends: u8,
}

// Numbers of a start that are outside their limits (01, Sizes and numbers).
#[derive(Clone, Copy)]
pub struct OutOfLimits;

impl Settings {
    pub const LIMIT_LEAST: u16 = 1;

    pub const LIMIT_MOST: u16 = 10000;

    pub const RESENDS_MOST: u8 = 10;

    #[tactic(auto, using(basis::specs::Pick::tests), unfolding(crate::specs::Settings::settings_of))]
    pub fn new(limit: u16, resends: u8) -> Result<Settings, OutOfLimits>
        ensures { result ≡ settings_of limit resends }
    {
        if limit < Settings::LIMIT_LEAST {
            return Err(OutOfLimits);
        }
        if Settings::LIMIT_MOST < limit {
            return Err(OutOfLimits);
        }
        if Settings::RESENDS_MOST < resends {
            return Err(OutOfLimits);
        }
        Ok(Settings { limit, resends })
    }
}

// 01, Numbers we answer.
impl Numbered for OutOfLimits {
    ghost number_of = { limits_number_of };

    fn number(self) -> u8 {
        29
    }
}

#[derive(Clone, Copy)]
pub enum Event {
    Quiet,
    Resend,
    NoneLeft,
}

// The silence and the resends made after a call's elapsed time, and what happened in it.
#[derive(Clone, Copy)]
pub struct Grown {
    pub silence: u16,
    pub resends: u8,
    pub event: Event,
}

// The sum is taken in a wider type, so that no silence and no elapsed time can wrap. Below the limit it has 16 bits, so that its cast loses
// nothing.
#[tactic(auto, using(basis::specs::Pick::tests), unfolding(crate::specs::Expiry::grown_of))]
pub fn grow(silence: u16, elapsed: u16, resends: u8, settings: Settings) -> Grown
    ensures { result ≡ grown_of silence elapsed resends settings }
{
    let sum = u32::from(silence) + u32::from(elapsed);
    if sum < u32::from(settings.limit) {
        return Grown {
            silence: sum as u16,
            resends,
            event: Event::Quiet,
        };
    }
    if resends < settings.resends {
        return Grown {
            silence: 0,
            resends: resends + 1,
            event: Event::Resend,
        };
    }
    Grown {
        silence: 0,
        resends,
        event: Event::NoneLeft,
    }
}
