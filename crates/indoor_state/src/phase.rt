// The indoor end's state (01, The indoor end's phases).
ghost use Rattle.std.specs.Prelude.{◌≡◌};
ghost use Rattle.indoor_state.specs.Phase.{reason_number};

use numbers::Numbered;

// Why it failed: 40 to 45 (01, Numbers we answer).
#[derive(Clone, Copy)]
pub enum Reason {
    Silence,
    Refused,
    NotNewer,
    TooLarge,
    WrongNumber,
    NotValid,
}

impl Numbered for Reason {
    ghost number_of = { reason_number };

    fn number(self) -> u8 {
        match self {
            Reason::Silence => 40,
            Reason::Refused => 41,
            Reason::NotNewer => 42,
            Reason::TooLarge => 43,
            Reason::WrongNumber => 44,
            Reason::NotValid => 45,
        }
    }
}

// The block last asked for, the milliseconds left of the wait before it is sent (0 for no wait, as WaitTime has it), and whether the
// empty block has been sent.
#[derive(Clone, Copy)]
pub struct Progress {
    pub asked: u16,
    pub wait: u16,
    pub emptied: bool,
}

#[derive(Clone, Copy)]
pub enum Phase {
    Identify,
    Initiate { wait: u16 },
    Transfer(Progress),
    Validate { wait: u16 },
    Done,
    Failed(Reason),
}

// What a call may change: `silence` is in milliseconds, and `resends` counts the resends made since the last accepted response.
#[derive(Clone, Copy)]
pub struct State {
    pub phase: Phase,
    pub silence: u16,
    pub resends: u8,
}
