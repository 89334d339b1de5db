// The result of a session.
ghost use Rattle.std.specs.Prelude.{◌≡◌};
ghost use Rattle.clean.specs.Run.{ended_number_of, not_run_number_of, clean_number_of};

use indoor_state::phase::Phase;
use numbers::Numbered;

// The indoor end's phase once nothing is on its way, and how many requests were sent.
#[derive(Clone, Copy)]
pub struct Ended {
    pub phase: Phase,
    pub requests: u16,
}

// Which start was refused: for its settings (29) or for the file's size (46).
#[derive(Clone, Copy)]
pub enum NotRun {
    Settings,
    FileSize,
}

// 01, Numbers we answer. A session that ends has the number of its phase, which is 0 but where the indoor end failed.
impl Numbered for Ended {
    ghost number_of = { ended_number_of };

    fn number(self) -> u8 {
        match self.phase {
            Phase::Failed(reason) => reason.number(),
            _ => 0,
        }
    }
}

impl Numbered for NotRun {
    ghost number_of = { not_run_number_of };

    fn number(self) -> u8 {
        match self {
            NotRun::Settings => 29,
            NotRun::FileSize => 46,
        }
    }
}

// The number of a session that was run or not. A Result's own number would be 0 of every one that was run, also where the indoor end failed.
pub fn number(ran: Result<Ended, NotRun>) -> u8
    ensures { result ≡ clean_number_of ran }
{
    match ran {
        Ok(ended) => ended.number(),
        Err(refusal) => refusal.number(),
    }
}
