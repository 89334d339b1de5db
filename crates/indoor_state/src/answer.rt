// What a call of the indoor end answers: document 01's number, and the request that goes out with it.
ghost use Rattle.std.specs.Prelude.{◌≡◌};
ghost use Rattle.indoor_state.specs.Answer.{indoor_number_of, aborts_of, sends_of};

use crate::phase::Reason;
use numbers::Numbered;

// One enum for 0 and for what is refused, and no Result: with each comes the session after the call (`Outcome`), which 40 to 45 change as a 0
// does.
#[derive(Clone, Copy)]
pub enum Answer {
    // 0, by the request that goes out.
    Identifying,
    Initiating,
    Sending { number: u16 },
    Validating,
    // 0, and none goes out: a wait begins, the update is done, time passed.
    Waiting,
    Finished,
    Passed,
    // 20, 21, 27, 28
    Malformed,
    Unexpected,
    BufferShort,
    FileLength,
    // 40 to 45
    Failed(Reason),
}

impl Numbered for Answer {
    ghost number_of = { indoor_number_of };

    fn number(self) -> u8 {
        match self {
            Answer::Identifying
            | Answer::Initiating
            | Answer::Sending { number: _ }
            | Answer::Validating
            | Answer::Waiting
            | Answer::Finished
            | Answer::Passed => 0,
            Answer::Malformed => 20,
            Answer::Unexpected => 21,
            Answer::BufferShort => 27,
            Answer::FileLength => 28,
            Answer::Failed(reason) => reason.number(),
        }
    }
}

// A request that goes out with an answer; a block is given by its number.
#[derive(Clone, Copy)]
pub enum Sends {
    GetFwId,
    Initiate,
    Block(u16),
    Validate,
    Abort,
}

impl Answer {
    // At most one request goes out.
    #[tactic(auto, unfolding(crate::specs::Answer::sends_of))]
    pub fn sends(self) -> Option<Sends>
        ensures { result ≡ sends_of self }
    {
        match self {
            Answer::Identifying => Some(Sends::GetFwId),
            Answer::Initiating => Some(Sends::Initiate),
            Answer::Sending { number } => Some(Sends::Block(number)),
            Answer::Validating => Some(Sends::Validate),
            Answer::Waiting
            | Answer::Finished
            | Answer::Passed
            | Answer::Malformed
            | Answer::Unexpected
            | Answer::BufferShort
            | Answer::FileLength => None,
            Answer::Failed(reason) => aborts(reason),
        }
    }
}

// ABORT is sent once, at 40, 43 and 44.
fn aborts(reason: Reason) -> Option<Sends>
    ensures { result ≡ aborts_of reason }
{
    match reason {
        Reason::Silence | Reason::TooLarge | Reason::WrongNumber => Some(Sends::Abort),
        Reason::Refused | Reason::NotNewer | Reason::NotValid => None,
    }
}
