// What a call of the receiver answers: document 01's number, and the response that goes out with it.
ghost use Rattle.receiver_state.specs.Answer.{receiver_number_of};

use numbers::Numbered;

// One enum for 0 and for what is refused, and no Result: with each comes the session after the call (`Outcome`), which a request that is
// refused with 21 to 25 changes too.
#[derive(Clone, Copy)]
pub enum Answer {
    // 0. A time call answers `Passed`, or `Asking` or `Closed` where it sends its DATA response again.
    Identified,
    Offered { wait: u8 },
    Asking { wait: u8, number: u16 },
    Closed { number: u16 },
    Success,
    Later { wait: u8 },
    Aborted,
    Passed,
    // 20
    Malformed,
    // 21, by the type of the response; ABORT and the types that are not built get none.
    UnexpectedInitiate,
    UnexpectedData,
    UnexpectedValidate,
    Unexpected,
    // 22 to 28
    NotDue { due: u16 },
    PassesCapacity,
    WrongFile,
    VerdictBad,
    OutOfRange,
    BufferShort,
    ImageLength,
}

// 01, Numbers we answer.
impl Numbered for Answer {
    ghost number_of = { receiver_number_of };

    fn number(self) -> u8 {
        match self {
            Answer::Identified
            | Answer::Offered { .. }
            | Answer::Asking { .. }
            | Answer::Closed { .. }
            | Answer::Success
            | Answer::Later { .. }
            | Answer::Aborted
            | Answer::Passed => 0,
            Answer::Malformed => 20,
            Answer::UnexpectedInitiate
            | Answer::UnexpectedData
            | Answer::UnexpectedValidate
            | Answer::Unexpected => 21,
            Answer::NotDue { .. } => 22,
            Answer::PassesCapacity => 23,
            Answer::WrongFile => 24,
            Answer::VerdictBad => 25,
            Answer::OutOfRange => 26,
            Answer::BufferShort => 27,
            Answer::ImageLength => 28,
        }
    }
}
