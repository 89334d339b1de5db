// What a call of either end answered and sent.
ghost use Rattle.std.specs.Prelude.{◌≡◌};
ghost use Rattle.luck.specs.Called.{answered_of};

use crate::way::Way;

// The answer's number (01, Numbers we answer), whether a message was sent, and whether that took the place of one that has never arrived.
// It is the number and not the answer, since the answers of the two ends have no more in common.
#[derive(Clone, Copy)]
pub struct Answered {
    pub number: u8,
    pub sent: bool,
    pub pushed: bool,
}

// `way` is what was on its way before the call, and `written` how many bytes the call wrote.
pub fn answers(number: u8, way: Way, written: usize) -> Answered
    ensures { result ≡ answered_of number way written }
{
    Answered {
        number,
        sent: 0 < written,
        pushed: way.pushed(written),
    }
}
