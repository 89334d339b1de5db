// What became of a message: it has arrived with an answer, or it is lost.
ghost use Rattle.std.specs.Prelude.{◌≡◌};
ghost use Rattle.luck.specs.Went.{missed_of};

use crate::called::Answered;
use crate::luck::Going;
use crate::way::Way;

// The message did not arrive.
#[derive(Clone, Copy)]
pub struct Lost;

// `None`: no message was on its way.
pub type Went = Option<Result<Answered, Lost>>;

// What is on its way up and down after a message has not arrived.
#[derive(Clone, Copy)]
pub struct Missed {
    pub up: Way,
    pub down: Way,
    pub went: Went,
}

impl Going {
    // Nothing was on its way, or the message is lost.
    #[tactic(auto, using(basis::specs::Pick::tests), unfolding(crate::specs::Went::missed_of))]
    pub fn missed(self, rising: Way, falling: Way) -> Missed
        ensures { result ≡ missed_of self rising falling }
    {
        let kept = Missed {
            up: rising,
            down: falling,
            went: None,
        };
        let way = self.way;
        if way.bytes == 0 {
            return kept;
        }
        if self.rises {
            return Missed {
                up: Way::nothing(),
                went: Some(Err(Lost)),
                ..kept
            };
        }
        Missed {
            down: Way::nothing(),
            went: Some(Err(Lost)),
            ..kept
        }
    }
}
