// Time passes at both ends: first on the roof, then indoors.
ghost use Rattle.std.specs.Prelude.{◌≡◌};
ghost use Rattle.lossy_ends.specs.Both.{both};
ghost use Rattle.lossy_session.specs.Pass.{both_pass_of};

use lossy_ends::{Called, Ends};
use luck::Answered;

#[derive(Clone, Copy)]
pub struct Passed {
    pub ends: Ends,
    pub above: Answered,
    pub below: Answered,
}

// What is lent comes part by part, since the contract says of each what it is left with.
#[tactic(auto, unfolding(crate::specs::Pass::both_pass_of, crate::specs::Clock::roof_passes, crate::specs::Clock::indoor_passes))]
pub fn pass(ends: Ends, elapsed: u16, file: &[u8], up: &mut [u8], down: &mut [u8]) -> Passed
    ensures { both result up.new down.new ≡ both_pass_of ends elapsed file.now up.old down.old }
{
    let roof = Called::new(receiver::time(ends.receiver, elapsed, down), ends.down);
    let indoors = Called::new(indoor::time(ends.indoor, file, elapsed, up), ends.up);
    Passed {
        ends: Ends {
            receiver: roof.session,
            indoor: indoors.session,
            up: indoors.way,
            down: roof.way,
        },
        above: roof.answered,
        below: indoors.answered,
    }
}
