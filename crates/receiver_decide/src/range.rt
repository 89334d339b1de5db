// The readiness wait and the verdict that come with each request, and whether they are in range (01, The receiver's phases).
ghost use Rattle.std.specs.Prelude.{◌≡◌};
ghost use Rattle.receiver_rules.specs.Range.{verdict_outside, out_of_range};

use receiver_state::verdict::{Given, Verdict};

const WAIT_MOST: u8 = 254;

#[tactic(auto, using(basis::specs::Pick::tests), unfolding(receiver_rules::specs::Range::verdict_outside, receiver_rules::specs::Range::later_outside))]
fn verdict_outside(verdict: Verdict) -> bool
    ensures { result ≡ verdict_outside verdict }
{
    match verdict {
        Verdict::Good | Verdict::Bad => false,
        Verdict::Later(wait) => wait == 0 || WAIT_MOST < wait,
    }
}

#[tactic(auto, using(basis::specs::Pick::tests), unfolding(receiver_rules::specs::Range::out_of_range))]
pub fn out_of_range(given: Given) -> bool
    ensures { result ≡ out_of_range given.readiness given.verdict }
{
    WAIT_MOST < given.readiness || verdict_outside(given.verdict)
}
