// Steps after which silence and resends are zero (01, The indoor end's phases).
ghost use Rattle.std.specs.Prelude.{◌≡◌};
ghost use Rattle.indoor_rules.specs.Step.{goes, fails};

use indoor_state::answer::Answer;
use indoor_state::phase::{Phase, Reason, State};
use indoor_state::step::Step;

// An accepted response sets silence and resends to zero; so does a failure.
pub(crate) fn goes(phase: Phase, answer: Answer) -> Step
    ensures { result ≡ goes phase answer }
{
    Step {
        state: State {
            phase,
            silence: 0,
            resends: 0,
        },
        answer,
    }
}

// Failed keeps nothing but its reason.
pub(crate) fn fails(reason: Reason) -> Step
    ensures { result ≡ fails reason }
{
    goes(Phase::Failed(reason), Answer::Failed(reason))
}
