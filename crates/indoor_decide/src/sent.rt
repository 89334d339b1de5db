// The phase once a block has gone out (01, The indoor end's phases).
ghost use Rattle.std.specs.Prelude.{◌≡◌};
ghost use Rattle.indoor_rules.specs.Step.{empty_number, emptied_by, block_sent};

use indoor_state::phase::{Phase, Progress};
use indoor_state::plan::Plan;

// n: the blocks of the file, and the number of the empty one.
pub(crate) fn last(plan: Plan) -> usize
    ensures { result ≡ empty_number plan }
{
    image::blocks_in(plan.length as usize)
}

pub(crate) fn sent(plan: Plan, number: u16, emptied: bool) -> Phase
    ensures { result ≡ block_sent plan number emptied }
{
    Phase::Transfer(Progress {
        asked: number,
        wait: 0,
        emptied: emptied_by(plan, number, emptied),
    })
}

// Whether the empty block has gone out once this one has.
#[tactic(auto, using(basis::specs::Pick::tests), unfolding(indoor_rules::specs::Step::emptied_by))]
fn emptied_by(plan: Plan, number: u16, emptied: bool) -> bool
    ensures { result ≡ emptied_by plan number emptied }
{
    emptied || usize::from(number) == last(plan)
}
