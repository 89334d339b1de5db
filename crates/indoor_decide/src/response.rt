// What the indoor end does with a well-formed response, by its phase (01, The indoor end's phases).
ghost use Rattle.std.specs.Prelude.{◌≡◌};
ghost use Rattle.indoor_rules.specs.Decide.{passed_over, sends_block, where_ok, compared_of, ready_of, indoor_offered_of, indoor_close_of, block_asked_of, indoor_data_of, indoor_success_of, indoor_validated_of, indoor_decide_of};

use crate::compare::newer;
use crate::sent::{last, sent};
use crate::step::{fails, goes};
use indoor_state::answer::Answer;
use indoor_state::phase::{Phase, Progress, Reason, State};
use indoor_state::plan::Plan;
use indoor_state::step::Step;
use wire::codes;
use wire::response::{Identity, Response};
use wire::status::Status;

// WaitTime counts 10 ms in an INITIATE response (01, Sizes and numbers).
const INITIATE_UNIT: u16 = 10;

// In each phase the response of one type is due; any other is passed over, and so is any in Done and Failed.
#[tactic(auto, unfolding(indoor_rules::specs::Decide::indoor_decide_in, indoor_rules::specs::Decide::indoor_identify_of, indoor_rules::specs::Decide::indoor_initiate_of, indoor_rules::specs::Decide::indoor_transfer_of, indoor_rules::specs::Decide::indoor_validate_of))]
pub fn decide(plan: Plan, state: State, response: Response) -> Step
    ensures { result ≡ indoor_decide_of plan state response }
{
    match (state.phase, response) {
        (Phase::Identify, Response::GetFwId { status, identity }) => {
            where_ok(status, compared(plan, identity))
        }
        (Phase::Initiate { wait: _ }, Response::Initiate { status, wait, size }) => {
            where_ok(status, offered(plan, wait, size))
        }
        (
            Phase::Transfer(p),
            Response::Data {
                status,
                wait,
                number,
            },
        ) => { where_ok(status, data_response(plan, p.emptied, wait, number)) }
        (
            Phase::Validate { wait: _ },
            Response::Validate {
                status,
                wait,
                success,
            },
        ) => { where_ok(status, validated(wait, success)) }
        _ => passes_over(state),
    }
}

fn passes_over(state: State) -> Step
    ensures { result ≡ passed_over state }
{
    Step {
        state,
        answer: Answer::Unexpected,
    }
}

// Every status but OK is 41 (001 T5-29), whatever else the response says. The further step is a value and no closure: to decide it touches
// nothing.
#[tactic(auto, using(basis::specs::Pick::tests), unfolding(indoor_rules::specs::Decide::where_ok, indoor_rules::specs::Decide::not_ok))]
fn where_ok(status: u8, further: Step) -> Step
    ensures { result ≡ where_ok status further }
{
    if status != u8::from(Status::Ok) {
        return fails(Reason::Refused);
    }
    further
}

#[tactic(auto, using(basis::specs::Pick::tests), unfolding(indoor_rules::specs::Decide::compared_of))]
fn compared(plan: Plan, reported: Identity) -> Step
    ensures { result ≡ compared_of plan reported }
{
    if !newer(plan.release, reported) {
        return fails(Reason::NotNewer);
    }
    goes(Phase::Initiate { wait: 0 }, Answer::Initiating)
}

#[tactic(auto, using(basis::specs::Pick::tests), unfolding(indoor_rules::specs::Decide::indoor_offered_of))]
fn offered(plan: Plan, wait: u8, size: u32) -> Step
    ensures { result ≡ indoor_offered_of plan wait size }
{
    match wait {
        codes::UNABLE => fails(Reason::Refused),
        0 => ready(plan, size),
        _ => {
            let wait = INITIATE_UNIT * u16::from(wait);
            goes(Phase::Initiate { wait }, Answer::Waiting)
        }
    }
}

#[tactic(auto, using(basis::specs::Pick::tests), unfolding(indoor_rules::specs::Decide::ready_of))]
fn ready(plan: Plan, size: u32) -> Step
    ensures { result ≡ ready_of plan size }
{
    if size < plan.length {
        return fails(Reason::TooLarge);
    }
    sends(plan, 0, false)
}

fn sends(plan: Plan, number: u16, emptied: bool) -> Step
    ensures { result ≡ sends_block plan number emptied }
{
    goes(sent(plan, number, emptied), Answer::Sending { number })
}

#[tactic(auto, using(basis::specs::Pick::tests), unfolding(indoor_rules::specs::Decide::indoor_data_of))]
fn data_response(plan: Plan, emptied: bool, wait: u8, number: u16) -> Step
    ensures { result ≡ indoor_data_of plan emptied wait number }
{
    if wait == codes::UNABLE {
        return close(plan, emptied, number);
    }
    block_asked(plan, emptied, wait, number)
}

#[tactic(auto, using(basis::specs::Pick::tests), unfolding(indoor_rules::specs::Decide::indoor_close_of, indoor_rules::specs::Decide::indoor_close_number_of))]
fn close(plan: Plan, emptied: bool, number: u16) -> Step
    ensures { result ≡ indoor_close_of plan emptied number }
{
    if !emptied || usize::from(number) != last(plan) {
        return fails(Reason::WrongNumber);
    }
    goes(Phase::Validate { wait: 0 }, Answer::Validating)
}

#[tactic(auto, using(basis::specs::Pick::tests), unfolding(indoor_rules::specs::Decide::block_asked_of))]
fn block_asked(plan: Plan, emptied: bool, wait: u8, number: u16) -> Step
    ensures { result ≡ block_asked_of plan emptied wait number }
{
    if last(plan) < usize::from(number) {
        return fails(Reason::WrongNumber);
    }
    if wait == 0 {
        return sends(plan, number, emptied);
    }
    let p = Progress {
        asked: number,
        wait: u16::from(wait),
        emptied,
    };
    goes(Phase::Transfer(p), Answer::Waiting)
}

#[tactic(auto, using(basis::specs::Pick::tests), unfolding(indoor_rules::specs::Decide::indoor_validated_of))]
fn validated(wait: u8, success: bool) -> Step
    ensures { result ≡ indoor_validated_of wait success }
{
    match wait {
        codes::UNABLE => fails(Reason::Refused),
        0 => successful(success),
        _ => {
            let wait = u16::from(wait);
            goes(Phase::Validate { wait }, Answer::Waiting)
        }
    }
}

#[tactic(auto, using(basis::specs::Pick::tests), unfolding(indoor_rules::specs::Decide::indoor_success_of))]
fn successful(success: bool) -> Step
    ensures { result ≡ indoor_success_of success }
{
    if !success {
        return fails(Reason::NotValid);
    }
    goes(Phase::Done, Answer::Finished)
}
