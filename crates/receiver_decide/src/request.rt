// What the receiver does with a well-formed request, by its phase (01, The receiver's phases).
ghost use Rattle.std.specs.Prelude.{◌≡◌, ◌+◌, ◌*◌, ◌≤◌, ◌<◌};
ghost use Rattle.receiver_rules.specs.Decide.{last_number, goes_to, receiver_offer_of, initiate_in_transfer_of, receiver_initiate_of, passes_capacity, close_transfer_of, take_block_of, receiver_transfer_of, receiver_data_of, receiver_verdict_of, receiver_validate_of, receiver_abort_of, receiver_decide_of};

use crate::phase::nothing_accepted;
use receiver_state::answer::Answer;
use receiver_state::phase::{Accepted, Phase, Progress};
use receiver_state::step::Step;
use receiver_state::verdict::{Given, Verdict};
use wire::request::Request;

// An image of 1,048,575 bytes has no block above this number (01, Sizes and numbers).
const LAST_NUMBER: u16 = 4095;

// An arm for each request here, and for each phase below: they are the rows of document 01's table, and no caller chooses a step.
#[tactic(auto, using(basis::specs::Pick::tests), unfolding(receiver_rules::specs::Decide::receiver_decide_of))]
pub fn decide(phase: Phase, request: Request, capacity: u32, given: Given) -> Step
    ensures { result ≡ receiver_decide_of phase request capacity given.readiness given.verdict }
{
    match request {
        Request::GetFwId => to(phase, Answer::Identified),
        Request::Initiate(_) => initiate(phase, given.readiness),
        Request::Data { number, size } => data(phase, number, size, capacity, given.readiness),
        Request::Validate => validate(phase, given.verdict),
        Request::Abort => abort(phase),
        Request::NotBuilt => to(phase, Answer::Unexpected),
    }
}

fn to(phase: Phase, answer: Answer) -> Step
    ensures { result ≡ goes_to phase answer }
{
    Step {
        phase,
        answer,
        store: None,
    }
}

#[tactic(auto, using(basis::specs::Pick::tests), unfolding(receiver_rules::specs::Decide::receiver_initiate_of))]
fn initiate(phase: Phase, readiness: u8) -> Step
    ensures { result ≡ receiver_initiate_of phase readiness }
{
    match phase {
        Phase::Idle => offer(phase, readiness),
        Phase::Transfer(p) => initiate_in_transfer(p, readiness),
        Phase::Await(_) | Phase::Good(_) => to(phase, Answer::UnexpectedInitiate),
    }
}

#[tactic(auto, using(basis::specs::Pick::tests), unfolding(receiver_rules::specs::Decide::initiate_in_transfer_of))]
fn initiate_in_transfer(p: Progress, readiness: u8) -> Step
    ensures { result ≡ initiate_in_transfer_of p readiness }
{
    if p.accepted.blocks != 0 {
        return to(Phase::Transfer(p), Answer::UnexpectedInitiate);
    }
    offer(Phase::Transfer(p), readiness)
}

#[tactic(auto, using(basis::specs::Pick::tests), unfolding(receiver_rules::specs::Decide::receiver_offer_of))]
fn offer(phase: Phase, readiness: u8) -> Step
    ensures { result ≡ receiver_offer_of phase readiness }
{
    if readiness == 0 {
        let fresh = Progress {
            accepted: nothing_accepted(),
            short: false,
        };
        return to(Phase::Transfer(fresh), Answer::Offered { wait: 0 });
    }
    to(phase, Answer::Offered { wait: readiness })
}

#[tactic(auto, using(basis::specs::Pick::tests), unfolding(receiver_rules::specs::Decide::receiver_data_of))]
fn data(phase: Phase, number: u16, size: usize, capacity: u32, readiness: u8) -> Step
    ensures { result ≡ receiver_data_of phase number size capacity readiness }
{
    match phase {
        Phase::Idle | Phase::Good(_) => to(phase, Answer::UnexpectedData),
        Phase::Transfer(p) => transfer(p, number, size, capacity, readiness),
        Phase::Await(a) => to(phase, Answer::Closed { number: a.blocks }),
    }
}

// 22, 24, 23, in this order.
#[tactic(auto, using(basis::specs::Pick::tests), unfolding(receiver_rules::specs::Decide::receiver_transfer_of))]
fn transfer(p: Progress, number: u16, size: usize, capacity: u32, readiness: u8) -> Step
    ensures { result ≡ receiver_transfer_of p number size capacity readiness }
{
    let due = p.accepted.blocks;
    if number != due {
        return to(Phase::Transfer(p), Answer::NotDue { due });
    }
    if size == 0 {
        return close(p.accepted);
    }
    if p.short {
        return to(Phase::Idle, Answer::WrongFile);
    }
    if passes_capacity(number, size, capacity) {
        return to(Phase::Idle, Answer::PassesCapacity);
    }
    take(number, size, readiness)
}

#[tactic(auto, using(basis::specs::Pick::tests), unfolding(receiver_rules::specs::Decide::close_transfer_of))]
fn close(accepted: Accepted) -> Step
    ensures { result ≡ close_transfer_of accepted }
{
    let number = accepted.blocks;
    if number == 0 {
        return to(Phase::Idle, Answer::WrongFile);
    }
    to(Phase::Await(accepted), Answer::Closed { number })
}

// A number above the last one passes every capacity, also one that no session has: so what `take` adds up cannot wrap.
// There is no From of a u32 for a usize.
#[tactic(auto, using(basis::specs::Pick::tests), unfolding(receiver_rules::specs::Decide::passes_capacity))]
fn passes_capacity(number: u16, size: usize, capacity: u32) -> bool
    ensures { result ≡ passes_capacity number size capacity }
{
    LAST_NUMBER < number || image::passes(number, size, capacity as usize)
}

// `passes_capacity` is false of both numbers here: so no sum wraps, the cast loses nothing, and a second test would have an arm that no request
// reaches.
#[tactic(auto, using(basis::specs::Pick::tests), unfolding(receiver_rules::specs::Decide::take_block_of))]
fn take(number: u16, size: usize, readiness: u8) -> Step
    requires number_le_last_number { number ≤ last_number }
    requires size_bound { 256 * number + size < 4294967296 }
    ensures { result ≡ take_block_of number size readiness }
{
    let next = number + 1;
    let bytes = image::place_of(number) + size;
    let accepted = Accepted {
        blocks: next,
        bytes: bytes as u32,
    };
    let p = Progress {
        accepted,
        short: size < image::BLOCK,
    };
    Step {
        phase: Phase::Transfer(p),
        answer: Answer::Asking {
            wait: readiness,
            number: next,
        },
        store: Some(number),
    }
}

#[tactic(auto, using(basis::specs::Pick::tests), unfolding(receiver_rules::specs::Decide::receiver_validate_of))]
fn validate(phase: Phase, verdict: Verdict) -> Step
    ensures { result ≡ receiver_validate_of phase verdict }
{
    match phase {
        Phase::Idle | Phase::Transfer(_) => to(phase, Answer::UnexpectedValidate),
        Phase::Await(a) => judge(a, verdict),
        Phase::Good(_) => to(phase, Answer::Success),
    }
}

#[tactic(auto, using(basis::specs::Pick::tests), unfolding(receiver_rules::specs::Decide::receiver_verdict_of))]
fn judge(accepted: Accepted, verdict: Verdict) -> Step
    ensures { result ≡ receiver_verdict_of accepted verdict }
{
    match verdict {
        Verdict::Good => to(Phase::Good(accepted), Answer::Success),
        Verdict::Bad => to(Phase::Idle, Answer::VerdictBad),
        Verdict::Later(wait) => to(Phase::Await(accepted), Answer::Later { wait }),
    }
}

#[tactic(auto, using(basis::specs::Pick::tests), unfolding(receiver_rules::specs::Decide::receiver_abort_of))]
fn abort(phase: Phase) -> Step
    ensures { result ≡ receiver_abort_of phase }
{
    match phase {
        Phase::Idle | Phase::Good(_) => to(phase, Answer::Unexpected),
        Phase::Transfer(_) | Phase::Await(_) => to(Phase::Idle, Answer::Aborted),
    }
}
