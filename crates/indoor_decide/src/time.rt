// What the indoor end does when time passes (01, The indoor end's phases).
ghost use Rattle.std.specs.Prelude.{◌≡◌};
ghost use Rattle.indoor_rules.specs.Tick.{expires_of, request_tick_of, transfer_tick_of, waits_on, wait_over, indoor_tick_of};

use crate::sent::sent;
use crate::step::fails;
use indoor_state::answer::Answer;
use indoor_state::phase::{Phase, Progress, Reason, State};
use indoor_state::plan::Plan;
use indoor_state::step::Step;
use silence::Event;

// In Done and Failed time does nothing. The plan and the state come apart, as the definition takes them (`indoor_tick_of`): only the state
// changes.
#[tactic(auto, using(indoor_rules::proofs::Waits::waits), unfolding(indoor_rules::specs::Tick::indoor_tick_in))]
pub fn pass(plan: Plan, state: State, elapsed: u16) -> Step
    ensures { result ≡ indoor_tick_of plan state elapsed }
{
    match state.phase {
        Phase::Identify => expires(plan, state, Some(Answer::Identifying), elapsed),
        Phase::Initiate { wait } => {
            let left = Phase::Initiate {
                wait: wait.saturating_sub(elapsed),
            };
            request(plan, state, wait, left, Answer::Initiating, elapsed)
        }
        Phase::Transfer(p) => transfer(plan, state, p, elapsed),
        Phase::Validate { wait } => {
            let left = Phase::Validate {
                wait: wait.saturating_sub(elapsed),
            };
            request(plan, state, wait, left, Answer::Validating, elapsed)
        }
        Phase::Done | Phase::Failed(_) => Step {
            state,
            answer: Answer::Passed,
        },
    }
}

// At the silence limit the request goes out again while resends are left; with none left it is 40, and so it is where none is resent.
#[tactic(auto, unfolding(indoor_rules::specs::Tick::resends_of, indoor_rules::specs::Tick::resend_on_event, indoor_rules::specs::Tick::transfer_expires_of, indoor_rules::specs::Tick::transfer_on_event))]
fn expires(plan: Plan, state: State, again: Option<Answer>, elapsed: u16) -> Step
    ensures { result ≡ expires_of plan state again elapsed }
{
    let grown = silence::grow(state.silence, elapsed, state.resends, plan.settings);
    let answer = match (grown.event, again) {
        (Event::Quiet, _) => Answer::Passed,
        (Event::Resend, Some(again)) => again,
        (Event::Resend, None) | (Event::NoneLeft, _) => return fails(Reason::Silence),
    };
    Step {
        state: State {
            silence: grown.silence,
            resends: grown.resends,
            ..state
        },
        answer,
    }
}

// Silence doesn't grow in a wait.
fn waits_on(state: State, phase: Phase) -> Step
    ensures { result ≡ waits_on state phase }
{
    Step {
        state: State { phase, ..state },
        answer: Answer::Passed,
    }
}

// The request goes out, and the call's leftover time is dropped.
fn wait_over(state: State, phase: Phase, answer: Answer) -> Step
    ensures { result ≡ wait_over state phase answer }
{
    Step {
        state: State {
            phase,
            silence: 0,
            ..state
        },
        answer,
    }
}

// Outside a wait (0 ms left) silence grows; else the wait goes on or is over, and `left` is the phase with what is left of it. So it is in
// Transfer too, where nothing is resent.
#[tactic(auto, using(basis::specs::Pick::tests), unfolding(indoor_rules::specs::Tick::request_tick_of))]
fn request(plan: Plan, state: State, wait: u16, left: Phase, answer: Answer, elapsed: u16) -> Step
    ensures { result ≡ request_tick_of plan state wait left answer elapsed }
{
    if wait == 0 {
        return expires(plan, state, Some(answer), elapsed);
    }
    if elapsed < wait {
        return waits_on(state, left);
    }
    wait_over(state, left, answer)
}

#[tactic(auto, using(basis::specs::Pick::tests), unfolding(indoor_rules::specs::Tick::transfer_tick_of))]
fn transfer(plan: Plan, state: State, p: Progress, elapsed: u16) -> Step
    ensures { result ≡ transfer_tick_of plan state p elapsed }
{
    if p.wait == 0 {
        return expires(plan, state, None, elapsed);
    }
    if elapsed < p.wait {
        let left = Progress {
            wait: p.wait - elapsed,
            ..p
        };
        return waits_on(state, Phase::Transfer(left));
    }
    let phase = sent(plan, p.asked, p.emptied);
    wait_over(state, phase, Answer::Sending { number: p.asked })
}
