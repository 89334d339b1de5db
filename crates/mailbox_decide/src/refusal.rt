// Which refusal a write meets (01, Numbers we answer), by the mailbox's situation and the command's class.
ghost use Rattle.std.specs.Prelude.{◌≡◌};
ghost use Rattle.mailbox_rules.specs.Refusal.{situation_of, clears_nothing, refusal_of};

use crate::status::{due, off, runs};
use commands::control::Control;
use commands::table::Class;
use mailbox_state::answer::{Answer, Refusal};
use mailbox_state::situation::Situation;
use mailbox_state::state::State;

#[tactic(auto, unfolding(basis::specs::Pick::differ))]
pub(crate) fn situation(state: State, control: Control) -> Situation
    ensures { result ≡ situation_of state control }
{
    Situation {
        off: off(state.notifications),
        runs: runs(state.status),
        due: due(state.status),
        shown: state.changes.shown != 0,
        change: control.change,
        completed: control.completed,
    }
}

// PPM_RESET, 2, 3, 4, 5, 6, in this order.
#[tactic(auto, using(basis::specs::Pick::tests), unfolding(mailbox_rules::specs::Refusal::refusal_of))]
pub(crate) fn refusal(class: Class, situation: Situation) -> Answer
    ensures { result ≡ refusal_of class situation }
{
    let Situation {
        off,
        runs,
        due,
        completed,
        ..
    } = situation;
    match class {
        Class::Reset => Ok(()),
        _ if off && class != Class::Enable => Err(Refusal::NotificationsOff),
        _ if runs && class != Class::Cancel => Err(Refusal::CommandRuns),
        _ if due && !(class == Class::Acknowledge && completed) => Err(Refusal::AcknowledgementDue),
        Class::Acknowledge if clears_nothing(situation) => Err(Refusal::NothingToClear),
        Class::Cancel if !runs => Err(Refusal::NothingToCancel),
        _ => Ok(()),
    }
}

// ACK with neither bit, or a bit with nothing to clear.
fn clears_nothing(situation: Situation) -> bool
    ensures { result ≡ clears_nothing situation }
{
    !(situation.change | situation.completed)
        | (situation.change & !situation.shown)
        | (situation.completed & !situation.due)
}
