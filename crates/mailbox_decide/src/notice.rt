// A change on a connector: 9, and then the mask (01, The mailbox).
ghost use Rattle.std.specs.Prelude.{◌≡◌};
ghost use Rattle.mailbox_rules.specs.Change.{meets_of, heard_of, records_change, present_step_of, change_step_of};
ghost use Rattle.mailbox_rules.specs.Write.{connector_there};

use crate::changes::noted;
use crate::step::{refused, taken};
use mailbox_state::answer::Refusal;
use mailbox_state::state::{Notifications, State};
use mailbox_state::step::{MessageEffect, Step};

#[tactic(auto, using(basis::specs::Pick::tests), unfolding(mailbox_rules::specs::Change::change_step_of))]
pub fn change(state: State, connector: u8, reason: u16) -> Step
    ensures { result ≡ change_step_of state connector reason }
{
    if !there(connector, state.connectors) {
        return refused(state, Refusal::NoSuchConnector);
    }
    present(state, connector, reason)
}

// A change that is not heard is dropped with answer 0.
#[tactic(auto, using(basis::specs::Pick::tests), unfolding(mailbox_rules::specs::Change::present_step_of))]
fn present(state: State, connector: u8, reason: u16) -> Step
    ensures { result ≡ present_step_of state connector reason }
{
    if !heard(state.notifications, reason) {
        return taken(state, MessageEffect::Kept);
    }
    note(state, connector)
}

#[tactic(auto, unfolding(mailbox_rules::specs::Change::heard_of))]
fn heard(notifications: Notifications, reason: u16) -> bool
    ensures { result ≡ heard_of notifications reason }
{
    matches!(notifications, Notifications::On { mask } if meets(reason, mask))
}

// A bit in common outside bit 0.
#[tactic(auto, unfolding(mailbox_rules::specs::Change::meets_of))]
fn meets(reason: u16, mask: u16) -> bool
    ensures { result ≡ meets_of reason mask }
{
    1 < (reason & mask)
}

fn note(state: State, connector: u8) -> Step
    ensures { result ≡ records_change state connector }
{
    let state = State {
        changes: noted(state.changes, connector),
        ..state
    };
    taken(state, MessageEffect::Kept)
}

// A connector number from 1 to the count.
#[tactic(auto, unfolding(mailbox_rules::specs::Write::connector_there))]
pub(crate) fn there(connector: u8, count: u8) -> bool
    ensures { result ≡ connector_there connector count }
{
    (1..=count).contains(&connector)
}
