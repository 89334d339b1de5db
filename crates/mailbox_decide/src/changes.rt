// The connector shown and those that wait (01, The mailbox).
ghost use Rattle.std.specs.Prelude.{◌≡◌, true, false};
ghost use Rattle.mailbox_rules.specs.Changes.{lowest_of, marked_of, noted_of, next_shown_of};

use mailbox_state::state::Changes;

// A change that is recorded is shown where none is, and else waits.
#[tactic(auto, using(basis::specs::Pick::tests), unfolding(mailbox_rules::specs::Changes::noted_of))]
pub(crate) fn noted(changes: Changes, connector: u8) -> Changes
    ensures { result ≡ noted_of changes connector }
{
    if changes.shown == 0 {
        return Changes {
            shown: connector,
            ..changes
        };
    }
    Changes {
        waiting: marked(changes.waiting, connector, true),
        ..changes
    }
}

// Once the one shown is acknowledged, the lowest that waits is shown.
#[tactic(auto, unfolding(mailbox_rules::specs::Changes::next_shown_of))]
pub(crate) fn next(changes: Changes) -> Changes
    ensures { result ≡ next_shown_of changes }
{
    let waiting = changes.waiting;
    let shown = lowest(waiting);
    Changes {
        shown,
        waiting: marked(waiting, shown, false),
    }
}

// A match, since the proof does not open the clause of a closure that is handed to `map_or`. A place of eight fits a byte, so that its cast
// loses nothing.
fn lowest(waiting: [bool; 8]) -> u8
    ensures { result ≡ lowest_of waiting }
{
    match waiting.iter().position(|waits| *waits) {
        Some(place) => place as u8 + 1,
        None => 0,
    }
}

#[tactic(auto, using(basis::specs::Pick::tests), unfolding(mailbox_rules::specs::Changes::marked_of))]
fn marked(waiting: [bool; 8], connector: u8, waits: bool) -> [bool; 8]
    ensures { result ≡ marked_of waiting connector waits }
{
    let mut after = waiting;
    if (1..=8).contains(&connector) {
        after[usize::from(connector) - 1] = waits;
    }
    after
}
