// Notifications as a flag and a mask, and back. There is a mask only while they are on.
ghost use Rattle.std.specs.Prelude.{◌≡◌};
ghost use Rattle.mailbox_c.specs.Notifying.{on_of, mask_of, notifications_of, notifies_of};

use mailbox_state::state::Notifications;

// The flag and the mask are a word each, so that each has its function.
pub(crate) fn on_of(notifications: Notifications) -> u32
    ensures { result ≡ on_of notifications }
{
    match notifications {
        Notifications::Off => 0,
        Notifications::On { mask: _ } => 1,
    }
}

pub(crate) fn mask_of(notifications: Notifications) -> u16
    ensures { result ≡ mask_of notifications }
{
    match notifications {
        Notifications::Off => 0,
        Notifications::On { mask } => mask,
    }
}

// One number is told apart from all others, so that a match would say no more.
#[tactic(auto, using(basis::specs::Pick::tests), unfolding(crate::specs::Notifying::notifications_of))]
pub(crate) fn notifications_of(on: u32, mask: u16) -> Notifications
    ensures { result ≡ notifications_of on mask }
{
    if on == 1 {
        return Notifications::On { mask };
    }
    Notifications::Off
}

// A flag is 0 or 1. A mask has 16 bits, and while notifications are off it is 0.
#[tactic(auto, using(basis::specs::Pick::tests), unfolding(crate::specs::Notifying::notifies_of))]
pub(crate) fn notifies(on: u32, mask: u32) -> bool
    ensures { result ≡ notifies_of on mask }
{
    match on {
        0 => mask == 0,
        1 => mask <= 65535,
        _ => false,
    }
}
