// The mailbox's state without its MESSAGE_IN (01, The mailbox).
use crate::status::CommandStatus;

// A mask is there only while notifications are on. Document 01 says off and on, which None and Some of a mask would not.
#[derive(Clone, Copy)]
pub enum Notifications {
    Off,
    On { mask: u16 },
}

// `shown` is a connector or 0 for none, as CCI's bits 1 to 7 say it (000 T3-2); connector c waits if `waiting[c - 1]`.
#[derive(Clone, Copy)]
pub struct Changes {
    pub shown: u8,
    pub waiting: [bool; 8],
}

// `connectors` is how many there are.
#[derive(Clone, Copy)]
pub struct State {
    pub connectors: u8,
    pub notifications: Notifications,
    pub status: CommandStatus,
    pub changes: Changes,
}
